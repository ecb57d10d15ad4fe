//! SipHash-2-4, a keyed hash (Aumasson and Bernstein, 2012).
ghost use Rattle.std.specs.Prelude.{◌≡◌, []};
ghost use Rattle.tcp_state.specs.SipHash.{half_round, exchanged, sip_round, initial, with_word, compressed, finalized, hash_of_words};
ghost use Rattle.tcp_state.specs.SipHash.{sip_hash, up_to};

/// The four words of its state.
#[derive(Clone, Copy)]
pub(crate) struct SipState {
    v0: u64,
    v1: u64,
    v2: u64,
    v3: u64,
}

impl SipState {
    /// The state with a key.
    fn new(key: [u8; 16]) -> SipState
        ensures { result ≡ initial key }
    {
        let [a, b, c, d, e, f, g, h, i, j, k, l, m, n, o, p] = key;
        let low = u64::from_le_bytes([a, b, c, d, e, f, g, h]);
        let high = u64::from_le_bytes([i, j, k, l, m, n, o, p]);
        SipState {
            v0: low ^ 0x736f_6d65_7073_6575,
            v1: high ^ 0x646f_7261_6e64_6f6d,
            v2: low ^ 0x6c79_6765_6e65_7261,
            v3: high ^ 0x7465_6462_7974_6573,
        }
    }

    /// A half of a round, which turns `v1` and `v3` by so much.
    fn half_round(self, left: u32, right: u32) -> SipState
        ensures { result ≡ half_round self left right }
    {
        let (first, second) = (self.v0.wrapping_add(self.v1), self.v2.wrapping_add(self.v3));
        SipState {
            v0: first.rotate_left(32),
            v1: self.v1.rotate_left(left) ^ first,
            v2: second,
            v3: self.v3.rotate_left(right) ^ second,
        }
    }

    fn exchanged(self) -> SipState
        ensures { result ≡ exchanged self }
    {
        SipState {
            v0: self.v2,
            v2: self.v0,
            ..self
        }
    }

    fn round(self) -> SipState
        ensures { result ≡ sip_round self }
    {
        self.half_round(13, 16)
            .exchanged()
            .half_round(17, 21)
            .exchanged()
    }

    /// A word of the message goes in.
    fn with_word(self, word: u64) -> SipState
        ensures { result ≡ with_word self word }
    {
        let mixed = SipState {
            v3: self.v3 ^ word,
            ..self
        };
        let mixed = mixed.round().round();
        SipState {
            v0: mixed.v0 ^ word,
            ..mixed
        }
    }

    /// The hash of what went in.
    fn finish(self) -> u64
        ensures { result ≡ finalized self }
    {
        let ended = SipState {
            v2: self.v2 ^ 0xff,
            ..self
        };
        let ended = ended.round().round().round().round();
        ended.v0 ^ ended.v1 ^ ended.v2 ^ ended.v3
    }
}

/// The hash of the words of a message, the last of which has its length.
pub fn sip_hash(key: [u8; 16], words: &[u64]) -> u64
    ensures { result ≡ hash_of_words key words.now }
{
    let mut state = SipState::new(key);
    for word in words {
        state = state.with_word(*word);
    }
    state.finish()
}

/// Runs on numerals: the key 00 .. 0f and the messages of no byte, of 00, of 00 01, of 00 01 02 (the
/// vectors alongside the reference code) and of 00 .. 0e (the paper, appendix A).
pub fn sip_hashes()
    ensures none { sip_hash (up_to 16) [] ≡ 0x726fdb47dd0e0e31 }
    ensures one { sip_hash (up_to 16) (up_to 1) ≡ 0x74f839c593dc67fd }
    ensures two { sip_hash (up_to 16) (up_to 2) ≡ 0x0d6c8009d9a94f5a }
    ensures three { sip_hash (up_to 16) (up_to 3) ≡ 0x85676696d7fb7e2d }
    ensures fifteen { sip_hash (up_to 16) (up_to 15) ≡ 0xa129ca6149be45e5 }
{}
