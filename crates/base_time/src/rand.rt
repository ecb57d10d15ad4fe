//! Random words: ports, identifiers and first sequence numbers are drawn from them.
ghost use Rattle.std.specs.Prelude.{◌≡◌, ℕ};
ghost use Rattle.base_time.specs.Rand.{next_state, word, half_word, draw_port};

use std::marker::Model;

const MULTIPLIER: u64 = 0xbb2e_fcec_3c39_611d;

const INCREMENT: u64 = 0x7590_ef39;

/// A generator of random words, as much as a network stack needs of them: an observer who sees a few
/// words can foretell the rest, so it is no use for secrets.
///
/// A contract sees its state, a number of 64 bits. Each word is a function of the next state.
#[derive(Debug, Drop)]
pub struct Rand {
    state: u64,
}

impl Model for Rand {
    ghost Value = { ℕ };

    ghost view = { λ r. r.state };
}

impl Rand {
    /// A generator whose words are those of this seed.
    pub const fn new(seed: u64) -> Rand
        ensures { result ≡ seed }
    {
        Rand { state: seed }
    }

    /// The next word of 32 bits.
    pub fn rand_u32(&mut self) -> u32
        ensures word { result ≡ word self.new }
        ensures state { self.new ≡ next_state self.old }
    {
        self.state = self.state.wrapping_mul(MULTIPLIER).wrapping_add(INCREMENT);
        let shift = 29 - (self.state >> 61);
        ((self.state >> shift) & 0xffff_ffff) as u32
    }

    /// The next word of 16 bits.
    pub fn rand_u16(&mut self) -> u16
        ensures word { result ≡ half_word self.new }
        ensures state { self.new ≡ next_state self.old }
    {
        let word = self.rand_u32();
        ((word ^ (word >> 16)) & 0xffff) as u16
    }

    /// A port for a connection's own end: the first drawn word of 16 bits above 1024. Where 64 draws
    /// give none, the port is 49152.
    #[tactic(auto, using(crate::proofs::Draws::draw_none, crate::proofs::Draws::draw_hit, crate::proofs::Draws::draw_miss))]
    pub fn rand_source_port(&mut self) -> u16
        ensures port { result ≡ (draw_port 64 self.old).port }
        ensures state { self.new ≡ (draw_port 64 self.old).state }
    {
        let mut left = 64u32;
        while left > 0 {
            let port = self.rand_u16();
            if port > 1024 {
                return port;
            }
            left -= 1;
        }
        49152
    }
}
