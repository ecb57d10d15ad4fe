//! The text of a segment as it lies in a ring: in two parts where it goes round the storage's end.
ghost use Rattle.std.specs.Prelude.{◌≡◌, ◌≤◌, ◌<◌, ◌^◌, ◌+◌, ◌++◌, length, bytes_eq};
ghost use Rattle.std.specs.Cmp.{partial_equiv_from_equiv, on_per, on_equiv};
ghost use Rattle.std.specs.Cmp.Lexicographic.{nat_list_eq_equiv};

/// The text of a segment: the bytes of the first part, and after them those of the rest.
#[derive(Clone, Copy, Debug)]
pub struct SegmentPayload<'a> {
    pub first: &'a [u8],
    pub rest: &'a [u8],
    /// Both parts are of one storage.
    ghost small: { length first.now + length rest.now < 2 ^ 63 },
}

impl<'a> SegmentPayload<'a> {
    ghost use Rattle.socket_context.specs.SegmentPayload.{payload_bytes};

    /// A text that lies in one piece.
    pub const fn whole(bytes: &'a [u8]) -> SegmentPayload<'a>
        ensures { payload_bytes result ≡ bytes.now }
    {
        SegmentPayload {
            first: bytes,
            rest: &[],
        }
    }

    /// How many bytes it has.
    pub const fn len(&self) -> usize
        ensures exact { result ≡ length (payload_bytes self.now) }
        ensures small { result < 2 ^ 63 }
    {
        self.first.len() + self.rest.len()
    }

    /// Whether another text, whose first part is no shorter, has the same bytes.
    fn is_as(&self, other: &SegmentPayload<'_>) -> bool
        requires { length self.now.first.now ≤ length other.now.first.now }
        ensures { result ≡ bytes_eq (payload_bytes self.now) (payload_bytes other.now) }
    {
        let (front, between) = other.first.split_at(self.first.len());
        self.first == front && is_joined(self.rest, between, other.rest)
    }
}

// Texts of the same bytes are equal, wherever they are cut.
impl<'a> PartialEq for SegmentPayload<'a> {
    ghost use Rattle.socket_context.specs.SegmentPayload.{payload_bytes};

    ghost eq = { λ a b. bytes_eq (payload_bytes a) (payload_bytes b) };

    ghost laws = { on_per payload_bytes (partial_equiv_from_equiv nat_list_eq_equiv) };

    fn eq(&self, other: &SegmentPayload<'a>) -> bool {
        if self.first.len() <= other.first.len() {
            self.is_as(other)
        } else {
            other.is_as(self)
        }
    }
}

impl<'a> Eq for SegmentPayload<'a> {
    ghost use Rattle.socket_context.specs.SegmentPayload.{payload_bytes};

    ghost laws = { on_equiv payload_bytes nat_list_eq_equiv };
}

/// Whether the bytes are those of one part and after them those of another.
fn is_joined(bytes: &[u8], one: &[u8], other: &[u8]) -> bool
    ensures { result ≡ bytes_eq bytes.now (one.now ++ other.now) }
{
    if bytes.len() < one.len() {
        return false;
    }
    let (front, following) = bytes.split_at(one.len());
    front == one && following == other
}
