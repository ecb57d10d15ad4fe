//! CIDR blocks.
ghost use Rattle.std.specs.Prelude.{◌≡◌, ◌≤◌, ◌<◌, List, [], ◌∷◌, ◌++◌, length, true, false};

use arrayvec::ArrayVec;
use ip_wire::IpCidr;
use std::marker::Model;

/// At most four CIDR blocks. A contract sees their list.
#[derive(Drop)]
pub struct Blocks {
    blocks: ArrayVec<IpCidr, 4>,
}

impl Model for Blocks {
    ghost use Rattle.std.specs.Prelude.{List};
    ghost use Rattle.ip_wire.specs.IpCidr.{IpCidr};

    ghost Value = { List IpCidr };

    ghost view = { λ b. b.blocks.items };
}

impl Blocks {
    /// None.
    pub fn new() -> Blocks
        ensures { result ≡ [] }
    {
        Blocks {
            blocks: ArrayVec::new(),
        }
    }

    /// A vector of its own that holds them.
    pub fn to_inner(&self) -> ArrayVec<IpCidr, 4>
        ensures { result.items ≡ self.now }
    {
        let mut copy = ArrayVec::new();
        let _ = copy.try_extend_from_slice(self.blocks.as_slice());
        copy
    }

    /// The blocks in order.
    pub fn as_slice(&self) -> &[IpCidr]
        ensures { result.now ≡ self.now }
    {
        self.blocks.as_slice()
    }

    /// Whether there was room for one block more, after the others.
    pub fn push(&mut self, cidr: IpCidr) -> bool
        ensures room { result ≡ true → (self.new ≡ self.old ++ cidr ∷ []) × (length self.new ≤ 4) }
        ensures full { result ≡ false → (self.new ≡ self.old) × (length self.old ≡ 4) }
    {
        self.blocks.try_push(cidr).is_ok()
    }
}
