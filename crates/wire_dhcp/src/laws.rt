//! Laws of the format.
ghost use Rattle.std.specs.Prelude.{◌≡◌, ℕ, List, ◌++◌, length};
ghost use Rattle.wire_dhcp.specs.Dhcp.{IsDhcp};
ghost use Rattle.wire_dhcp.specs.Normal.{IsValue, normal};
ghost use Rattle.wire_dhcp.specs.Written.{buffer_len, written};
ghost use Rattle.wire_dhcp.specs.declared.repr.DhcpRepr.{DhcpRepr};

/// Law: a message that was sent is read back as its canonical form, whatever follows it.
pub fn dhcp_reads_back()
    ensures { (v : DhcpRepr) (more : List ℕ) → IsValue v → IsDhcp (written v ++ more) (normal v) }
{}

/// Law: how long a message is that is sent.
pub fn dhcp_written_len()
    ensures { (v : DhcpRepr) → IsValue v → length (written v) ≡ buffer_len v }
{}
