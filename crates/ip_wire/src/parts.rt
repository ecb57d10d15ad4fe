//! Runs of bytes written at an offset.
ghost use Rattle.std.specs.Prelude.{◌≡◌, ◌+◌, ◌≤◌, length};
ghost use Rattle.wire_ip.specs.Parts.{put_run};

/// Writes six bytes at `at`.
pub fn put6(bytes: &mut [u8], at: usize, from: &[u8; 6])
    requires { at + 6 ≤ length bytes.old }
    ensures { bytes.new ≡ put_run bytes.old at 6 from.now }
{
    bytes[at..at + 6].copy_from_slice(from);
}

/// Writes bytes at `at`.
pub fn put_slice(bytes: &mut [u8], at: usize, from: &[u8])
    requires { at + length from.now ≤ length bytes.old }
    ensures { bytes.new ≡ put_run bytes.old at (length from.now) from.now }
{
    bytes[at..at + from.len()].copy_from_slice(from);
}
