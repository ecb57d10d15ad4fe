//! Runs of bytes written at an offset.
ghost use Rattle.std.specs.Prelude.{◌≡◌, ◌+◌, ◌≤◌, ◌++◌, length, drop};
ghost use Rattle.wire_ip.specs.Parts.{put_run};

/// Writes four bytes at `at`.
pub fn put4(bytes: &mut [u8], at: usize, from: &[u8; 4])
    requires { at + 4 ≤ length bytes.old }
    ensures { bytes.new ≡ put_run bytes.old at 4 from.now }
{
    bytes[at..at + 4].copy_from_slice(from);
}

/// Writes a header of 20 bytes at the front. It is assigned, since a copy of bytes tests whether the
/// offsets overlap.
pub fn put_header(bytes: &mut [u8], header: [u8; 20])
    requires { 20 ≤ length bytes.old }
    ensures front { bytes.new ≡ header ++ drop 20 bytes.old }
    ensures exact { length bytes.old ≡ 20 → bytes.new ≡ header }
{
    let Some(front) = bytes.first_chunk_mut() else {
        unreachable!()
    };
    *front = header;
}

/// Writes 16 bytes at `at`.
pub fn put16_bytes(bytes: &mut [u8], at: usize, from: &[u8; 16])
    requires { at + 16 ≤ length bytes.old }
    ensures { bytes.new ≡ put_run bytes.old at 16 from.now }
{
    bytes[at..at + 16].copy_from_slice(from);
}

/// Writes a header of 40 bytes, which ends with two addresses, at the front.
pub fn put_front(bytes: &mut [u8], first: &[u8; 8], source: &[u8; 16], destination: &[u8; 16])
    requires { 40 ≤ length bytes.old }
    ensures front { bytes.new
        ≡ (first.now ++ (source.now ++ destination.now)) ++ drop 40 bytes.old }
    ensures exact { length bytes.old ≡ 40
        → bytes.new ≡ first.now ++ (source.now ++ destination.now) }
{
    let (front, rest) = bytes.split_at_mut(8);
    front.copy_from_slice(first);
    put_addresses(rest, source, destination);
}

/// Writes two addresses of 16 bytes at the front.
fn put_addresses(bytes: &mut [u8], source: &[u8; 16], destination: &[u8; 16])
    requires { 32 ≤ length bytes.old }
    ensures { bytes.new ≡ source.now ++ (destination.now ++ drop 16 (drop 16 bytes.old)) }
{
    let (front, rest) = bytes.split_at_mut(16);
    front.copy_from_slice(source);
    let (back, _rest) = rest.split_at_mut(16);
    back.copy_from_slice(destination);
}
