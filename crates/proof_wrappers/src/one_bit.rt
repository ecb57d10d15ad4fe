//! What becomes of a packet with one bit other, as a device that changes frames sends it.
ghost use Rattle.std.specs.Prelude.{◌≡◌, ◌+◌, ◌%◌, ◌<◌, ◌≤◌, ◌⊎◌, ℕ, true, List, length};
ghost use Rattle.base_wrappers.specs.Corrupt.{flipped};
ghost use Rattle.wire_address.specs.Fields.{be16};
ghost use Rattle.wire_address.specs.Sum.{word_sum, ChecksumHolds};
ghost use Rattle.wire_address.specs.declared.ip.IpAddress.{IpAddress};
ghost use Rattle.wire_ip.specs.Ipv4.{header_len_of, header_of, payload_of, IsIpv4, IsWhole};
ghost use Rattle.wire_ip.specs.Udp.{datagram_of, HasNoChecksum, IsUdp};
ghost use Rattle.wire_ip.specs.declared.ipv4.repr.Ipv4Repr.{Ipv4Repr};
ghost use Rattle.wire_ip.specs.declared.udp.repr.UdpRepr.{UdpRepr};
ghost use Rattle.wire_tcp.specs.Tcp.{IsTcp};
ghost use Rattle.wire_tcp.specs.declared.header.TcpHeader.{TcpHeader};

/// Law: a checksum that holds fails once one bit is other of the bytes that it covers. `covered` is the sum of what else it covers.
pub fn a_sum_tells_one_bit()
    ensures { (covered at bit : ℕ) (bytes : List ℕ)
        → 0 < length bytes
        → ChecksumHolds (covered + word_sum bytes)
        → ¬ (ChecksumHolds (covered + word_sum (flipped at bit bytes))) }
{}

/// Law: a segment, a datagram or an IPv4 header with one bit other isn't read, or is read as it was. Of a datagram that is so where it had a
/// checksum and has one still (over IPv4 a field of 0 stands for none), of it and of a header where the bit isn't one of its own length: a
/// shorter datagram may have the same sum.
pub fn one_bit_is_told()
    ensures segments { (source destination : IpAddress) (bytes : List ℕ) (at bit : ℕ) (v w : TcpHeader)
        → IsTcp source destination true bytes v
        → ¬ (IsTcp source destination true (flipped at bit bytes) w) }
    ensures datagrams { (source destination : IpAddress) (bytes : List ℕ) (at bit : ℕ) (v w : UdpRepr)
        → IsUdp source destination true bytes v
        → ¬ (HasNoChecksum source bytes)
        → be16 (flipped at bit bytes) 4 ≡ be16 bytes 4
        → IsUdp source destination true (flipped at bit bytes) w
        → (datagram_of (flipped at bit bytes) ≡ datagram_of bytes) ⊎ HasNoChecksum source (flipped at bit bytes) }
    ensures headers { (bytes : List ℕ) (at bit : ℕ) (v w : Ipv4Repr)
        → IsIpv4 true bytes v
        → header_len_of (flipped at bit bytes) ≡ header_len_of bytes
        → IsIpv4 true (flipped at bit bytes) w
        → header_of (flipped at bit bytes) ≡ header_of bytes }
{}

/// Law: a bit that is other behind the header of an IPv4 packet leaves the header as it was, and the payload, or it is one of the payload.
pub fn one_bit_is_behind_a_header()
    ensures { (bytes : List ℕ) (at bit : ℕ)
        → IsWhole bytes
        → header_len_of bytes ≤ at % length bytes
        → at % length bytes < length bytes
        → (header_of (flipped at bit bytes) ≡ header_of bytes)
        × ((payload_of (flipped at bit bytes) ≡ payload_of bytes) ⊎ ((n : ℕ) × (payload_of (flipped at bit bytes) ≡ flipped n bit (payload_of bytes)))) }
{}
