//! Laws of the format.
ghost use Rattle.std.specs.Prelude.{◌≡◌, ◌≢◌, ◌↔◌, ◌*◌, ◌/◌, ◌%◌, true, ◌<◌, ◌≤◌, ◌^◌, ℕ, ◌+◌, Bool, IsTrue, Some, None, List, ◌++◌, length, slice_index, min};
ghost use Rattle.wire_address.specs.Address.{version_of};
ghost use Rattle.wire_address.specs.Fields.{be16, put8, put16, IsBytes};
ghost use Rattle.wire_address.specs.declared.ip.IpAddress.{IpAddress};
ghost use Rattle.wire_tcp.specs.Options.{OptionValue, value_of, Begins, IsOptionValue, option_bytes, normal_option, AreRead, sent_ranges};
ghost use Rattle.wire_tcp.specs.Tcp.{IsChecked, IsTcp, IsValue, Fits, acknowledges, flag, put_flag, fixed_fields, header_len, header_len_of, header_of, normal};
ghost use Rattle.wire_tcp.specs.Tcp.{options_of, payload_of, read_fields, written};

use crate::control::TcpControl;
use crate::field::{
    ACK_NUM, CHECKSUM, DST_PORT, FLAGS, FLG_ACK, FLG_CWR, FLG_ECE, FLG_FIN, FLG_NS, FLG_PSH,
    FLG_RST, FLG_SYN, FLG_URG, HEADER_LEN, OPT_END, OPT_MSS, OPT_NOP, OPT_SACKPERM, OPT_SACKRNG,
    OPT_TSTAMP, OPT_WS, SEQ_NUM, SRC_PORT, URGENT, WIN_SIZE,
};
use crate::header::TcpHeader;
use crate::option::{MAX_WINDOW_SCALE, TcpOption, TcpOptions};
use crate::repr::TcpRepr;
use crate::timestamp::{TcpTimestampGenerator, TcpTimestampRepr};

/// Law: a segment that was emitted is read back in its canonical form, where a checksum that is tested
/// was also written.
pub fn tcp_reads_back()
    ensures header { (source destination : IpAddress) (tested sealed : Bool) (v : TcpHeader)
        (payload : List ℕ)
        → IsValue v
        → Fits source destination v payload
        → (IsTrue tested → IsTrue sealed)
        → IsTcp source destination tested (written source destination sealed v payload) (normal v) }
    ensures payload { (source destination : IpAddress) (sealed : Bool) (v : TcpHeader)
        (payload : List ℕ)
        → IsValue v
        → Fits source destination v payload
        → payload_of (written source destination sealed v payload) ≡ payload }
{}

/// Law: how many bytes a segment has that is sent.
pub fn tcp_written_len()
    ensures { (source destination : IpAddress) (sealed : Bool) (v : TcpHeader) (payload : List ℕ)
        → length (written source destination sealed v payload) ≡ header_len v + length payload }
{}

/// Law: one option at most is spelled at the front of bytes, and what follows it is told by it.
pub fn option_spelled()
    ensures { (bytes rest following : List ℕ) (o p : OptionValue)
        → Begins bytes o rest
        → Begins bytes p following
        → (o ≡ p) × (rest ≡ following) }
{}

/// Law: an option that was emitted is read back, its ranges closed up, whatever follows it.
pub fn option_reads_back()
    ensures { (o : OptionValue) (rest : List ℕ)
        → IsOptionValue o
        → Begins (option_bytes o ++ rest) (normal_option o) rest }
{}

/// Law: what was read is written again in no more bytes: neither header nor segment grows longer.
pub fn tcp_no_longer()
    ensures header { (source destination : IpAddress) (tested : Bool) (bytes : List ℕ)
        (v : TcpHeader)
        → IsTcp source destination tested bytes v
        → header_len v ≤ header_len_of bytes }
    ensures segment { (source destination : IpAddress) (tested : Bool) (bytes : List ℕ)
        (v : TcpHeader)
        → IsTcp source destination tested bytes v
        → header_len v + length (payload_of bytes) ≤ length bytes }
{}

/// Law: what was read can be written again, and then it is read back in its canonical form.
pub fn tcp_written_again()
    ensures value { (source destination : IpAddress) (tested : Bool) (bytes : List ℕ)
        (v : TcpHeader)
        → IsBytes bytes
        → IsTcp source destination tested bytes v
        → IsValue v }
    ensures fits { (source destination : IpAddress) (tested : Bool) (bytes : List ℕ)
        (v : TcpHeader)
        → IsBytes bytes
        → length bytes < 2 ^ 16
        → version_of source ≡ version_of destination
        → IsTcp source destination tested bytes v
        → Fits source destination v (payload_of bytes) }
{}

/// Law: bytes are a segment with one header at most.
pub fn tcp_one_value()
    ensures { (source destination : IpAddress) (tested : Bool) (bytes : List ℕ) (v w : TcpHeader)
        → IsTcp source destination tested bytes v
        → IsTcp source destination tested bytes w
        → v ≡ w }
{}

/// Law: segments that are emitted as the same bytes have the same canonical form and payload.
pub fn tcp_told_apart()
    ensures { (source destination : IpAddress) (sealed sealed_too : Bool)
        (v w : TcpHeader) (payload other : List ℕ)
        → IsValue v
        → IsValue w
        → written source destination sealed v payload
        ≡ written source destination sealed_too w other
        → (normal v ≡ normal w) × (payload ≡ other) }
{}

/// Law: a canonical form is normal. What was read is normal but for ranges that wouldn't be sent:
/// those alongside SACK permitted or without an acknowledgement.
pub fn tcp_normal()
    ensures once { (v : TcpHeader) → normal (normal v) ≡ normal v }
    ensures options { (source destination : IpAddress) (tested : Bool) (bytes : List ℕ)
        (v : TcpHeader)
        → IsTcp source destination tested bytes v
        → AreRead v.options }
    ensures read { (source destination : IpAddress) (tested : Bool) (bytes : List ℕ)
        (v : TcpHeader)
        → IsTcp source destination tested bytes v
        → sent_ranges v.options.sack_permitted (acknowledges v.ack_number) v.options.sack_ranges
        ≡ v.options.sack_ranges
        → normal v ≡ v }
{}

/// Law: a segment is spelled by its header, with what a value doesn't keep, then its options, one
/// after another, and then its payload.
pub fn tcp_spelled()
    ensures { (source destination : IpAddress) (tested : Bool) (bytes : List ℕ)
        (v : TcpHeader)
        → IsBytes bytes
        → IsTcp source destination tested bytes v
        → bytes ≡ fixed_fields v (read_fields v bytes) ++ (options_of bytes ++ payload_of bytes) }
{}

/// Law: a segment whose checksum holds, and in which one aligned word was replaced by a number that
/// isn't congruent to it modulo 65535, isn't read where the checksum is tested. The word may stand
/// anywhere in the segment, also in its checksum, its header's length or its payload.
pub fn tcp_damaged()
    ensures { (source destination : IpAddress) (bytes : List ℕ) (i n : ℕ) (v : TcpHeader)
        → IsChecked source destination bytes
        → i % 2 ≡ 0
        → i + 2 ≤ length bytes
        → n < 2 ^ 16
        → be16 bytes i % 65535 ≢ n % 65535
        → ¬ (IsTcp source destination true (put16 bytes i n) v) }
{}

/// Law: the canonical form of a header keeps all that a connection goes by: ports, what the flags say,
/// both numbers, the window, the segment size, that SACK is permitted, and the timestamps. Of the
/// options it changes a scale above 14, and ranges alone.
pub fn tcp_normal_keeps()
    ensures source_port { (v : TcpHeader) → (normal v).src_port ≡ v.src_port }
    ensures destination_port { (v : TcpHeader) → (normal v).dst_port ≡ v.dst_port }
    ensures control { (v : TcpHeader) → (normal v).control ≡ v.control }
    ensures sequence { (v : TcpHeader) → (normal v).seq_number ≡ v.seq_number }
    ensures acknowledgement { (v : TcpHeader) → (normal v).ack_number ≡ v.ack_number }
    ensures window { (v : TcpHeader) → (normal v).window_len ≡ v.window_len }
    ensures size { (v : TcpHeader) → (normal v).options.max_seg_size ≡ v.options.max_seg_size }
    ensures permitted { (v : TcpHeader)
        → (normal v).options.sack_permitted ≡ v.options.sack_permitted }
    ensures timestamps { (v : TcpHeader) → (normal v).options.timestamp ≡ v.options.timestamp }
    ensures no_scale { (v : TcpHeader)
        → v.options.window_scale ≡ None
        → (normal v).options.window_scale ≡ None }
    ensures scale { (v : TcpHeader) (shift : ℕ)
        → v.options.window_scale ≡ Some shift
        → (normal v).options.window_scale ≡ Some (min shift 14) }
{}

/// Law: `==` says of flags, timestamps, what makes them, options and headers whether they are the same.
pub fn tcp_equal()
    ensures control { (a b : TcpControl)
        → IsTrue (⟦<TcpControl as PartialEq>⟧.eq a b) ↔ (a ≡ b) }
    ensures timestamps { (a b : TcpTimestampRepr)
        → IsTrue (⟦<TcpTimestampRepr as PartialEq>⟧.eq a b) ↔ (a ≡ b) }
    ensures generators { (a b : TcpTimestampGenerator)
        → IsTrue (⟦<TcpTimestampGenerator as PartialEq>⟧.eq a b) ↔ (a ≡ b) }
    ensures options { (a b : TcpOptions)
        → IsTrue (⟦<TcpOptions as PartialEq>⟧.eq a b) ↔ (a ≡ b) }
    ensures header { (a b : TcpHeader)
        → IsTrue (⟦<TcpHeader as PartialEq>⟧.eq a b) ↔ (a ≡ b) }
{}

/// Law: `==` says of options and segments, which borrow bytes, whether they have the same value.
pub fn tcp_borrowed_equal<'a>()
    ensures option { (a b : TcpOption)
        → IsTrue (⟦<TcpOption<'a> as PartialEq>⟧.eq a b) ↔ (value_of a ≡ value_of b) }
    ensures segment { (a b : TcpRepr)
        → IsTrue (⟦<TcpRepr<'a> as PartialEq>⟧.eq a b)
        ↔ ((header_of a ≡ header_of b) × (a.payload.now ≡ b.payload.now)) }
{}

/// Law: a flag that was set so is read so, and of a header length its multiple of four up to 60.
/// Ports, numbers, window, checksum and urgent pointer are read as they were written, by
/// `network_order::written_numbers_are_read`.
pub fn tcp_written_flags_are_read()
    ensures fin { (bytes : List ℕ) (set : Bool)
        → 20 ≤ length bytes
        → flag (put_flag bytes 13 1 set) 13 1 ≡ set }
    ensures syn { (bytes : List ℕ) (set : Bool)
        → 20 ≤ length bytes
        → flag (put_flag bytes 13 2 set) 13 2 ≡ set }
    ensures rst { (bytes : List ℕ) (set : Bool)
        → 20 ≤ length bytes
        → flag (put_flag bytes 13 4 set) 13 4 ≡ set }
    ensures psh { (bytes : List ℕ) (set : Bool)
        → 20 ≤ length bytes
        → flag (put_flag bytes 13 8 set) 13 8 ≡ set }
    ensures ack { (bytes : List ℕ) (set : Bool)
        → 20 ≤ length bytes
        → flag (put_flag bytes 13 16 set) 13 16 ≡ set }
    ensures urg { (bytes : List ℕ) (set : Bool)
        → 20 ≤ length bytes
        → flag (put_flag bytes 13 32 set) 13 32 ≡ set }
    ensures ece { (bytes : List ℕ) (set : Bool)
        → 20 ≤ length bytes
        → flag (put_flag bytes 13 64 set) 13 64 ≡ set }
    ensures cwr { (bytes : List ℕ) (set : Bool)
        → 20 ≤ length bytes
        → flag (put_flag bytes 13 128 set) 13 128 ≡ set }
    ensures ns { (bytes : List ℕ) (set : Bool)
        → 20 ≤ length bytes
        → flag (put_flag bytes 12 1 set) 12 1 ≡ set }
    ensures header_len { (bytes : List ℕ) (n : ℕ)
        → 20 ≤ length bytes
        → header_len_of (put8 bytes 12 (n / 4 % 16 * 16 + slice_index bytes 12 % 16)) ≡ n / 4 % 16 * 4 }
{}

/// Law: where the fields stand (RFC 9293, section 3.1).
pub fn tcp_fields()
    ensures src_port { SRC_PORT ≡ record { start = 0; end = 2 } }
    ensures dst_port { DST_PORT ≡ record { start = 2; end = 4 } }
    ensures seq_num { SEQ_NUM ≡ record { start = 4; end = 8 } }
    ensures ack_num { ACK_NUM ≡ record { start = 8; end = 12 } }
    ensures flags { FLAGS ≡ record { start = 12; end = 14 } }
    ensures win_size { WIN_SIZE ≡ record { start = 14; end = 16 } }
    ensures checksum { CHECKSUM ≡ record { start = 16; end = 18 } }
    ensures urgent { URGENT ≡ record { start = 18; end = 20 } }
    ensures header_len { HEADER_LEN ≡ 20 }
{}

/// Law: the bits of the flags (RFC 9293, section 3.1; RFC 3168, section 6.1; RFC 3540, section 9).
pub fn tcp_flags()
    ensures fin { FLG_FIN ≡ 0x001 }
    ensures syn { FLG_SYN ≡ 0x002 }
    ensures rst { FLG_RST ≡ 0x004 }
    ensures psh { FLG_PSH ≡ 0x008 }
    ensures ack { FLG_ACK ≡ 0x010 }
    ensures urg { FLG_URG ≡ 0x020 }
    ensures ece { FLG_ECE ≡ 0x040 }
    ensures cwr { FLG_CWR ≡ 0x080 }
    ensures ns { FLG_NS ≡ 0x100 }
{}

/// Law: the kinds of options, and the largest shift of windows (RFC 9293, section 3.2; RFC 7323; RFC 2018).
pub fn tcp_option_kinds()
    ensures end { OPT_END ≡ 0 }
    ensures nop { OPT_NOP ≡ 1 }
    ensures mss { OPT_MSS ≡ 2 }
    ensures ws { OPT_WS ≡ 3 }
    ensures sackperm { OPT_SACKPERM ≡ 4 }
    ensures sackrng { OPT_SACKRNG ≡ 5 }
    ensures tstamp { OPT_TSTAMP ≡ 8 }
    ensures most_scale { MAX_WINDOW_SCALE ≡ 14 }
{}
