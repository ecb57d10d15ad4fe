//! Laws of the round trips that echoes of timestamps tell of.

ghost use Rattle.std.specs.Prelude.{◌≡◌, ◌-◌, ◌<◌, ◌≤◌, ◌^◌, ℕ, ℤ, pos, ◌≤ℤ◌, Some};
ghost use Rattle.ip_wire.specs.TcpTimestampGenerator.{TcpTimestampGenerator};
ghost use Rattle.ip_wire.specs.Timestamp.{value_at};
ghost use Rattle.tcp_block.specs.Timestamps.{gap, elapsed, millis_of};

/// The echo of a timestamp that was sent at an instant of the connection, which began less than 2^32 milliseconds ago, says how many
/// milliseconds ago that was. And whatever comes as an echo: what it is taken for lies no further back than the first SYN.
#[tactic(auto, using(crate::proofs::TsecrSteps::tsecr_is, crate::proofs::TsecrSteps::tsecr_within))]
pub fn an_tsecr_tells_when_it_was_sent()
    ensures sent { (clock : TcpTimestampGenerator) (first sent now : ℤ) → pos 0 ≤ℤ first → first ≤ℤ sent → sent ≤ℤ now
        → millis_of now - millis_of first < 2 ^ 32
        → elapsed (value_at clock first) (value_at clock now) (value_at clock sent) ≡ Some (millis_of now - millis_of sent) }
    ensures within { (first present tsecr millis : ℕ) → first < 2 ^ 32 → present < 2 ^ 32 → tsecr < 2 ^ 32
        → elapsed first present tsecr ≡ Some millis → millis ≤ gap first present }
{}
