//! How long an answer to a query may take, and when it goes.
ghost use Rattle.std.specs.Prelude.{◌≡◌, ◌+◌, ◌<◌, ◌≤◌, ◌^◌};
ghost use Rattle.iface_groups.specs.Query.{igmp_max_micros, mld_max_micros, max_resp_time, max_resp_delay, answer_at, IsWithin};

use crate::mode::CompatibilityMode;

/// The longest delay that a host takes from a query, in microseconds.
const LONGEST: u64 = 60_000_000;

/// How many microseconds the answer to a query of IGMP of this version and code may take, at most a
/// minute. A query of version 1 says nothing of that (RFC 2236, section 4).
pub fn igmp_max_micros(version: CompatibilityMode, code: u8) -> u64
    ensures exact { result ≡ igmp_max_micros version code }
    ensures small { result ≤ 60_000_000 }
{
    let tenths = match version {
        CompatibilityMode::Igmpv1 => 100,
        CompatibilityMode::Igmpv2 => code as u64,
        CompatibilityMode::Igmpv3 => max_resp_time(code),
    };
    (100_000 * tenths).min(LONGEST)
}

/// The same of a query of MLD, version 1 where the mode is `Igmpv2`.
pub fn mld_max_micros(version: CompatibilityMode, code: u16) -> u64
    ensures exact { result ≡ mld_max_micros version code }
    ensures small { result ≤ 60_000_000 }
{
    let millis = match version {
        CompatibilityMode::Igmpv3 => max_resp_delay(code),
        _ => code as u64,
    };
    (1000 * millis).min(LONGEST)
}

/// The tenths of a second that a code of IGMPv3 stands for.
fn max_resp_time(code: u8) -> u64
    ensures exact { result ≡ max_resp_time code }
    ensures small { result ≤ 31_744 }
{
    if code < 128 {
        return code as u64;
    }
    (16 + code as u64 % 16) * scale(code as u64 / 16 % 8)
}

/// The milliseconds that a code of MLDv2 stands for.
fn max_resp_delay(code: u16) -> u64
    ensures exact { result ≡ max_resp_delay code }
    ensures small { result ≤ 8_387_584 }
{
    if code < 32_768 {
        return code as u64;
    }
    (4096 + code as u64 % 4096) * scale(code as u64 / 4096 % 8)
}

/// What the mantissa of a code is multiplied by.
fn scale(exponent: u64) -> u64
    requires { exponent < 8 }
    ensures exact { result ≡ 2 ^ (exponent + 3) }
    ensures small { result ≤ 1024 }
{
    match exponent {
        0 => 8,
        1 => 16,
        2 => 32,
        3 => 64,
        4 => 128,
        5 => 256,
        6 => 512,
        _ => 1024,
    }
}

/// When the answer to a query that came now goes, by a random word: after now and no later than the
/// delay allows; now where it allows none (RFC 3376, section 5.2).
pub fn answer_at(now: u64, max_micros: u64, word: u32) -> u64
    requires now { now ≤ 2 ^ 61 }
    requires max { max_micros ≤ 60_000_000 }
    ensures exact { result ≡ answer_at now max_micros word }
    ensures within { IsWithin now max_micros result }
{
    if max_micros == 0 {
        return now;
    }
    now + 1 + word as u64 % max_micros
}
