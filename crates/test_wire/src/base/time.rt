//! Instants and lengths of time: units, sums, texts, and the standard library's durations.
use crate::cases::{Case, all, all_hold, prints};
use net_base::{Duration, Instant, Rand, laws};
use std::alloc::Global;
use std::time;

/// Seconds, microseconds and milliseconds within the second, and all of the last two. They are cut towards zero.
fn parts_of_instant(instant: &Instant) -> [i64; 5] {
    [
        instant.secs(),
        instant.micros(),
        instant.millis(),
        instant.total_millis(),
        instant.total_micros(),
    ]
}

/// The same of a duration.
fn parts_of_duration(length: &Duration) -> [u64; 5] {
    [
        length.secs(),
        length.micros(),
        length.millis(),
        length.total_millis(),
        length.total_micros(),
    ]
}

#[test]
fn times_have_units_and_parts(rt: HostRuntime) {
    let (before, length) = (
        Instant::from_micros(-1_234_567),
        Duration::from_micros(1_234_567),
    );
    let standard = time::Duration::from(Duration::from_millis(4934));
    all(
        &rt,
        &[
            parts_of_instant(&before) == [-1, -234_567, -234, -1234, -1_234_567],
            parts_of_duration(&length) == [1, 234_567, 234, 1234, 1_234_567],
            Instant::from_millis(74) == Instant::from_micros(74_000),
            Instant::from_millis_const(-74) == Instant::from_micros_const(-74_000),
            Instant::from_secs(1).total_millis() == 1000,
            Duration::from_millis(4934).total_micros() == 4_934_000,
            Duration::from_secs(5) == Duration::from_millis(5000),
            Duration::from(time::Duration::from_nanos(1_999)) == Duration::from_micros(1),
            Duration::from(time::Duration::MAX) == Duration::MAX,
            standard == time::Duration::from_millis(4934),
        ],
    );
}

/// A count of microseconds, and whether it is an instant.
struct IsMoment(i64, bool);

impl Case for IsMoment {
    fn holds(&self, _alloc: Global) -> bool {
        Instant::from_micros(self.0).is_moment() == self.1
    }
}

const MOMENTS: [IsMoment; 4] = [
    IsMoment(0, true),
    IsMoment(-1, false),
    IsMoment(2_305_843_009_213_693_952, true),
    IsMoment(2_305_843_009_213_693_953, false),
];

/// A count of microseconds as an instant, and its text.
struct PrintedInstant(i64, &'static str);

impl Case for PrintedInstant {
    fn holds(&self, alloc: Global) -> bool {
        prints(alloc, &Instant::from_micros(self.0), self.1)
    }
}

static INSTANTS: [PrintedInstant; 7] = [
    PrintedInstant(74_000, "0.074s"),
    PrintedInstant(5_674_000, "5.674s"),
    PrintedInstant(5_000_000, "5.000s"),
    PrintedInstant(999, "0.000s"),
    PrintedInstant(-1, "-0.000s"),
    PrintedInstant(-1_500_000, "-1.500s"),
    PrintedInstant(i64::MIN, "-9223372036854.775s"),
];

/// A count of microseconds as a duration, and its text.
struct PrintedDuration(u64, &'static str);

impl Case for PrintedDuration {
    fn holds(&self, alloc: Global) -> bool {
        prints(alloc, &Duration::from_micros(self.0), self.1)
    }
}

static DURATIONS: [PrintedDuration; 5] = [
    PrintedDuration(0, "0.000s"),
    PrintedDuration(42_000, "0.042s"),
    PrintedDuration(555_000, "0.555s"),
    PrintedDuration(5_000_000, "5.000s"),
    PrintedDuration(u64::MAX, "18446744073709.551s"),
];

/// An instant in microseconds, a duration, and the instant that is that much later.
struct Later(i64, u64, i64);

impl Case for Later {
    fn holds(&self, _alloc: Global) -> bool {
        let (from, by, to) = (
            Instant::from_micros(self.0),
            Duration::from_micros(self.1),
            Instant::from_micros(self.2),
        );
        is_later(from, by, to) && is_moved(from, by, to)
    }
}

fn is_later(from: Instant, by: Duration, to: Instant) -> bool {
    from.fits_add(by) && to.fits_sub(by) && from + by == to && to - by == from
}

/// The same of what is changed in its offset.
fn is_moved(from: Instant, by: Duration, to: Instant) -> bool {
    if !from.fits_add(by) || !to.fits_sub(by) {
        return false;
    }
    let (mut forth, mut back) = (from, to);
    forth += by;
    back -= by;
    (forth, back) == (to, from)
}

const LATER: [Later; 2] = [Later(4_000, 6_000, 10_000), Later(-3_000, 13_000, 10_000)];

/// Two durations in microseconds, and their sum.
struct Sum(u64, u64, u64);

impl Case for Sum {
    fn holds(&self, _alloc: Global) -> bool {
        let (one, other, sum) = (
            Duration::from_micros(self.0),
            Duration::from_micros(self.1),
            Duration::from_micros(self.2),
        );
        is_sum(one, other, sum) && is_added(one, other, sum)
    }
}

fn is_sum(one: Duration, other: Duration, sum: Duration) -> bool {
    one.fits_add(other) && sum.fits_sub(other) && one + other == sum && sum - other == one
}

/// The same of what is changed in its offset.
fn is_added(one: Duration, other: Duration, sum: Duration) -> bool {
    if !one.fits_add(other) || !sum.fits_sub(other) {
        return false;
    }
    let (mut more, mut less) = (one, sum);
    more += other;
    less -= other;
    (more, less) == (sum, one)
}

const SUMS: [Sum; 2] = [
    Sum(4_934_000, 1_000_000, 5_934_000),
    Sum(5_000_000, 934_000, 5_934_000),
];

/// A duration in microseconds, a number, and both their product and their quotient.
struct Scaled(u64, u32, u64, u64);

impl Case for Scaled {
    fn holds(&self, _alloc: Global) -> bool {
        let length = Duration::from_micros(self.0);
        let wanted = Some((Duration::from_micros(self.2), Duration::from_micros(self.3)));
        scaled_by(length, self.1) == wanted && scaled_in_offset(length, self.1) == wanted
    }
}

fn scaled_by(length: Duration, factor: u32) -> Option<(Duration, Duration)> {
    if factor == 0 || !length.fits_mul(factor) {
        return None;
    }
    Some((length * factor, length / factor))
}

fn scaled_in_offset(length: Duration, factor: u32) -> Option<(Duration, Duration)> {
    if factor == 0 || !length.fits_mul(factor) {
        return None;
    }
    let (mut product, mut quotient) = (length, length);
    product *= factor;
    quotient /= factor;
    Some((product, quotient))
}

const SCALED: [Scaled; 2] = [
    Scaled(5_000_000, 2, 10_000_000, 2_500_000),
    Scaled(10_000_000, 3, 30_000_000, 3_333_333),
];

/// A duration in microseconds, by how many bits it is shifted, and what it is to the left and to the right.
struct Shifted(u64, u32, u64, u64);

impl Case for Shifted {
    fn holds(&self, _alloc: Global) -> bool {
        let length = Duration::from_micros(self.0);
        let wanted = (Duration::from_micros(self.2), Duration::from_micros(self.3));
        let (mut left, mut right) = (length, length);
        left <<= self.1;
        right >>= self.1;
        (left, right) == wanted && (length << self.1, length >> self.1) == wanted
    }
}

const SHIFTED: [Shifted; 4] = [
    Shifted(3_333_333, 2, 13_333_332, 833_333),
    Shifted(13_333_332, 3, 106_666_656, 1_666_666),
    Shifted(u64::MAX, 4, 0xffff_ffff_ffff_fff0, 0x0fff_ffff_ffff_ffff),
    Shifted(u64::MAX, 64, 0, 0),
];

/// An instant, a duration, and whether they have a sum and a difference.
struct Fits(i64, u64, bool, bool);

impl Case for Fits {
    fn holds(&self, _alloc: Global) -> bool {
        let (instant, by) = (Instant::from_micros(self.0), Duration::from_micros(self.1));
        (instant.fits_add(by), instant.fits_sub(by)) == (self.2, self.3)
    }
}

const FITS: [Fits; 4] = [
    Fits(i64::MIN, u64::MAX, true, false),
    Fits(0, u64::MAX, false, false),
    Fits(i64::MAX, u64::MAX, false, true),
    Fits(i64::MIN, 1, true, false),
];

#[test]
fn times_have_bounds(rt: HostRuntime) {
    let (first, last) = (
        Instant::from_micros(i64::MIN),
        Instant::from_micros(i64::MAX),
    );
    let (one, long) = (Duration::from_micros(1), Duration::from_micros(1 << 33));
    all(
        &rt,
        &[
            (last - first, first - last) == (Duration::MAX, Duration::MAX),
            Instant::from_micros(-1) < Instant::ZERO,
            (Duration::MAX.fits_add(one), Duration::ZERO.fits_sub(one)) == (false, false),
            (long.fits_mul(1 << 30), long.fits_mul(1 << 31)) == (true, false),
        ],
    );
}

/// The first word of a seed, and its first half word, which is its first port.
struct Drawn(u64, u32, u16);

impl Case for Drawn {
    fn holds(&self, _alloc: Global) -> bool {
        let seed = self.0;
        let halves = (
            Rand::new(seed).rand_u16(),
            Rand::new(seed).rand_source_port(),
        );
        Rand::new(seed).rand_u32() == self.1 && halves == (self.2, self.2)
    }
}

const DRAWN: [Drawn; 2] = [Drawn(1, 0x2efc_ecb1, 0xc24d), Drawn(2, 0x977e_763b, 0xe145)];

/// The first port of seed 0, and the word after it. Its first half word, 3, is no port; the second is 1358.
fn first_draws() -> (u16, u32) {
    let mut rand = Rand::new(0);
    (rand.rand_source_port(), rand.rand_u32())
}

#[test]
fn times_and_words_go_by_tables(rt: HostRuntime) {
    all_hold(&rt, &MOMENTS);
    all_hold(&rt, &INSTANTS);
    all_hold(&rt, &DURATIONS);
    all_hold(&rt, &LATER);
    all_hold(&rt, &SUMS);
    all_hold(&rt, &SCALED);
    all_hold(&rt, &SHIFTED);
    all_hold(&rt, &FITS);
    all_hold(&rt, &DRAWN);
}

#[test]
fn laws_name_what_comparisons_say_and_seeds_proceed(rt: HostRuntime) {
    let (early, late) = (Instant::from_micros(-7), Instant::from_micros(3));
    let (short, long) = (Duration::from_micros(3), Duration::from_micros(7));
    let (start, none) = (Instant::default(), Duration::default());
    all(
        &rt,
        &[
            laws::orders_instants(early, late).is_lt(),
            !laws::equates_instants(early, late),
            laws::orders_durations(short, long).is_lt(),
            !laws::equates_durations(short, long),
            laws::constants() == (start, none, Duration::from_micros(u64::MAX)),
            first_draws() == (1358, 0x6130_bec3),
        ],
    );
}
