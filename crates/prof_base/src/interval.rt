// Sampling intervals.
ghost use Rattle.std.specs.Prelude.{◌≡◌, ◌≤◌, All};
ghost use Rattle.std.specs.Int.{IsGcd};
ghost use Rattle.prof_base.specs.Interval.{rounded_of, IsRounded, IsSourceInterval};

/// The greatest interval that a session asks for, and the greatest base, in microseconds.
pub const MAX_INTERVAL: u32 = 1_000_000_000;

/// The greatest rounded interval, in microseconds.
pub const MAX_ROUNDED: u32 = 2_000_000_000;

/// Computes the greatest common divisor: it divides both numbers, and each number that divides both
/// divides it. So `gcd(a, 0)` is `a`, and `gcd(0, 0)` is 0.
pub fn gcd(a: u64, b: u64) -> u64
    ensures { IsGcd a b result }
{
    let mut greater = a;
    let mut smaller = b;
    while smaller != 0 {
        (greater, smaller) = (smaller, greater % smaller);
    }
    greater
}

/// Computes the least multiple of `base` that is at least `interval` and at least `base`, all in
/// microseconds: a session records at multiples of the isolate's base interval.
pub fn rounded(base: u32, interval: u32) -> u32
    requires base_low { 1 ≤ base }
    requires base_high { base ≤ MAX_INTERVAL }
    requires interval_high { interval ≤ MAX_INTERVAL }
    ensures value { result ≡ rounded_of base interval }
    ensures least { IsRounded base interval result }
    ensures bound { result ≤ MAX_ROUNDED }
{
    let steps = interval.div_ceil(base).max(1);
    steps * base
}

/// Computes the interval at which an isolate takes samples for sessions with these intervals: the
/// greatest common divisor of the rounded ones, or 0 if there are none. All are in microseconds.
pub fn source_interval(base: u32, intervals: &[u32]) -> u32
    requires base_low { 1 ≤ base }
    requires base_high { base ≤ MAX_INTERVAL }
    requires intervals_high { All (λ interval. interval ≤ MAX_INTERVAL) intervals.now }
    ensures source { IsSourceInterval base intervals.now result }
    ensures bound { result ≤ MAX_ROUNDED }
{
    let mut source = 0u64;
    for interval in intervals {
        source = gcd(source, u64::from(rounded(base, *interval)));
    }
    source as u32
}
