// The profiled reading: one number for many days, laid over the quarter hours of one of them along
// a load profile, so that the days of the span add up to the number.
#![tactic(auto)]

ghost use Rattle.std.specs.Prelude.{◌≡◌, ℕ, ◌+◌, ◌-◌, ◌*◌, ◌/◌, ◌<◌, ◌≤◌, true, List, map, length, pos, ◌≤ℤ◌, is_ok, if◌then◌else◌, Some, None, sum, unsigned_abs};
ghost use Rattle.std.specs.List.{AllByRecursion};
ghost use Rattle.profile.specs.Answer.{up_to, in_range, spread_answer};
ghost use Rattle.profile.specs.Quarters.{day_of};
ghost use Rattle.profile.specs.Spans.{sum_all, days_of};

use refusal::Refusal;
use roll::DayLength;

// The limits of what comes in, and of what comes out.
const ENERGY_LIMIT: u32 = 1_000_000_000;

const PROFILE_LIMIT: u32 = 4_000_000_000;

const WEIGHT_LIMIT: u32 = 100_000;

const QUARTER_HOUR_LIMIT: i64 = 1_000_000;

/// What was read off a meter for a whole span of days, and where in the span this day begins.
#[derive(Clone, Copy, PartialEq, Eq, Debug)]
pub struct ProfiledReading {
    /// K, in Wh.
    pub energy: u32,
    /// P: the profile weights of all the span's quarter hours.
    pub profile_total: u32,
    /// B: the part of P that belongs to the days before this one.
    pub profile_before: u32,
}

/// Whether K, P and B are within their limits.
fn in_range(reading: &ProfiledReading) -> bool
    ensures { result ≡ in_range reading.now.energy reading.now.profile_total reading.now.profile_before }
{
    reading.energy <= ENERGY_LIMIT
        && reading.profile_total >= 1
        && reading.profile_total <= PROFILE_LIMIT
        && reading.profile_before <= PROFILE_LIMIT
}

/// The sum of a day's profile weights, if none is above its limit.
fn day_weight(weights: &[u32]) -> Option<u32>
    requires { length weights.now ≤ 100 }
    ensures { result ≡ (if up_to 100000 weights.now then Some (sum weights.now) else None) }
{
    let mut total: u32 = 0;
    for w in weights {
        if *w > WEIGHT_LIMIT {
            return None;
        }
        total += *w;
    }
    Some(total)
}

/// The parts of the reading that fall to the day's quarter hours.
fn divide_over_day(reading: &ProfiledReading, weights: &[u32], parts: &mut [i64])
    requires energy { reading.now.energy ≤ 1000000000 }
    requires some { 0 < reading.now.profile_total }
    requires lengths { length parts.old ≡ length weights.now }
    ensures { parts.new ≡ map pos (day_of reading.now.energy reading.now.profile_total reading.now.profile_before weights.now) }
{
    let divided = split::split(
        reading.energy as i32,
        reading.profile_before,
        reading.profile_total,
        weights,
        parts,
    );
    match divided {
        Ok(()) => {}
        // The lists are equally long, and there is a weight to carry the reading.
        Err(_) => unreachable(),
    }
}

/// Whether every part may stand as a reading.
fn postable(parts: &[i64]) -> bool
    requires { AllByRecursion (λ p. pos 0 ≤ℤ p) parts.now }
    ensures { result ≡ up_to 1000000 (map unsigned_abs parts.now) }
{
    for part in parts {
        if *part > QUARTER_HOUR_LIMIT {
            return false;
        }
    }
    true
}

/// The parts as readings, each in its own place.
fn copy_parts(parts: &[i64], readings: &mut [u32])
    requires lengths { length readings.old ≡ length parts.now }
    requires low { AllByRecursion (λ p. pos 0 ≤ℤ p) parts.now }
    requires high { up_to 1000000 (map unsigned_abs parts.now) ≡ true }
    ensures { readings.new ≡ map unsigned_abs parts.now }
{
    for (i, part) in parts.iter().enumerate() {
        // by index, since what a walk by `iter_mut` beside another writes is not known to a proof
        readings[i] = *part as u32;
    }
}

/// Lays a profiled reading over the quarter hours of one day: quarter hour i gets
/// floor(K · (B + the weights up to and with i) / P) less the same without i. `readings` is filled
/// whole, or left as it was. Refused, in this order: a list that is not as long as the day; a
/// number out of its range; weights that run past the profile total; a quarter hour too large for
/// a reading.
pub fn spread(
    reading: &ProfiledReading,
    day: DayLength,
    weights: &[u32],
    readings: &mut [u32],
) -> Result<(), Refusal>
    ensures answer { result ≡ spread_answer reading.now.energy reading.now.profile_total reading.now.profile_before day weights.now (length readings.old) }
    ensures after { readings.new ≡ (if is_ok result then day_of reading.now.energy reading.now.profile_total reading.now.profile_before weights.now else readings.old) }
    ensures day_total { is_ok result ≡ true → sum readings.new ≡ reading.now.energy * (reading.now.profile_before + sum weights.now) / reading.now.profile_total - reading.now.energy * reading.now.profile_before / reading.now.profile_total }
    ensures span { is_ok result ≡ true → (earlier later : List (List ℕ)) → sum_all earlier ≡ reading.now.profile_before → reading.now.profile_before + sum weights.now + sum_all later ≡ reading.now.profile_total → days_of reading.now.energy reading.now.profile_total 0 earlier + sum readings.new + days_of reading.now.energy reading.now.profile_total (reading.now.profile_before + sum weights.now) later ≡ reading.now.energy }
    ensures postable { is_ok result ≡ true → AllByRecursion (λ q. q ≤ 1000000) readings.new }
{
    let quarter_hours = usize::from(day.quarter_hours());
    if weights.len() != quarter_hours || readings.len() != quarter_hours {
        return Err(Refusal::ListLength);
    }
    if !in_range(reading) {
        return Err(Refusal::ProfileLimit);
    }
    let Some(weight) = day_weight(weights) else {
        return Err(Refusal::ProfileLimit);
    };
    if reading.profile_before + weight > reading.profile_total {
        return Err(Refusal::ProfileTotal);
    }
    let mut places = [0i64; 100];
    let parts = &mut places[0..quarter_hours];
    divide_over_day(reading, weights, parts);
    if !postable(parts) {
        return Err(Refusal::ProfiledQuarterHour);
    }
    copy_parts(parts, readings);
    Ok(())
}
