// The split: one rule for everything that has a weight. A whole amount is divided over weighted
// elements so that the whole parts add up to it, and each is less than one from its exact part.
#![tactic(auto)]

ghost use Rattle.std.specs.Prelude.{◌≡◌, ◌^◌, ◌<◌, true, map, length, ℤ, pos, ◌+ℤ◌, ◌*ℤ◌, neg_ℤ, ◌≤ℤ◌, ◌<ℤ◌, is_ok, if◌then◌else◌};
ghost use Rattle.split.specs.Answer.{split_answer};
ghost use Rattle.split.specs.Floor.{floor, rest};
ghost use Rattle.split.specs.Laws.{Fair};
ghost use Rattle.split.specs.Parts.{parts_of};

use refusal::Refusal;

/// An element with a weight of either sign. The range is what every 32-bit number, signed or
/// not, fits: within it no product of the split can overflow.
pub trait Weighted {
    ghost weight: { Self → ℤ };

    fn weight(&self) -> i64
        ensures value { result ≡ weight self.now }
        ensures low_bound { neg_ℤ (pos (2 ^ 31)) ≤ℤ result }
        ensures high_bound { result <ℤ pos (2 ^ 32) };
}

/// A plain number is its own weight: a profile weight.
impl Weighted for u32 {
    ghost weight = { λ n. pos n };

    fn weight(&self) -> i64 {
        i64::from(*self)
    }
}

/// A signed number is its own weight: a sum that may be negative.
impl Weighted for i32 {
    ghost weight = { λ n. n };

    fn weight(&self) -> i64 {
        *self as i64
    }
}

/// The floor of `a / by`, and what `a` is above `by` times it.
fn divide(a: i64, by: u32) -> (i64, u32)
    requires { 0 < by }
    ensures quotient { result.0 ≡ floor a by }
    ensures remainder { result.1 ≡ rest a by }
    ensures exact { a ≡ result.0 *ℤ pos by +ℤ pos result.1 }
    ensures below { result.1 < by }
{
    let whole = i64::from(by);
    (a.div_euclid(whole), a.rem_euclid(whole) as u32)
}

/// What falls due at one element: its exact part times the whole, and the remainder so far.
fn owed(amount: i32, weight: i64, carried: u32) -> i64
    requires low_bound { neg_ℤ (pos (2 ^ 31)) ≤ℤ weight }
    requires high_bound { weight <ℤ pos (2 ^ 32) }
    ensures { result ≡ amount *ℤ weight +ℤ pos carried }
{
    i64::from(amount) * weight + i64::from(carried)
}

fn fill_parts<T: Weighted>(amount: i32, before: u32, whole: u32, items: &[T], parts: &mut [i64])
    requires some { 0 < whole }
    requires lengths { length parts.old ≡ length items.now }
    ensures { parts.new ≡ parts_of amount whole before (map T.Weighted.weight items.now) }
{
    let (_, mut carried) = divide(owed(amount, i64::from(before), 0), whole);
    for (i, item) in items.iter().enumerate() {
        let (part, left) = divide(owed(amount, item.weight(), carried), whole);
        // by index, since what a walk by `iter_mut` beside another writes is not known to a proof
        parts[i] = part;
        carried = left;
    }
}

/// Whether a list of so many elements can be split into a list of so many places.
fn checked(amount: i32, whole: u32, elements: usize, places: usize) -> Result<(), Refusal>
    ensures { result ≡ split_answer amount whole elements places }
{
    if places != elements {
        return Err(Refusal::ListLength);
    }
    if whole == 0 && amount != 0 {
        return Err(Refusal::NoWeight);
    }
    Ok(())
}

/// Splits `amount` over the elements: part k is floor(amount · Ck / whole) less the same at k - 1,
/// with Ck the weights before the list (`before`) and its first k. `whole` is the sum of all
/// weights; where it and the amount are 0, every part is 0. Refused: a list for the parts that is
/// not as long as the elements, and an amount with no weight to carry it.
pub fn split<T: Weighted>(
    amount: i32,
    before: u32,
    whole: u32,
    items: &[T],
    parts: &mut [i64],
) -> Result<(), Refusal>
    ensures answer { result ≡ split_answer amount whole (length items.now) (length parts.old) }
    ensures after { parts.new ≡ (if is_ok result then parts_of amount whole before (map T.Weighted.weight items.now) else parts.old) }
    ensures fair { is_ok result ≡ true → Fair amount whole before (map T.Weighted.weight items.now) parts.new }
{
    checked(amount, whole, items.len(), parts.len())?;
    if whole == 0 {
        parts.fill(0);
    } else {
        fill_parts(amount, before, whole, items, parts);
    }
    Ok(())
}
