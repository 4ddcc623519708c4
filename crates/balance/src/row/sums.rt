// Rows with their loads, added up: all of them, their weights, and by QSE and settlement point.
ghost use Rattle.std.specs.Prelude.{◌≡◌, ℕ, ◌<◌, ◌≤◌, pos, ◌+ℤ◌, if◌then◌else◌, sum_by, slice_index_or, unsigned_abs};
ghost use Rattle.book.specs.Tables.{cell};
ghost use Rattle.balance.specs.Balance.{belongs};
ghost use Rattle.balance.specs.Sheets.{CellsWithin, EachWithin, row_load, weight_of_row, PairOf, Shaped, pair_sum};

use crate::row::LoadedRow;

pub(crate) fn sum_loads(rows: &[LoadedRow; 64]) -> u32
    ensures value { result ≡ sum_by row_load rows.now }
    ensures bound { result ≤ 256000000 }
{
    rows.iter().map(|row| row.load).sum()
}

pub(crate) fn sum_weights(rows: &[LoadedRow; 64]) -> u32
    ensures { result ≡ sum_by weight_of_row rows.now }
{
    rows.iter().map(|row| row.weighted_load()).sum()
}

impl LoadedRow {
    /// The QSE and the settlement point of the row, if there is one.
    fn pair(&self) -> Option<(usize, usize)>
        ensures { PairOf self.now.row result }
    {
        self.row
            .map(|row| (usize::from(row.qse), usize::from(row.point)))
    }
}

/// The loads with their parts of the unaccounted-for energy.
pub(crate) fn add_parts(rows: &[LoadedRow; 64], parts: &[i64; 64]) -> [i64; 64]
    requires { EachWithin 416000000 parts.now }
    ensures { (s : ℕ) (d : LoadedRow) → s < 64 → slice_index_or result s (pos 0) ≡ pos (row_load (slice_index_or rows.now s d)) +ℤ slice_index_or parts.now s (pos 0) }
{
    let mut adjusted = [0i64; 64];
    for (s, row) in rows.iter().enumerate() {
        // by index, since what a walk by `iter_mut` beside another writes is not known to a proof
        adjusted[s] = i64::from(row.load) + parts[s];
    }
    adjusted
}

/// Adds a row's amount to its pair.
// That the inner arrays have eight places is required: proofs are told an array's own length alone.
fn add_to_pair(pairs: &mut [[i64; 8]; 16], row: &LoadedRow, amount: i64)
    requires shape { Shaped pairs.old }
    requires small { CellsWithin 26880000000 pairs.old }
    requires amount { unsigned_abs amount ≤ 420000000 }
    ensures shape { Shaped pairs.new }
    ensures value { (qse point : ℕ) → cell (pos 0) pairs.new qse point ≡ cell (pos 0) pairs.old qse point +ℤ (if belongs row.now.row qse point then amount else pos 0) }
{
    if let Some((qse, point)) = row.pair() {
        pairs[qse][point] += amount;
    }
}

/// What each QSE has at each settlement point.
pub(crate) fn pair_up(rows: &[LoadedRow; 64], amounts: &[i64; 64]) -> [[i64; 8]; 16]
    requires { EachWithin 420000000 amounts.now }
    ensures shape { Shaped result }
    ensures value { (d : LoadedRow) (qse point : ℕ) → cell (pos 0) result qse point ≡ pair_sum rows.now amounts.now d 64 qse point }
{
    let mut pairs = [[0i64; 8]; 16];
    for (row, amount) in rows.iter().zip(amounts) {
        add_to_pair(&mut pairs, row, *amount);
    }
    pairs
}
