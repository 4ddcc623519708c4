// How a balance is worked out from the rows with their loads and what was generated.
ghost use Rattle.std.specs.Prelude.{◌≡◌, ℕ, ◌<◌, ◌≤◌, map, length, get_or, pos, None, slice_index_or, unsigned_abs};
ghost use Rattle.book.specs.Tables.{cell};
ghost use Rattle.split.specs.Parts.{parts_of};
ghost use Rattle.balance.specs.Balance.{ufe as ufe_of, weighted as weighted_of, weights, stranded};
ghost use Rattle.balance.specs.Settling.{Holds, Settled, SplitAs, sheet_in};
ghost use Rattle.balance.specs.Sheets.{CellsWithin, EachWithin, row_weight_z};
ghost use Rattle.balance.specs.Totals.{total};

use crate::row::LoadedRow;
use crate::row::sums::{add_parts, pair_up, sum_loads, sum_weights};
use crate::settled::Balance;
use refusal::Refusal;

/// What a QSE has at all settlement points.
fn sum_points(points: &[i64; 8]) -> i64
    requires { EachWithin 672000000 points.now }
    ensures { result ≡ total (λ p. get_or points.now p (pos 0)) 8 }
{
    let mut sum = 0i64;
    for point in points {
        sum += *point;
    }
    sum
}

/// What each QSE has.
fn add_points(pairs: &[[i64; 8]; 16]) -> [i32; 16]
    requires small { CellsWithin 672000000 pairs.now }
    requires sums { (q : ℕ) → q < 16 → unsigned_abs (total (λ p. cell (pos 0) pairs.now q p) 8) ≤ 672000000 }
    ensures { (q : ℕ) → q < 16 → slice_index_or result q (pos 0) ≡ total (λ p. cell (pos 0) pairs.now q p) 8 }
{
    let mut sums = [0i32; 16];
    for (q, points) in pairs.iter().enumerate() {
        // by index, since what a walk by `iter_mut` beside another writes is not known to a proof
        sums[q] = sum_points(points) as i32;
    }
    sums
}

/// The parts of the unaccounted-for energy, upward by segment.
fn split_ufe(rows: &[LoadedRow; 64], ufe: i64, weighted: u32) -> Result<[i64; 64], Refusal>
    requires { unsigned_abs ufe ≤ 416000000 }
    ensures { SplitAs result ufe weighted (map row_weight_z rows.now) }
{
    let mut parts = [0i64; 64];
    split::split(ufe as i32, 0, weighted, rows, &mut parts)?;
    Ok(parts)
}

/// The balance by the parts.
fn carry(rows: &[LoadedRow; 64], generation: i64, ufe: i64, parts: &[i64; 64]) -> Balance
    requires generation { unsigned_abs generation ≤ 160000000 }
    requires ufe { ufe ≡ ufe_of (sheet_in rows.now generation) }
    requires carried { stranded (sheet_in rows.now generation) ≡ None }
    requires parts { parts.now ≡ parts_of (ufe_of (sheet_in rows.now generation)) (weighted_of (sheet_in rows.now generation)) 0 (weights (sheet_in rows.now generation)) }
    ensures { Holds (sheet_in rows.now generation) result }
{
    let adjusted = add_parts(rows, parts);
    let pairs = pair_up(rows, &adjusted);
    let qse_loads = add_points(&pairs);
    Balance {
        generation,
        ufe,
        adjusted,
        pairs,
        qse_loads,
    }
}

/// The balance, or the refusal where there is unaccounted-for energy and no weight to carry it.
pub(crate) fn settle(rows: &[LoadedRow; 64], generation: i64) -> Result<Balance, Refusal>
    requires { unsigned_abs generation ≤ 160000000 }
    ensures { Settled (sheet_in rows.now generation) result }
{
    let ufe = generation - i64::from(sum_loads(rows));
    let parts = split_ufe(rows, ufe, sum_weights(rows))?;
    Ok(carry(rows, generation, ufe, &parts))
}
