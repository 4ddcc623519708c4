// How much a row counts in the split.
ghost use Rattle.std.specs.Prelude.{◌≡◌, ◌≤◌, pos};
ghost use Rattle.balance.specs.Balance.{weight_in};
ghost use Rattle.balance.specs.Sheets.{weight_of_row};

use crate::row::LoadedRow;
use roll::row_weight;
use split::Weighted;

impl LoadedRow {
    /// Its load as often as it weighs. A row of the roll is in range, and has a weight.
    pub(crate) fn weighted_load(&self) -> u32
        ensures value { result ≡ weight_of_row self.now }
        ensures limit { result ≤ 40000000 }
    {
        match self.row.and_then(|row| row_weight(&row)) {
            Some(weight) => u32::from(weight) * self.load,
            None => 0,
        }
    }
}

impl Weighted for LoadedRow {
    ghost weight = { λ r. pos (weight_in r.row r.load) };

    fn weight(&self) -> i64 {
        i64::from(self.weighted_load())
    }
}
