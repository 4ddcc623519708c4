// The balance of one quarter hour, worked out once: every question about it is read off this.
ghost use Rattle.std.specs.Prelude.{◌≤◌, unsigned_abs};
ghost use Rattle.balance.specs.Sheets.{Shaped};

pub mod reading;
pub mod settling;

#[derive(Clone, Copy)]
pub struct Balance {
    /// G, in Wh.
    generation: i64,
    /// U: what was generated and not metered.
    ufe: i64,
    /// The adjusted load of each segment, 0 off the roll.
    adjusted: [i64; 64],
    /// RTAML by QSE and settlement point.
    pairs: [[i64; 8]; 16],
    /// RTAML by QSE.
    qse_loads: [i32; 16],
    // proofs do not read off its type how long a row is
    ghost shape: { Shaped pairs },
    ghost within: { unsigned_abs generation ≤ 160000000 },
}
