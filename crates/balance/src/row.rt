// A row of the roll with its grossed load: what the unaccounted-for energy is split over.
ghost use Rattle.std.specs.Prelude.{◌≡◌, ◌≤◌, true, false, is_some};
ghost use Rattle.roll.specs.Ranges.{ranged};

use roll::Row;

pub mod gathering;
pub mod sums;
pub mod weighing;

/// A place of the roll, and the load of its segment: 0 where there is none.
// The split goes over plain rows with their loads, free places among them.
#[derive(Clone, Copy)]
pub struct LoadedRow {
    row: Option<Row>,
    load: u32,
    ghost small: { load ≤ 4000000 },
    ghost in_range: { ranged row ≡ true },
    ghost unlisted: { is_some row ≡ false → load ≡ 0 },
}
