// The record of one load segment, which cannot hold a number out of range.
ghost use Rattle.std.specs.Prelude.{◌≤◌};

use crate::row::{LossCode, Meter};

pub mod record;

/// What is known of a load segment on the roll. Where one exists its numbers are in range, so
/// nothing that reads it tests them again.
#[derive(Clone, Copy)]
pub struct Segment {
    qse: u8,
    point: u8,
    code: LossCode,
    meter: Meter,
    noie: bool,
    ghost in_range: { (qse ≤ 15) × (point ≤ 7) },
}
