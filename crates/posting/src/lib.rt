// The readings of a day for one segment, laid out from a profiled reading and posted whole or not at all.
#![tactic(auto)]

mod readings;
mod row;

pub use readings::DayReadings;
