// The day's roll: which load segments and generation sites take part, and the draft that lists them.
#![tactic(auto)]

mod draft;
mod roll;
mod row;
mod segment;

pub use draft::{DayLength, Draft};
pub use roll::Roll;
pub use row::{LossCode, Meter, Row};
pub use segment::Segment;
pub use segment::record::row_weight;
