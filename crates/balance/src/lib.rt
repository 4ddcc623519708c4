// The balance of a quarter hour: what was generated, what was metered, and who carries the difference.
#![tactic(auto)]

mod apart;
mod figures;
mod generation;
mod questions;
mod row;
mod settled;

pub use apart::{adjusted_loads, balance_of, generation_and_ufe, rtaml, shares};
pub use figures::Figures;
pub use questions::{QuarterHour, Ufe};
pub use settled::Balance;
