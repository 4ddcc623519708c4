// A day from its opening on: a list of calls, done one after another, and the law over all of them.
#![tactic(auto)]

mod any_day;
mod call;
mod doing;
mod whole;
mod words;

pub use any_day::AnyDay;
pub use call::{Answer, Call, DayState, Entry, Question};
pub use whole::{Run, Unopened, run_day};
