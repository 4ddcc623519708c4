// The day: what is fixed while it lives, what was entered, and its calls.
#![tactic(auto)]

mod states;

pub use states::{Day, Final, Initial, Open, Sealed};
