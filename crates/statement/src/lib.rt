// The statement of a quarter hour: its balance, or why it has none, as lines of text.
#![tactic(auto)]

mod account;
mod listed;
mod page;
mod whole;

pub use whole::{write_statement, write_statement_of};
