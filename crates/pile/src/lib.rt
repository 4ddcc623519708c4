// Piles of loss adjustments that are put together while a program runs: any of the two kinds, in any
// order, up to four.
#![tactic(auto)]

mod layers;
mod level;

pub use layers::{Layer, Layers};
pub use level::Level;
