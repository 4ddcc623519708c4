// Loss adjustments: each holds a load book below it, and is a load book itself.
#![tactic(auto)]

mod adjust;
mod adjusted;
mod distribution;
mod table;
mod transmission;

pub use adjusted::{Adjusted, Adjustment};
pub use distribution::{Distribution, DistributionTable};
pub use transmission::{Transmission, TransmissionTable};
