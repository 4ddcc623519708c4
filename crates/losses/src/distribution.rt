// The distribution adjustment: a loss factor for each code A to E and quarter hour.
use crate::adjusted::Adjusted;
use crate::table::FactorTable;
use roll::LossCode;

pub mod entries;
pub mod layer;

/// What a distribution adjustment goes by: a loss factor for each loss code and quarter hour, and
/// the segments' codes from the roll as it was when they were last taken over. It can be filled
/// before there is a book to lay it over.
#[derive(Clone, Copy)]
pub struct DistributionTable {
    factors: FactorTable<5>,
    codes: [Option<LossCode>; 64],
}

/// A load book under a distribution loss factor for each loss code and quarter hour. It knows the
/// segments' codes from the roll as it was when they were last taken over.
pub type Distribution<B> = Adjusted<B, DistributionTable>;
