// The transmission adjustment: one loss factor for each quarter hour.
use crate::adjusted::Adjusted;
use crate::table::FactorTable;

pub mod entries;
pub mod layer;

/// What a transmission adjustment goes by: a loss factor for each quarter hour. It can be filled
/// before there is a book to lay it over.
#[derive(Clone, Copy)]
pub struct TransmissionTable {
    factors: FactorTable<1>,
}

/// A load book under a transmission loss factor for each quarter hour.
pub type Transmission<B> = Adjusted<B, TransmissionTable>;
