// One step of a pile.
ghost use Rattle.pile.specs.Bounds.{layer_bounded};
ghost use Rattle.pile.specs.Layers.{meaning_of, adjusted_by};

use crate::layers::Layer;
use losses::{Adjusted, Adjustment};
use refusal::Refusal;

/// A load book under one layer, or under none.
pub type Level<B> = Adjusted<B, Option<Layer>>;

impl Adjustment for Layer {
    ghost adjusted = { λ l. adjusted_by (meaning_of l) };

    ghost bounded = { λ l. layer_bounded (meaning_of l) };

    fn gross(
        &self,
        below: Result<u32, Refusal>,
        segment: u8,
        quarter_hour: u8,
    ) -> Result<u32, Refusal> {
        match self {
            Layer::Distribution(table) => table.gross(below, segment, quarter_hour),
            Layer::Transmission(table) => table.gross(below, segment, quarter_hour),
        }
    }
}
