// How a layer is added, and how one that is there is filled. Layers are numbered from 1. To fill one is
// to take its table out, and to put it back: a table lent out of the array was tried in four ways, and
// the borrow checker made no proof of any.
ghost use Rattle.std.specs.Prelude.{◌≡◌, ◌+◌, ◌-◌, ◌≤◌, true, replicate, is_some, if◌then◌else◌, Some, None, nat_lt, slice_set};
ghost use Rattle.std.specs.Option.{option_map};
ghost use Rattle.roll.specs.Entries.{rows_of};
ghost use Rattle.pile.specs.Layers.{meaning_of, layers_of, height_of, layer_at, codes_given, codes_after, distribution_answer, distribution_after, transmission_answer, transmission_after};

use crate::layers::{Layer, Layers};
use refusal::Refusal;
use roll::Roll;

impl Layers {
    /// A pile without a layer.
    pub fn none() -> Layers
        ensures layers { layers_of result ≡ replicate 4 None }
        ensures height { height_of result ≡ 0 }
    {
        Layers {
            layers: [None; 4],
            height: 0,
        }
    }

    /// Puts a layer on top and answers its number; or answers none, where there are four.
    pub fn add(&mut self, layer: Layer) -> Option<usize>
        ensures answer { result ≡ (if nat_lt (height_of self.old) 4 then Some (height_of self.old + 1) else None) }
        ensures layers { layers_of self.new ≡ (if is_some result then slice_set (layers_of self.old) (height_of self.old) (Some (meaning_of layer)) else layers_of self.old) }
        ensures height { height_of self.new ≡ (if is_some result then height_of self.old + 1 else height_of self.old) }
    {
        if self.height >= 4 {
            return None;
        }
        self.layers[self.height] = Some(layer);
        self.height += 1;
        Some(self.height)
    }

    /// The layer with a number, if it is there.
    pub(crate) fn layer(&self, number: usize) -> Option<Layer>
        ensures meaning { option_map meaning_of result ≡ layer_at (layers_of self.now) number }
        ensures numbers { is_some result ≡ true → (1 ≤ number) × (number ≤ 4) }
    {
        match number {
            1..=4 => self.layers[number - 1],
            _ => None,
        }
    }

    /// Puts a layer in the place of another.
    fn put(&mut self, number: usize, layer: Layer)
        requires number { (1 ≤ number) × (number ≤ 4) }
        ensures layers { layers_of self.new ≡ slice_set (layers_of self.old) (number - 1) (Some (meaning_of layer)) }
        ensures height { height_of self.new ≡ height_of self.old }
    {
        self.layers[number - 1] = Some(layer);
    }

    /// Gives the factor of a code's letter and a quarter hour in a distribution layer. Answers none
    /// where no layer of that kind has the number.
    pub fn set_distribution_factor(
        &mut self,
        number: usize,
        letter: u8,
        quarter_hour: u8,
        factor: u32,
    ) -> Option<Result<(), Refusal>>
        ensures answer { result ≡ distribution_answer (layer_at (layers_of self.old) number) letter quarter_hour factor }
        ensures layers { layers_of self.new ≡ (if is_some result then slice_set (layers_of self.old) (number - 1) (distribution_after (layer_at (layers_of self.old) number) letter quarter_hour factor) else layers_of self.old) }
        ensures height { height_of self.new ≡ height_of self.old }
    {
        let Some(Layer::Distribution(mut table)) = self.layer(number) else {
            return None;
        };
        let answer = table.set_factor(letter, quarter_hour, factor);
        self.put(number, Layer::Distribution(table));
        Some(answer)
    }

    /// Gives the factor of a quarter hour in a transmission layer. Answers none where no layer of
    /// that kind has the number.
    pub fn set_transmission_factor(
        &mut self,
        number: usize,
        quarter_hour: u8,
        factor: u32,
    ) -> Option<Result<(), Refusal>>
        ensures answer { result ≡ transmission_answer (layer_at (layers_of self.old) number) quarter_hour factor }
        ensures layers { layers_of self.new ≡ (if is_some result then slice_set (layers_of self.old) (number - 1) (transmission_after (layer_at (layers_of self.old) number) quarter_hour factor) else layers_of self.old) }
        ensures height { height_of self.new ≡ height_of self.old }
    {
        let Some(Layer::Transmission(mut table)) = self.layer(number) else {
            return None;
        };
        let answer = table.set_factor(quarter_hour, factor);
        self.put(number, Layer::Transmission(table));
        Some(answer)
    }

    /// Takes the loss codes of a roll over into a distribution layer. Answers whether a layer of that
    /// kind has the number.
    pub fn take_over_codes(&mut self, number: usize, roll: &Roll) -> bool
        ensures answer { result ≡ codes_given (layer_at (layers_of self.old) number) }
        ensures layers { layers_of self.new ≡ (if result then slice_set (layers_of self.old) (number - 1) (codes_after (layer_at (layers_of self.old) number) (rows_of roll.now)) else layers_of self.old) }
        ensures height { height_of self.new ≡ height_of self.old }
    {
        let Some(Layer::Distribution(mut table)) = self.layer(number) else {
            return false;
        };
        table.take_over_codes(roll);
        self.put(number, Layer::Distribution(table));
        true
    }
}
