// A draft with all that its day will be opened on: the book at the bottom, and the layers over it.
ghost use Rattle.std.specs.Prelude.{◌≡◌};
ghost use Rattle.roll.specs.Drafts.{begun};
ghost use Rattle.pile.specs.Layers.{height_of};
ghost use Rattle.desk.specs.Drafting.{BegunAs, begun_reply, layer_reply, draft_reply};

use crate::order::Order;
use crate::reply::{Rejection, Reply, Untaken};
use losses::{DistributionTable, TransmissionTable};
use pile::{Layer, Layers};
use refusal::Refusal;
use roll::{DayLength, Draft};

#[derive(Clone, Copy)]
pub enum Bottom {
    Grid,
    Slips { records: usize },
}

#[derive(Drop)]
pub struct Setup {
    pub draft: Draft,
    pub bottom: Bottom,
    pub layers: Layers,
}

impl Setup {
    /// A day of so many quarter hours, with nothing said of it yet.
    pub fn begin(quarter_hours: u8) -> Result<Setup, Refusal>
        ensures { BegunAs quarter_hours result }
    {
        Ok(Setup {
            draft: Draft::begin(quarter_hours)?,
            bottom: Bottom::Grid,
            layers: Layers::none(),
        })
    }

    /// Whether the day has clock times.
    pub fn has_clock(&self) -> bool {
        self.draft.length() == DayLength::Normal
    }

    // What makes a table or a whole setup is a function of its own: within `take` its place would be
    // blanked for every line.
    /// Another day in the place of this one.
    fn begin_again(&mut self, quarter_hours: u8) -> Result<Reply, Rejection>
        ensures { result ≡ begun_reply quarter_hours (begun quarter_hours) }
    {
        *self = Setup::begin(quarter_hours)?;
        Ok(Reply::Begun { quarter_hours })
    }

    fn add_distribution(&mut self) -> Result<Reply, Rejection>
        ensures { result ≡ layer_reply (λ n. Reply.Distribution n) (height_of self.old.layers) }
    {
        let layer = self
            .layers
            .add(Layer::Distribution(DistributionTable::empty()))
            .ok_or(Untaken::FourLayers)?;
        Ok(Reply::Distribution { layer })
    }

    fn add_transmission(&mut self) -> Result<Reply, Rejection>
        ensures { result ≡ layer_reply (λ n. Reply.Transmission n) (height_of self.old.layers) }
    {
        let layer = self
            .layers
            .add(Layer::Transmission(TransmissionTable::empty()))
            .ok_or(Untaken::FourLayers)?;
        Ok(Reply::Transmission { layer })
    }

    /// A line on a draft, other than `open`.
    pub fn take(&mut self, order: &Order) -> Result<Reply, Rejection>
        ensures { result ≡ draft_reply self.old order.now }
    {
        match *order {
            Order::Day { quarter_hours } => self.begin_again(quarter_hours),
            Order::Segment { number, row } => {
                self.draft.segment(number, &row)?;
                Ok(Reply::OnRoll)
            }
            Order::Site { number } => {
                self.draft.site(number)?;
                Ok(Reply::OnRoll)
            }
            Order::Grid => {
                self.bottom = Bottom::Grid;
                Ok(Reply::Grid)
            }
            Order::Slips { records } => {
                self.bottom = Bottom::Slips { records };
                Ok(Reply::Slips { records })
            }
            Order::Distribution => self.add_distribution(),
            Order::Transmission => self.add_transmission(),
            Order::DistributionFactor {
                layer,
                letter,
                quarter_hour,
                factor,
            } => {
                self.layers
                    .set_distribution_factor(layer, letter, quarter_hour, factor)
                    .ok_or(Rejection::NoLayer)??;
                Ok(Reply::FactorGiven)
            }
            Order::TransmissionFactor {
                layer,
                quarter_hour,
                factor,
            } => {
                self.layers
                    .set_transmission_factor(layer, quarter_hour, factor)
                    .ok_or(Rejection::NoLayer)??;
                Ok(Reply::FactorGiven)
            }
            Order::Codes { layer } => {
                if self.layers.take_over_codes(layer, self.draft.roll()) {
                    Ok(Reply::CodesTakenOver)
                } else {
                    Err(Rejection::NoLayer)
                }
            }
            Order::Open | Order::Profile { .. } | Order::Statement { .. } | Order::Call(_) => {
                Err(Rejection::Unlawful(Untaken::Draft))
            }
        }
    }
}
