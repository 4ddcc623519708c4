// How a record is made from a plain row, what it says, and the weight that it gives a segment.
ghost use Rattle.std.specs.Prelude.{◌≡◌, ◌≤◌};
ghost use Rattle.roll.specs.Decoding.{DecodesRow};
ghost use Rattle.roll.specs.Segments.{weight_of, weight_of_row};

use crate::row::{LossCode, Meter, Row};
use crate::segment::Segment;
use refusal::Refusal;

/// The record of a plain row, if each of its five numbers is in range.
impl TryFrom<&Row> for Segment {
    type Error = Refusal;

    ghost try_from_gives = { λ row result. DecodesRow row.now result };

    fn try_from(row: &Row) -> Result<Segment, Refusal> {
        if row.qse > 15 || row.point > 7 {
            return Err(Refusal::SegmentField);
        }
        Ok(Segment {
            qse: row.qse,
            point: row.point,
            code: LossCode::try_from(row.code)?,
            meter: Meter::try_from(row.meter)?,
            noie: match row.noie {
                0 => false,
                1 => true,
                _ => return Err(Refusal::SegmentField),
            },
        })
    }
}

impl Segment {
    pub fn qse(&self) -> u8
        ensures field { result ≡ self.now.qse }
        ensures range { result ≤ 15 }
    {
        self.qse
    }

    pub fn point(&self) -> u8
        ensures field { result ≡ self.now.point }
        ensures range { result ≤ 7 }
    {
        self.point
    }

    pub fn code(&self) -> LossCode
        ensures { result ≡ self.now.code }
    {
        self.code
    }

    /// How heavily the segment's load counts when unaccounted-for energy is shared out.
    pub fn weight(&self) -> u8
        ensures rule { result ≡ weight_of self.now }
        ensures limit { result ≤ 10 }
    {
        if self.noie {
            return 0;
        }
        match self.meter {
            Meter::Profiled => 10,
            Meter::Interval => match self.code {
                LossCode::T => 1,
                _ => 5,
            },
        }
    }
}

/// The weight of a lent plain row, if it is in range.
pub fn row_weight(row: &Row) -> Option<u8>
    ensures { result ≡ weight_of_row row.now }
{
    Some(Segment::try_from(row).ok()?.weight())
}
