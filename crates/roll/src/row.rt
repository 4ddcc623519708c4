// What the roll says of one load segment, as plain numbers, and the two named kinds among them.
ghost use Rattle.std.specs.Prelude.{◌≡◌};
ghost use Rattle.roll.specs.Marks.{letter_of};
ghost use Rattle.roll.specs.Decoding.{DecodesLetter, DecodesMark};

use refusal::Refusal;

/// The loss code of a segment: A to E stand for a distribution loss factor each, T for a segment
/// served at transmission voltage.
#[derive(Clone, Copy, PartialEq, Eq, Debug)]
pub enum LossCode {
    A,
    B,
    C,
    D,
    E,
    T,
}

/// The code of a letter, if it is one of the six.
impl TryFrom<u8> for LossCode {
    type Error = Refusal;

    ghost try_from_gives = { DecodesLetter };

    fn try_from(letter: u8) -> Result<LossCode, Refusal> {
        match letter as char {
            'A' => Ok(LossCode::A),
            'B' => Ok(LossCode::B),
            'C' => Ok(LossCode::C),
            'D' => Ok(LossCode::D),
            'E' => Ok(LossCode::E),
            'T' => Ok(LossCode::T),
            _ => Err(Refusal::SegmentField),
        }
    }
}

impl LossCode {
    /// The letter's byte.
    pub fn letter(&self) -> u8
        ensures { result ≡ letter_of self.now }
    {
        match *self {
            LossCode::A => b'A',
            LossCode::B => b'B',
            LossCode::C => b'C',
            LossCode::D => b'D',
            LossCode::E => b'E',
            LossCode::T => b'T',
        }
    }
}

/// How a segment is metered: each quarter hour by itself, or a span of days at once, whose reading is
/// spread by a profile.
#[derive(Clone, Copy, PartialEq, Eq, Debug)]
pub enum Meter {
    Interval,
    Profiled,
}

/// The kind of meter that a mark stands for: 0 interval, 1 profiled.
impl TryFrom<u8> for Meter {
    type Error = Refusal;

    ghost try_from_gives = { DecodesMark };

    fn try_from(mark: u8) -> Result<Meter, Refusal> {
        match mark {
            0 => Ok(Meter::Interval),
            1 => Ok(Meter::Profiled),
            _ => Err(Refusal::SegmentField),
        }
    }
}

/// One segment of the roll as plain numbers, as it is read in, which need not be in range: the record
/// that is made from it has the kinds as types.
#[derive(Clone, Copy, PartialEq, Eq, Debug)]
pub struct Row {
    /// The qualified scheduling entity, 0 to 15.
    pub qse: u8,
    /// The settlement point, 0 to 7.
    pub point: u8,
    /// The loss code's letter as a byte.
    pub code: u8,
    /// 0 interval, 1 profiled.
    pub meter: u8,
    /// 1 for a load of a non-opt-in entity, else 0.
    pub noie: u8,
}
