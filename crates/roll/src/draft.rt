// A day before its first reading: its length, and a roll that is still being filled.
ghost use Rattle.std.specs.Prelude.{◌≡◌, ℕ, true, false, is_ok, if◌then◌else◌, Some, None, slice_index_or, slice_set};
ghost use Rattle.roll.specs.Decoding.{DecodesLength};
ghost use Rattle.roll.specs.Days.{quarters_of};
ghost use Rattle.roll.specs.Drafts.{day_of, roll_of, contents_in, begun};
ghost use Rattle.roll.specs.Entries.{rows_of, sites_of, segment_entry, site_entry};

use crate::roll::Roll;
use crate::row::Row;
use refusal::Refusal;

/// How long a day is: one hour short where the clocks go forward, one hour long where they go back.
#[derive(Clone, Copy, PartialEq, Eq, Debug)]
pub enum DayLength {
    Short,
    Normal,
    Long,
}

/// The day of so many quarter hours, if there is one.
impl TryFrom<u8> for DayLength {
    type Error = Refusal;

    ghost try_from_gives = { DecodesLength };

    fn try_from(quarter_hours: u8) -> Result<DayLength, Refusal> {
        match quarter_hours {
            92 => Ok(DayLength::Short),
            96 => Ok(DayLength::Normal),
            100 => Ok(DayLength::Long),
            _ => Err(Refusal::DayLength),
        }
    }
}

impl DayLength {
    pub fn quarter_hours(&self) -> u8
        ensures { result ≡ quarters_of self.now }
    {
        match *self {
            DayLength::Short => 92,
            DayLength::Normal => 96,
            DayLength::Long => 100,
        }
    }
}

/// A day that takes entries of its roll only.
#[derive(Drop)]
pub struct Draft {
    length: DayLength,
    roll: Roll,
}

impl Draft {
    /// A day of so many quarter hours, with an empty roll.
    pub fn begin(quarter_hours: u8) -> Result<Draft, Refusal>
        ensures { contents_in result ≡ begun quarter_hours }
    {
        Ok(Draft {
            length: DayLength::try_from(quarter_hours)?,
            roll: Roll::empty(),
        })
    }

    pub fn length(&self) -> DayLength
        ensures { result ≡ day_of self.now }
    {
        self.length
    }

    pub fn roll(&self) -> &Roll
        ensures { result.now ≡ roll_of self.now }
    {
        &self.roll
    }

    /// The day's length and its roll, which takes no more entries of a draft.
    pub fn into_parts(self) -> (DayLength, Roll)
        ensures length { result.0 ≡ day_of self }
        ensures roll { result.1 ≡ roll_of self }
    {
        let Draft { length, roll } = self;
        (length, roll)
    }

    /// Enters a segment's row under its number. A number that has a row keeps it.
    pub fn segment(&mut self, number: u8, row: &Row) -> Result<(), Refusal>
        ensures answer { result ≡ segment_entry (rows_of (roll_of self.old)) number row.now }
        ensures rows { rows_of (roll_of self.new) ≡ (if is_ok result then slice_set (rows_of (roll_of self.old)) number (Some row.now) else rows_of (roll_of self.old)) }
        ensures sites { sites_of (roll_of self.new) ≡ sites_of (roll_of self.old) }
        ensures day { day_of self.new ≡ day_of self.old }
        ensures refused { is_ok result ≡ false → self.new ≡ self.old }
        ensures kept { (t : ℕ) (old : Row) → slice_index_or (rows_of (roll_of self.old)) t None ≡ Some old → slice_index_or (rows_of (roll_of self.new)) t None ≡ Some old }
    {
        self.roll.enter_segment(number, row)
    }

    /// Lists a generation site. One that is listed stays.
    pub fn site(&mut self, number: u8) -> Result<(), Refusal>
        ensures answer { result ≡ site_entry (sites_of (roll_of self.old)) number }
        ensures sites { sites_of (roll_of self.new) ≡ (if is_ok result then slice_set (sites_of (roll_of self.old)) number true else sites_of (roll_of self.old)) }
        ensures rows { rows_of (roll_of self.new) ≡ rows_of (roll_of self.old) }
        ensures day { day_of self.new ≡ day_of self.old }
        ensures refused { is_ok result ≡ false → self.new ≡ self.old }
        ensures kept { (t : ℕ) → slice_index_or (sites_of (roll_of self.old)) t false ≡ true → slice_index_or (sites_of (roll_of self.new)) t false ≡ true }
    {
        self.roll.enter_site(number)
    }
}
