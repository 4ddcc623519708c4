// What goes onto the roll, and what it answers.
ghost use Rattle.std.specs.Prelude.{◌≡◌, ℕ, true, false, replicate, is_ok, if◌then◌else◌, Some, None, slice_index_or, slice_set};
ghost use Rattle.std.specs.Option.{option_map};
ghost use Rattle.roll.specs.Ranges.{ranged};
ghost use Rattle.roll.specs.Segments.{row_of};
ghost use Rattle.roll.specs.Entries.{rows_of, sites_of, segment_entry, site_entry};

use crate::roll::Roll;
use crate::row::Row;
use crate::segment::Segment;
use refusal::Refusal;

impl Roll {
    /// A roll with nothing on it.
    pub fn empty() -> Roll
        ensures rows { rows_of result ≡ replicate 64 None }
        ensures sites { sites_of result ≡ replicate 16 false }
    {
        Roll {
            segments: [None; 64],
            sites: [false; 16],
        }
    }

    /// The row under each segment number, or none.
    pub fn rows(&self) -> &[Option<Row>; 64]
        ensures { result.now ≡ rows_of self.now }
    {
        &self.segments
    }

    /// The row that stands under a segment's number.
    pub fn row(&self, number: u8) -> Option<Row>
        ensures row { result ≡ slice_index_or (rows_of self.now) number None }
        ensures range { ranged result ≡ true }
    {
        *self.segments.get(usize::from(number))?
    }

    /// The record of the segment under a number.
    pub fn segment(&self, number: u8) -> Option<Segment>
        ensures { option_map row_of result ≡ slice_index_or (rows_of self.now) number None }
    {
        Segment::try_from(&self.row(number)?).ok()
    }

    /// Whether a generation site is listed.
    pub fn has_site(&self, number: u8) -> bool
        ensures { result ≡ slice_index_or (sites_of self.now) number false }
    {
        self.sites.get(usize::from(number)) == Some(&true)
    }

    /// Enters a segment's row under its number. A number that has a row keeps it.
    pub fn enter_segment(&mut self, number: u8, row: &Row) -> Result<(), Refusal>
        ensures answer { result ≡ segment_entry (rows_of self.old) number row.now }
        ensures rows { rows_of self.new ≡ (if is_ok result then slice_set (rows_of self.old) number (Some row.now) else rows_of self.old) }
        ensures sites { sites_of self.new ≡ sites_of self.old }
        ensures refused { is_ok result ≡ false → self.new ≡ self.old }
        ensures kept { (t : ℕ) (old : Row) → slice_index_or (rows_of self.old) t None ≡ Some old → slice_index_or (rows_of self.new) t None ≡ Some old }
    {
        if number > 63 {
            return Err(Refusal::SegmentNumber);
        }
        Segment::try_from(row)?;
        let mut segments = self.segments;
        if segments[number as usize].is_some() {
            return Err(Refusal::AlreadyOnRoll);
        }
        segments[number as usize] = Some(*row);
        let sites = self.sites;
        *self = Roll { segments, sites };
        Ok(())
    }

    /// Lists a generation site. One that is listed stays.
    pub fn enter_site(&mut self, number: u8) -> Result<(), Refusal>
        ensures answer { result ≡ site_entry (sites_of self.old) number }
        ensures sites { sites_of self.new ≡ (if is_ok result then slice_set (sites_of self.old) number true else sites_of self.old) }
        ensures rows { rows_of self.new ≡ rows_of self.old }
        ensures refused { is_ok result ≡ false → self.new ≡ self.old }
        ensures kept { (t : ℕ) → slice_index_or (sites_of self.old) t false ≡ true → slice_index_or (sites_of self.new) t false ≡ true }
    {
        if number > 15 {
            return Err(Refusal::SiteNumber);
        }
        let mut sites = self.sites;
        if sites[number as usize] {
            return Err(Refusal::AlreadyOnRoll);
        }
        sites[number as usize] = true;
        let segments = self.segments;
        *self = Roll { segments, sites };
        Ok(())
    }
}
