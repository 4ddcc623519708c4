// The checks that the calls of a day share.
ghost use Rattle.std.specs.Prelude.{◌≡◌, false, is_some, None, slice_index_or};
ghost use Rattle.roll.specs.Days.{quarters_of};
ghost use Rattle.roll.specs.Entries.{rows_of, sites_of};
ghost use Rattle.balance.specs.Questions.{ok_unless};
ghost use Rattle.day.specs.Entries.{no_segment, no_site, late, unlisted};

use crate::states::Day;
use book::LoadBook;
use refusal::Refusal;

// Two checks of one shape: a limit and a refusal of its own for each, and one function of both would
// be the test itself.
/// That a number is one of a segment.
pub(crate) fn segment_number(segment: u8) -> Result<(), Refusal>
    ensures { result ≡ ok_unless (no_segment segment) tt }
{
    if segment <= 63 {
        Ok(())
    } else {
        Err(Refusal::SegmentNumber)
    }
}

/// That a number is one of a site.
pub(crate) fn site_number(site: u8) -> Result<(), Refusal>
    ensures { result ≡ ok_unless (no_site site) tt }
{
    if site <= 15 {
        Ok(())
    } else {
        Err(Refusal::SiteNumber)
    }
}

impl<B: LoadBook + Drop, S: Drop> Day<B, S> {
    /// That a quarter hour is one of the day's. A book has 100 of them, and the day may have fewer.
    pub(crate) fn has(&self, quarter_hour: u8) -> Result<(), Refusal>
        ensures { result ≡ ok_unless (late (quarters_of self.now.length) quarter_hour) tt }
    {
        if quarter_hour < self.length.quarter_hours() {
            Ok(())
        } else {
            Err(Refusal::QuarterHour)
        }
    }

    /// That a segment is on the roll.
    pub(crate) fn lists_segment(&self, segment: u8) -> Result<(), Refusal>
        ensures { result ≡ ok_unless (unlisted (is_some (slice_index_or (rows_of self.now.roll) segment None)) segment) tt }
    {
        self.roll
            .row(segment)
            .map(|_| ())
            .ok_or(Refusal::NotOnRoll { subject: segment })
    }

    /// That a site is on the roll.
    pub(crate) fn lists_site(&self, site: u8) -> Result<(), Refusal>
        ensures { result ≡ ok_unless (unlisted (slice_index_or (sites_of self.now.roll) site false) site) tt }
    {
        if self.roll.has_site(site) {
            Ok(())
        } else {
            Err(Refusal::NotOnRoll { subject: site })
        }
    }
}
