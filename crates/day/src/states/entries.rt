// What is entered into an open day and taken back.
ghost use Rattle.std.specs.Prelude.{◌≡◌, is_ok, if◌then◌else◌};
ghost use Rattle.posting.specs.Readings.{readings_in, spread_into};
ghost use Rattle.day.specs.Entries.{post_answer, profiled_answer, withdraw_answer, figure_answer, strike_answer, spread_in};
ghost use Rattle.day.specs.Holding.{day_setting, day_slate, Holds};
ghost use Rattle.day.specs.Slate.{posted, readings_of, profiled, withdrawn, figured, struck};

use crate::states::checks::{segment_number, site_number};
use crate::states::{Day, Open};
use book::LoadBook;
use posting::DayReadings;
use profile::ProfiledReading;
use refusal::Refusal;

impl<B: LoadBook + Drop, G: Drop> Day<B, Open<G>> {
    /// Puts a reading into its cell, and answers the one that stood there before.
    pub fn post(
        &mut self,
        segment: u8,
        quarter_hour: u8,
        reading: u32,
    ) -> Result<Option<u32>, Refusal>
        ensures answer { result ≡ post_answer (day_setting B.LoadBook self.old) (day_slate B.LoadBook self.old) segment quarter_hour reading }
        ensures after { Holds B.LoadBook self.new (day_setting B.LoadBook self.old) (if is_ok result then posted (day_slate B.LoadBook self.old) segment quarter_hour reading else day_slate B.LoadBook self.old) }
    {
        segment_number(segment)?;
        self.has(quarter_hour)?;
        if reading > 1_000_000 {
            return Err(Refusal::Reading);
        }
        self.lists_segment(segment)?;
        self.book.post(segment, quarter_hour, reading)
    }

    /// The readings of this day's quarter hours, by a reading for a span of days.
    fn laid_out(&self, reading: &ProfiledReading, weights: &[u32]) -> Result<DayReadings, Refusal>
        ensures { readings_in result ≡ spread_into (spread_in (day_setting B.LoadBook self.now) reading.now weights.now) (readings_of reading.now weights.now) }
    {
        DayReadings::lay_out(reading, self.length, weights)
    }

    /// Lays a reading for a span of days over this one and puts a reading into every quarter hour of
    /// the segment, or into none. Answers how many of them had a reading before.
    pub fn post_profiled(
        &mut self,
        segment: u8,
        reading: &ProfiledReading,
        weights: &[u32],
    ) -> Result<u32, Refusal>
        ensures answer { result ≡ profiled_answer (day_setting B.LoadBook self.old) (day_slate B.LoadBook self.old) segment reading.now weights.now }
        ensures after { Holds B.LoadBook self.new (day_setting B.LoadBook self.old) (if is_ok result then profiled (day_slate B.LoadBook self.old) segment reading.now weights.now else day_slate B.LoadBook self.old) }
    {
        segment_number(segment)?;
        let readings = self.laid_out(reading, weights)?;
        self.lists_segment(segment)?;
        readings.post_to(&mut self.book, segment)
    }

    /// Empties a cell, and answers the reading that stood there.
    pub fn withdraw(&mut self, segment: u8, quarter_hour: u8) -> Result<u32, Refusal>
        ensures answer { result ≡ withdraw_answer (day_setting B.LoadBook self.old) (day_slate B.LoadBook self.old) segment quarter_hour }
        ensures after { Holds B.LoadBook self.new (day_setting B.LoadBook self.old) (if is_ok result then withdrawn (day_slate B.LoadBook self.old) segment quarter_hour else day_slate B.LoadBook self.old) }
    {
        segment_number(segment)?;
        self.has(quarter_hour)?;
        self.lists_segment(segment)?;
        self.book.withdraw(segment, quarter_hour)
    }

    /// Enters the generation figure of a site, and answers the one that stood before.
    pub fn figure(&mut self, site: u8, quarter_hour: u8, wh: i32) -> Result<Option<i32>, Refusal>
        ensures answer { result ≡ figure_answer (day_setting B.LoadBook self.old) (day_slate B.LoadBook self.old) site quarter_hour wh }
        ensures after { Holds B.LoadBook self.new (day_setting B.LoadBook self.old) (if is_ok result then figured (day_slate B.LoadBook self.old) site quarter_hour wh else day_slate B.LoadBook self.old) }
    {
        self.has(quarter_hour)?;
        site_number(site)?;
        if wh.unsigned_abs() > 10_000_000 {
            return Err(Refusal::Figure);
        }
        self.lists_site(site)?;
        self.figures.enter(site, quarter_hour, wh)
    }

    /// Takes the generation figure of a site back, and answers it.
    pub fn strike(&mut self, site: u8, quarter_hour: u8) -> Result<i32, Refusal>
        ensures answer { result ≡ strike_answer (day_setting B.LoadBook self.old) (day_slate B.LoadBook self.old) site quarter_hour }
        ensures after { Holds B.LoadBook self.new (day_setting B.LoadBook self.old) (if is_ok result then struck (day_slate B.LoadBook self.old) site quarter_hour else day_slate B.LoadBook self.old) }
    {
        self.has(quarter_hour)?;
        site_number(site)?;
        self.lists_site(site)?;
        self.figures.strike(site, quarter_hour)
    }
}
