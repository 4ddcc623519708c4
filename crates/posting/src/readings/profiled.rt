// How a day's readings are laid out from a profiled reading, and posted.
ghost use Rattle.std.specs.Prelude.{◌≡◌, is_ok, if◌then◌else◌, Err, nat_lt};
ghost use Rattle.refusal.specs.declared.Refusal.TheVariants.{SegmentNumber};
ghost use Rattle.roll.specs.Days.{quarters_of};
ghost use Rattle.profile.specs.Answer.{spread_answer};
ghost use Rattle.profile.specs.Quarters.{day_of};
ghost use Rattle.posting.specs.Readings.{readings_of, readings_in, spread_into};
ghost use Rattle.posting.specs.Rows.{put_row, row_answer};

use crate::readings::DayReadings;
use crate::row::post_row;
use book::LoadBook;
use profile::{ProfiledReading, spread};
use refusal::Refusal;
use roll::DayLength;

impl DayReadings {
    /// Lays a profiled reading over the quarter hours of a day. Refused as the reading's rules have it.
    pub fn lay_out(
        reading: &ProfiledReading,
        day: DayLength,
        weights: &[u32],
    ) -> Result<DayReadings, Refusal>
        ensures { readings_in result ≡ spread_into (spread_answer reading.now.energy reading.now.profile_total reading.now.profile_before day weights.now (quarters_of day)) (day_of reading.now.energy reading.now.profile_total reading.now.profile_before weights.now) }
    {
        let quarter_hours = usize::from(day.quarter_hours());
        let mut list = [0u32; 100];
        spread(reading, day, weights, &mut list[..quarter_hours])?;
        Ok(DayReadings { day, list })
    }

    /// Posts the readings to a segment of a book, all of them or none, and answers how many quarter
    /// hours had a reading before.
    pub fn post_to<B: LoadBook>(&self, book: &mut B, segment: u8) -> Result<u32, Refusal>
        ensures answer { result ≡ (if nat_lt 63 segment then Err SegmentNumber else row_answer (B.LoadBook.standing book.old) (B.LoadBook.places book.old) segment (readings_of self.now)) }
        ensures after { B.LoadBook.standing book.new ≡ (if is_ok result then put_row (B.LoadBook.standing book.old) segment (readings_of self.now) else B.LoadBook.standing book.old) }
        ensures places_kept { B.LoadBook.places book.new ≡ B.LoadBook.places book.old }
        ensures grossing_kept { B.LoadBook.grossing book.new ≡ B.LoadBook.grossing book.old }
    {
        if segment > 63 {
            return Err(Refusal::SegmentNumber);
        }
        let quarter_hours = usize::from(self.day.quarter_hours());
        post_row(book, segment, &self.list[..quarter_hours])
    }
}
