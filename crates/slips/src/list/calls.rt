// What a slip book does, and what it answers.
ghost use Rattle.std.specs.Prelude.{◌≡◌, ◌<◌, ◌≤◌, min, not, ◌&&◌, length, is_some, Some, None, nat_le, position};
ghost use Rattle.book.specs.Cells.{nothing, same_cell};
ghost use Rattle.book.specs.Grossing.{plainly};
ghost use Rattle.slips.specs.Books.{standing_in, places_in, grossing_in};
ghost use Rattle.slips.specs.Slips.{Found, InRange, slip_at, cell_of, put_cell};
ghost use Rattle.slips.specs.Bounds.{readable_in, housed_in, bounded_in};

use crate::list::SlipBook;
use crate::slip::Slip;
use book::{LoadBook, check_cell, check_entry};
use refusal::Refusal;

/// As many places as there are cells.
const MOST_PLACES: usize = 6_400;

/// Where the first slip of a cell lies.
fn first_of(slips: &[Slip], segment: u8, quarter_hour: u8) -> Option<usize>
    ensures { result ≡ position (λ x. same_cell x.segment x.quarter_hour segment quarter_hour) slips.now }
{
    slips
        .iter()
        .position(|slip| slip.is_of(segment, quarter_hour))
}

impl<'a> SlipBook<'a> {
    /// A book in which nothing stands, whatever the list held.
    #[tactic(auto, unfolding(crate::specs::Slips::standing_of))]
    pub fn new(slips: &'a mut [Slip]) -> SlipBook<'a>
        ensures standing { standing_in result ≡ nothing }
        ensures places { places_in result ≡ min (length slips.old) 6400 }
        ensures grossing { grossing_in result ≡ (λ s q o. plainly o) }
    {
        SlipBook { slips, used: 0 }
    }

    /// How many readings can stand together.
    fn places(&self) -> usize
        ensures { result ≡ places_in self.now }
    {
        self.slips.len().min(MOST_PLACES)
    }

    /// Where the slip of a cell lies.
    fn find(&self, segment: u8, quarter_hour: u8) -> Option<usize>
        ensures { Found self.now.slips.now self.now.used segment quarter_hour result }
    {
        first_of(&self.slips[..self.used], segment, quarter_hour)
    }

    /// Whether a cell that was looked for has no slip and can get none, since every place is taken.
    fn lacks_place_for(&self, found: Option<usize>) -> bool
        ensures { result ≡ (not (is_some found) && nat_le (places_in self.now) self.now.used) }
    {
        found.is_none() && self.used >= self.places()
    }

    /// Gives the slip at a place another reading, and answers the one that it had.
    fn correct(&mut self, i: usize, reading: u32) -> u32
        requires place { i < self.old.used }
        requires limit { reading ≤ 1000000 }
        ensures answer { result ≡ (slip_at self.old.slips.now i).reading }
        ensures after { standing_in self.new ≡ put_cell (standing_in self.old) (slip_at self.old.slips.now i) (Some reading) }
        ensures places_kept { places_in self.new ≡ places_in self.old }
    {
        // By hand: `mem::replace` was tried, and lends out a part of the list, under whose ghost field no
        // proof is made of it.
        let before = self.slips[i].reading;
        self.slips[i].reading = reading;
        before
    }

    /// Lays a slip at the next place.
    fn add(&mut self, slip: Slip)
        requires place { self.old.used < length self.old.slips.now }
        requires range { InRange slip }
        requires free { cell_of (standing_in self.old) slip ≡ None }
        ensures after { standing_in self.new ≡ put_cell (standing_in self.old) slip (Some slip.reading) }
        ensures places_kept { places_in self.new ≡ places_in self.old }
    {
        self.slips[self.used] = slip;
        self.used += 1;
    }

    /// Takes out the slip at a place, whose place the last one takes, and answers its reading.
    fn remove(&mut self, i: usize) -> u32
        requires { i < self.old.used }
        ensures answer { result ≡ (slip_at self.old.slips.now i).reading }
        ensures after { standing_in self.new ≡ put_cell (standing_in self.old) (slip_at self.old.slips.now i) None }
        ensures places_kept { places_in self.new ≡ places_in self.old }
    {
        let reading = self.slips[i].reading;
        let last = self.used - 1;
        self.slips[i] = self.slips[last];
        self.used = last;
        reading
    }

    /// The reading that stands in a cell, or none.
    fn reading_of(&self, segment: u8, quarter_hour: u8) -> Option<u32>
        ensures { result ≡ standing_in self.now segment quarter_hour }
    {
        let i = self.find(segment, quarter_hour)?;
        Some(self.slips[i].reading)
    }
}

impl LoadBook for SlipBook<'_> {
    ghost standing = { standing_in };

    ghost places = { places_in };

    ghost grossing = { grossing_in };

    ghost readable = { readable_in };

    ghost housed = { housed_in };

    ghost bounded = { bounded_in };

    fn post(
        &mut self,
        segment: u8,
        quarter_hour: u8,
        reading: u32,
    ) -> Result<Option<u32>, Refusal> {
        check_entry(segment, quarter_hour, reading)?;
        let found = self.find(segment, quarter_hour);
        if self.lacks_place_for(found) {
            return Err(Refusal::NoPlace);
        }
        match found {
            Some(i) => Ok(Some(self.correct(i, reading))),
            None => {
                let slip = Slip {
                    segment,
                    quarter_hour,
                    reading,
                };
                self.add(slip);
                Ok(None)
            }
        }
    }

    fn withdraw(&mut self, segment: u8, quarter_hour: u8) -> Result<u32, Refusal> {
        check_cell(segment, quarter_hour)?;
        let i = self
            .find(segment, quarter_hour)
            .ok_or(Refusal::NothingStands)?;
        Ok(self.remove(i))
    }

    #[tactic(auto, unfolding(crate::specs::Slips::standing_of))]
    fn clear(&mut self) {
        self.used = 0;
    }

    // `read` and `load` read like a grid's: two lines each over what either book holds.
    fn read(&self, segment: u8, quarter_hour: u8) -> Result<Option<u32>, Refusal> {
        check_cell(segment, quarter_hour)?;
        Ok(self.reading_of(segment, quarter_hour))
    }

    fn free(&self) -> u32 {
        (self.places() - self.used) as u32
    }

    fn load(&self, segment: u8, quarter_hour: u8) -> Result<u32, Refusal> {
        check_cell(segment, quarter_hour)?;
        self.reading_of(segment, quarter_hour)
            .ok_or(Refusal::NoReading { segment, height: 0 })
    }
}
