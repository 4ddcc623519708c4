// The interface of a load book. A book is known by its meaning alone: what stands in it, how many
// places it has, and what a reading, or none, grosses to. Code above is proved once, against that.
#![tactic(auto)]

ghost use Rattle.std.specs.Prelude.{◌≡◌, ℕ, ◌-◌, ◌≤◌, is_ok, if◌then◌else◌, Some, None, Ok, Err, Option, nat_lt};
ghost use Rattle.refusal.specs.declared.Refusal.TheVariants as refused;
ghost use Rattle.book.specs.Answers.{cell_answer, post_answer, withdraw_answer, read_answer, load_answer};
ghost use Rattle.book.specs.Cells.{Standing, Readable, nothing, put, count};
ghost use Rattle.book.specs.Grossing.{Grossing, Bounded};

use refusal::Refusal;

/// That a quarter hour is one of the 100 that a book has.
pub fn check_quarter_hour(quarter_hour: u8) -> Result<(), Refusal>
    ensures { result ≡ (if nat_lt 99 quarter_hour then Err refused.QuarterHour else Ok tt) }
{
    if quarter_hour > 99 {
        return Err(Refusal::QuarterHour);
    }
    Ok(())
}

/// That there is a cell: the segment is looked at first, then the quarter hour.
pub fn check_cell(segment: u8, quarter_hour: u8) -> Result<(), Refusal>
    ensures { result ≡ cell_answer segment quarter_hour (Ok tt) }
{
    if segment > 63 {
        return Err(Refusal::SegmentNumber);
    }
    check_quarter_hour(quarter_hour)
}

/// That a reading could stand in a cell that there is.
pub fn check_entry(segment: u8, quarter_hour: u8, reading: u32) -> Result<(), Refusal>
    ensures { result ≡ cell_answer segment quarter_hour (if nat_lt 1000000 reading then Err refused.Reading else Ok tt) }
{
    check_cell(segment, quarter_hour)?;
    if reading > 1_000_000 {
        return Err(Refusal::Reading);
    }
    Ok(())
}

/// Readings by cell: a segment, 0 to 63, and a quarter hour, 0 to 99.
// A cell is two numbers and no type: loops go over one of them, what stands is a function of both, and
// a pair would be made for each call and taken apart in each clause.
pub trait LoadBook {
    /// The reading of each cell, or none.
    ghost standing: { Self → Standing };

    /// How many readings can stand together.
    ghost places: { Self → ℕ };

    /// What each cell's load is, or why it has none, for each reading and for none. It does not
    /// depend on what stands, and no call changes it.
    ghost grossing: { Self → Grossing };

    /// A standing reading is at most 1,000,000 Wh.
    ghost readable: { (b : Self) (s q : ℕ) → Readable (standing b s q) };

    /// No more readings stand than there are places.
    ghost housed: { (b : Self) → count (standing b) ≤ places b };

    /// A load is at most 4,000,000 Wh, and a fault's height at most 255.
    ghost bounded: { (b : Self) (s q : ℕ) (r : Option ℕ) → Readable r → Bounded (grossing b s q r) };

    /// Puts a reading into a cell, and answers the one that stood there before.
    fn post(&mut self, segment: u8, quarter_hour: u8, reading: u32) -> Result<Option<u32>, Refusal>
        ensures answer { result ≡ post_answer (standing self.old) (places self.old) segment quarter_hour reading }
        ensures after { standing self.new ≡ (if is_ok result then put (standing self.old) segment quarter_hour (Some reading) else standing self.old) }
        ensures places_kept { places self.new ≡ places self.old }
        ensures grossing_kept { grossing self.new ≡ grossing self.old };

    /// Empties a cell, and answers the reading that stood there.
    fn withdraw(&mut self, segment: u8, quarter_hour: u8) -> Result<u32, Refusal>
        ensures answer { result ≡ withdraw_answer (standing self.old) segment quarter_hour }
        ensures after { standing self.new ≡ (if is_ok result then put (standing self.old) segment quarter_hour None else standing self.old) }
        ensures places_kept { places self.new ≡ places self.old }
        ensures grossing_kept { grossing self.new ≡ grossing self.old };

    /// Empties every cell.
    fn clear(&mut self)
        ensures after { standing self.new ≡ nothing }
        ensures places_kept { places self.new ≡ places self.old }
        ensures grossing_kept { grossing self.new ≡ grossing self.old };

    /// The reading that stands in a cell, or none.
    fn read(&self, segment: u8, quarter_hour: u8) -> Result<Option<u32>, Refusal>
        ensures { result ≡ read_answer (standing self.now) segment quarter_hour };

    /// How many places are left.
    fn free(&self) -> u32
        ensures { result ≡ places self.now - count (standing self.now) };

    /// The load of a cell: what stands there, grossed.
    fn load(&self, segment: u8, quarter_hour: u8) -> Result<u32, Refusal>
        ensures { result ≡ load_answer segment quarter_hour (grossing self.now segment quarter_hour (standing self.now segment quarter_hour)) };
}
