// The record that a slip book keeps for each reading.
ghost use Rattle.std.specs.Prelude.{◌≡◌};
ghost use Rattle.book.specs.Cells.{same_cell};

/// One reading: the Wh of a segment in a quarter hour.
#[derive(Clone, Copy, PartialEq, Eq, Debug, Default)]
pub struct Slip {
    pub segment: u8,
    pub quarter_hour: u8,
    pub reading: u32,
}

impl Slip {
    /// Whether this is the reading of a cell.
    pub(crate) fn is_of(&self, segment: u8, quarter_hour: u8) -> bool
        ensures { result ≡ same_cell self.now.segment self.now.quarter_hour segment quarter_hour }
    {
        self.segment == segment && self.quarter_hour == quarter_hour
    }
}
