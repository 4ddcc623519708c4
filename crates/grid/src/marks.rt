// The marks of one segment: which of its 100 quarter hours have a reading.

mod marking;

/// The early word has the quarter hours 0 to 63, the late word those from 64 on. That no bit stands
/// past the last of them is a grid's to say: with a ghost field here, no type could be made of a grid
/// in code that is not generic in its book.
#[derive(Clone, Copy)]
pub(crate) struct Marks {
    pub(crate) early: u64,
    pub(crate) late: u64,
}
