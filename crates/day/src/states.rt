// The states of a day as types, and the three steps between them. A step takes the day it starts
// from, so a program that posts to a sealed day, or reopens a final one, cannot be written.
ghost use Rattle.roll.specs.Drafts.{day_of, roll_of};
ghost use Rattle.day.specs.Holding.{setting_by, day_setting, day_slate, Holds};
ghost use Rattle.day.specs.Slate.{blank_slate};

use balance::Figures;
use book::LoadBook;
use roll::{DayLength, Draft, Roll};

mod checks;
pub mod entries;
pub mod questions;

/// The first settlement of a day.
#[derive(Clone, Copy)]
pub struct Initial;

/// The second, which is the last.
#[derive(Clone, Copy)]
pub struct Final;

/// Takes entries.
#[derive(Drop)]
pub struct Open<G: Drop> {
    stage: G,
}

/// Takes questions only.
#[derive(Drop)]
pub struct Sealed<G: Drop> {
    stage: G,
}

/// A day in one of its states. Which calls there are goes by the state. Its length and roll stay;
/// what was entered is the readings in its load book, and the generation figures.
// No `impl Model`: what its `Value` would be, the setting and the slate, holds functions, which have
// no code. So a clause names the two as `day_setting B.LoadBook day` and `day_slate B.LoadBook day`.
#[derive(Drop)]
pub struct Day<B: LoadBook + Drop, S: Drop> {
    length: DayLength,
    roll: Roll,
    book: B,
    figures: Figures,
    state: S,
}

impl<B: LoadBook + Drop> Day<B, Open<Initial>> {
    /// The day of a draft, over a book that is cleared first.
    pub fn open(draft: Draft, book: B) -> Day<B, Open<Initial>>
        ensures { Holds B.LoadBook result (setting_by (day_of draft) (roll_of draft) (B.LoadBook.places book) (B.LoadBook.grossing book)) blank_slate }
    {
        let (length, roll) = draft.into_parts();
        let mut book = book;
        book.clear();
        Day {
            length,
            roll,
            book,
            figures: Figures::none(),
            state: Open { stage: Initial },
        }
    }
}

impl<B: LoadBook + Drop, G: Drop> Day<B, Open<G>> {
    /// From here on only questions are taken. All that stands stays.
    pub fn seal(self) -> Day<B, Sealed<G>>
        ensures { Holds B.LoadBook result (day_setting B.LoadBook self) (day_slate B.LoadBook self) }
    {
        let Day {
            length,
            roll,
            book,
            figures,
            state,
        } = self;
        let Open { stage } = state;
        Day {
            length,
            roll,
            book,
            figures,
            state: Sealed { stage },
        }
    }
}

impl<B: LoadBook + Drop> Day<B, Sealed<Initial>> {
    /// Entries are taken again, for the second settlement. All that stands stays.
    pub fn reopen(self) -> Day<B, Open<Final>>
        ensures { Holds B.LoadBook result (day_setting B.LoadBook self) (day_slate B.LoadBook self) }
    {
        let Day {
            length,
            roll,
            book,
            figures,
            state,
        } = self;
        let Sealed { stage: Initial } = state;
        Day {
            length,
            roll,
            book,
            figures,
            state: Open { stage: Final },
        }
    }
}
