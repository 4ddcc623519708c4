// The whole text of a quarter hour.
ghost use Rattle.std.specs.Prelude.{◌≡◌, ◌+◌, ◌≤◌, true, ◌++◌, length, drop, is_ok, if◌then◌else◌};
ghost use Rattle.balance.specs.Gathering.{quarter, quarter_in};
ghost use Rattle.balance.specs.Questions.{ok_unless, late_at, misfit};
ghost use Rattle.balance.specs.Totals.{or_else};
ghost use Rattle.statement.specs.Law.{LeavesNothingOut};
ghost use Rattle.statement.specs.Statement.{statement_of};
ghost use Rattle.statement.specs.Writing.{Appends};

use crate::account::Account;
use crate::page::Page;
use balance::{Figures, QuarterHour};
use book::LoadBook;
use refusal::Refusal;
use roll::Roll;

/// How many bytes a list for a statement has: the longest text fits.
const ROOM: usize = 2048;

/// The text of a quarter hour, or the line of its refusal.
fn put_statement<B: LoadBook>(quarter_hour: &QuarterHour<B>, page: &mut Page)
    requires quarter_hour { quarter_hour.now.quarter_hour ≤ 99 }
    requires room { page.old.at + 1592 ≤ length page.old.text.now }
    ensures { Appends page.old (statement_of (quarter B.LoadBook quarter_hour.now)) page.new }
{
    let roll = quarter_hour.roll;
    match quarter_hour.balance() {
        Ok(balance) => Account { roll, balance }.put(page),
        Err(refusal) => page.put_refusal(&refusal),
    }
}

/// Writes the statement of a quarter hour from the start of a list of 2,048 bytes, and answers its
/// length. A quarter hour without answers has its refusal in the text. Refused, in this order: a
/// quarter hour past the book's, a list of another length.
pub fn write_statement<B: LoadBook>(
    quarter_hour: &QuarterHour<B>,
    text: &mut [u8],
) -> Result<usize, Refusal>
    ensures answer { result ≡ ok_unless (or_else (late_at quarter_hour.now.quarter_hour) (misfit 2048 (length text.old))) (length (statement_of (quarter B.LoadBook quarter_hour.now))) }
    ensures after { text.new ≡ (if is_ok result then statement_of (quarter B.LoadBook quarter_hour.now) ++ drop (length (statement_of (quarter B.LoadBook quarter_hour.now))) text.old else text.old) }
    ensures fits { is_ok result ≡ true → length (statement_of (quarter B.LoadBook quarter_hour.now)) ≤ 2048 }
    ensures law { LeavesNothingOut (quarter B.LoadBook quarter_hour.now) }
{
    if quarter_hour.quarter_hour > 99 {
        return Err(Refusal::QuarterHour);
    }
    if text.len() != ROOM {
        return Err(Refusal::ListLength);
    }
    let mut page = Page { text, at: 0 };
    put_statement(quarter_hour, &mut page);
    Ok(page.at)
}

/// The same, of a quarter hour whose roll, book and figures are handed over one by one: for code that
/// names its book.
pub fn write_statement_of<B: LoadBook>(
    roll: &Roll,
    book: &B,
    figures: &Figures,
    quarter_hour: u8,
    text: &mut [u8],
) -> Result<usize, Refusal>
    ensures answer { result ≡ ok_unless (or_else (late_at quarter_hour) (misfit 2048 (length text.old))) (length (statement_of (quarter_in roll.now (B.LoadBook.grossing book.now) (B.LoadBook.standing book.now) figures.now quarter_hour))) }
    ensures after { text.new ≡ (if is_ok result then statement_of (quarter_in roll.now (B.LoadBook.grossing book.now) (B.LoadBook.standing book.now) figures.now quarter_hour) ++ drop (length (statement_of (quarter_in roll.now (B.LoadBook.grossing book.now) (B.LoadBook.standing book.now) figures.now quarter_hour))) text.old else text.old) }
    ensures fits { is_ok result ≡ true → length (statement_of (quarter_in roll.now (B.LoadBook.grossing book.now) (B.LoadBook.standing book.now) figures.now quarter_hour)) ≤ 2048 }
    ensures law { LeavesNothingOut (quarter_in roll.now (B.LoadBook.grossing book.now) (B.LoadBook.standing book.now) figures.now quarter_hour) }
{
    let quarter = QuarterHour {
        roll,
        book,
        figures,
        quarter_hour,
    };
    write_statement(&quarter, text)
}
