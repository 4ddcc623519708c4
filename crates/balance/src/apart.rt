// The questions about a quarter hour whose roll, book and figures are handed over one by one: each makes
// the quarter hour and asks it. They are for code that names its book: where that holds a list lent to it
// under a table of losses, the checker makes no `QuarterHour` of it but in code that is generic in its book.
ghost use Rattle.std.specs.Prelude.{◌≡◌, true, map, length, pos, is_ok, if◌then◌else◌};
ghost use Rattle.std.specs.List.{range_with_len};
ghost use Rattle.split.specs.Parts.{sum_of};
ghost use Rattle.balance.specs.Balance.{ufe as ufe_of, adjusted, rtaml as rtaml_of, shares as shares_of};
ghost use Rattle.balance.specs.Gathering.{quarter_in};
ghost use Rattle.balance.specs.Laws.{Balanced};
ghost use Rattle.balance.specs.Quarter.{sheet_of, refusal_of_quarter, refusal_of_shares};
ghost use Rattle.balance.specs.Questions.{AnsweredAs, ok_unless, late_at, misfit, nowhere};
ghost use Rattle.balance.specs.Totals.{or_else};

use crate::figures::Figures;
use crate::questions::{QuarterHour, Ufe};
use crate::settled::Balance;
use book::LoadBook;
use refusal::Refusal;
use roll::Roll;

/// The balance, worked out once, with its refusals in their order.
pub fn balance_of<B: LoadBook>(
    roll: &Roll,
    book: &B,
    figures: &Figures,
    quarter_hour: u8,
) -> Result<Balance, Refusal>
    ensures { AnsweredAs result quarter_hour (quarter_in roll.now (B.LoadBook.grossing book.now) (B.LoadBook.standing book.now) figures.now quarter_hour) }
{
    QuarterHour {
        roll,
        book,
        figures,
        quarter_hour,
    }
    .balance()
}

/// The adjusted load of each segment into a list of 64, 0 off the roll.
pub fn adjusted_loads<B: LoadBook>(
    roll: &Roll,
    book: &B,
    figures: &Figures,
    quarter_hour: u8,
    list: &mut [i64],
) -> Result<(), Refusal>
    ensures answer { result ≡ ok_unless (or_else (late_at quarter_hour) (or_else (misfit 64 (length list.old)) (refusal_of_quarter (quarter_in roll.now (B.LoadBook.grossing book.now) (B.LoadBook.standing book.now) figures.now quarter_hour)))) tt }
    ensures after { list.new ≡ (if is_ok result then map (adjusted (sheet_of (quarter_in roll.now (B.LoadBook.grossing book.now) (B.LoadBook.standing book.now) figures.now quarter_hour))) (range_with_len 0 64) else list.old) }
    ensures adds_up { is_ok result ≡ true → sum_of list.new ≡ (sheet_of (quarter_in roll.now (B.LoadBook.grossing book.now) (B.LoadBook.standing book.now) figures.now quarter_hour)).generation }
    ensures law { is_ok result ≡ true → Balanced (sheet_of (quarter_in roll.now (B.LoadBook.grossing book.now) (B.LoadBook.standing book.now) figures.now quarter_hour)) }
{
    QuarterHour {
        roll,
        book,
        figures,
        quarter_hour,
    }
    .adjusted_loads(list)
}

/// RTAML of a QSE at a settlement point, 0 where it has no segment there.
pub fn rtaml<B: LoadBook>(
    roll: &Roll,
    book: &B,
    figures: &Figures,
    quarter_hour: u8,
    qse: u8,
    point: u8,
) -> Result<i64, Refusal>
    ensures answer { result ≡ ok_unless (or_else (late_at quarter_hour) (or_else (nowhere qse point) (refusal_of_quarter (quarter_in roll.now (B.LoadBook.grossing book.now) (B.LoadBook.standing book.now) figures.now quarter_hour)))) (rtaml_of (sheet_of (quarter_in roll.now (B.LoadBook.grossing book.now) (B.LoadBook.standing book.now) figures.now quarter_hour)) qse point) }
    ensures law { is_ok result ≡ true → Balanced (sheet_of (quarter_in roll.now (B.LoadBook.grossing book.now) (B.LoadBook.standing book.now) figures.now quarter_hour)) }
{
    QuarterHour {
        roll,
        book,
        figures,
        quarter_hour,
    }
    .rtaml(qse, point)
}

/// G with U.
pub fn generation_and_ufe<B: LoadBook>(
    roll: &Roll,
    book: &B,
    figures: &Figures,
    quarter_hour: u8,
) -> Result<Ufe, Refusal>
    ensures answer { result ≡ ok_unless (or_else (late_at quarter_hour) (refusal_of_quarter (quarter_in roll.now (B.LoadBook.grossing book.now) (B.LoadBook.standing book.now) figures.now quarter_hour))) (record { generation = (sheet_of (quarter_in roll.now (B.LoadBook.grossing book.now) (B.LoadBook.standing book.now) figures.now quarter_hour)).generation; ufe = ufe_of (sheet_of (quarter_in roll.now (B.LoadBook.grossing book.now) (B.LoadBook.standing book.now) figures.now quarter_hour)) }) }
    ensures law { is_ok result ≡ true → Balanced (sheet_of (quarter_in roll.now (B.LoadBook.grossing book.now) (B.LoadBook.standing book.now) figures.now quarter_hour)) }
{
    QuarterHour {
        roll,
        book,
        figures,
        quarter_hour,
    }
    .generation_and_ufe()
}

/// The load ratio share of each QSE, in billionths, into a list of 16.
pub fn shares<B: LoadBook>(
    roll: &Roll,
    book: &B,
    figures: &Figures,
    quarter_hour: u8,
    list: &mut [i64],
) -> Result<(), Refusal>
    ensures answer { result ≡ ok_unless (or_else (late_at quarter_hour) (or_else (misfit 16 (length list.old)) (refusal_of_shares (quarter_in roll.now (B.LoadBook.grossing book.now) (B.LoadBook.standing book.now) figures.now quarter_hour)))) tt }
    ensures after { list.new ≡ (if is_ok result then shares_of (sheet_of (quarter_in roll.now (B.LoadBook.grossing book.now) (B.LoadBook.standing book.now) figures.now quarter_hour)) else list.old) }
    ensures adds_up { is_ok result ≡ true → sum_of list.new ≡ pos 1000000000 }
    ensures law { is_ok result ≡ true → Balanced (sheet_of (quarter_in roll.now (B.LoadBook.grossing book.now) (B.LoadBook.standing book.now) figures.now quarter_hour)) }
{
    QuarterHour {
        roll,
        book,
        figures,
        quarter_hour,
    }
    .shares(list)
}
