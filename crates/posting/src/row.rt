// A row of readings for one segment, posted to a load book whole or not at all.
ghost use Rattle.std.specs.Prelude.{◌≡◌, ◌+◌, ◌≤◌, not, length, is_some, is_ok, if◌then◌else◌};
ghost use Rattle.std.specs.List.{AllByRecursion};
ghost use Rattle.book.specs.Cells.{count};
ghost use Rattle.posting.specs.Rows.{lacking, put_row, row_answer};

use book::LoadBook;
use refusal::Refusal;

/// Whether a quarter hour has no reading.
fn lacks<B: LoadBook>(book: &B, segment: u8, quarter_hour: u8) -> bool
    requires segment { segment ≤ 63 }
    requires quarter_hour { quarter_hour ≤ 99 }
    ensures { result ≡ not (is_some (B.LoadBook.standing book.now segment quarter_hour)) }
{
    !matches!(book.read(segment, quarter_hour), Ok(Some(_)))
}

/// How many of the first quarter hours of a segment have no reading.
fn count_lacking<B: LoadBook>(book: &B, segment: u8, quarter_hours: u8) -> u32
    requires segment { segment ≤ 63 }
    requires quarter_hours { quarter_hours ≤ 100 }
    ensures value { result ≡ lacking (B.LoadBook.standing book.now) segment quarter_hours }
    ensures bound { result ≤ quarter_hours }
{
    (0..quarter_hours)
        .filter(|&q| lacks(book, segment, q))
        .count() as u32
}

/// Posts the readings, a quarter hour each.
fn post_each<B: LoadBook>(book: &mut B, segment: u8, readings: &[u32])
    requires segment { segment ≤ 63 }
    requires quarter_hours { length readings.now ≤ 100 }
    requires readable { AllByRecursion (λ r. r ≤ 1000000) readings.now }
    requires places { count (B.LoadBook.standing book.old) + lacking (B.LoadBook.standing book.old) segment (length readings.now) ≤ B.LoadBook.places book.old }
    ensures after { B.LoadBook.standing book.new ≡ put_row (B.LoadBook.standing book.old) segment readings.now }
    ensures places_kept { B.LoadBook.places book.new ≡ B.LoadBook.places book.old }
    ensures grossing_kept { B.LoadBook.grossing book.new ≡ B.LoadBook.grossing book.old }
{
    for (q, &reading) in readings.iter().enumerate() {
        let _ = book.post(segment, q as u8, reading);
    }
}

/// Posts a row of readings to a segment, all of them or none, and answers how many quarter hours
/// had a reading before. Refused exactly where more of them lack a reading than places are left.
pub(crate) fn post_row<B: LoadBook>(
    book: &mut B,
    segment: u8,
    readings: &[u32],
) -> Result<u32, Refusal>
    requires segment { segment ≤ 63 }
    requires quarter_hours { length readings.now ≤ 100 }
    requires readable { AllByRecursion (λ r. r ≤ 1000000) readings.now }
    ensures answer { result ≡ row_answer (B.LoadBook.standing book.old) (B.LoadBook.places book.old) segment readings.now }
    ensures after { B.LoadBook.standing book.new ≡ (if is_ok result then put_row (B.LoadBook.standing book.old) segment readings.now else B.LoadBook.standing book.old) }
    ensures places_kept { B.LoadBook.places book.new ≡ B.LoadBook.places book.old }
    ensures grossing_kept { B.LoadBook.grossing book.new ≡ B.LoadBook.grossing book.old }
{
    let quarter_hours = readings.len() as u8;
    let lacks = count_lacking(book, segment, quarter_hours);
    if lacks > book.free() {
        return Err(Refusal::NoPlace);
    }
    post_each(book, segment, readings);
    Ok(u32::from(quarter_hours) - lacks)
}
