// Who is on the roll.
ghost use Rattle.std.specs.Prelude.{◌≡◌};
ghost use Rattle.roll.specs.Entries.{rows_of};
ghost use Rattle.statement.specs.Statement.{lists_pair, lists_qse};

use roll::Roll;

/// Whether a segment on the roll has the pair.
pub(crate) fn has_pair(roll: &Roll, qse: u8, point: u8) -> bool
    ensures { result ≡ lists_pair (rows_of roll.now) qse point }
{
    roll.rows().iter().any(|row| row.is_some_and(|row| qse == row.qse && point == row.point))
}

/// Whether a segment on the roll has the QSE.
pub(crate) fn has_qse(roll: &Roll, qse: u8) -> bool
    ensures { result ≡ lists_qse (rows_of roll.now) qse }
{
    roll.rows()
        .iter()
        .any(|row| row.is_some_and(|row| qse == row.qse))
}
