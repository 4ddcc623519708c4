// What a statement tells of a quarter hour that has answers, line by line.
ghost use Rattle.std.specs.Prelude.{◌≡◌, ℕ, ◌+◌, ◌<◌, ◌≤◌, length, unsigned_abs};
ghost use Rattle.roll.specs.Entries.{rows_of};
ghost use Rattle.statement.specs.Statement.{pair_line, pair_lines, share_lines, or_refusal};
ghost use Rattle.statement.specs.Writing.{Appends, Fits, loads_of, lack_of, shares_of, balance_text};

use crate::listed::{has_pair, has_qse};
use crate::page::Page;
use balance::Balance;
use roll::Roll;

/// A balance, and the roll that it was worked out for.
#[derive(Drop)]
pub(crate) struct Account<'a> {
    pub(crate) roll: &'a Roll,
    pub(crate) balance: Balance,
    ghost ufe: { unsigned_abs balance.ufe ≤ 416000000 },
    ghost loads: { (qse point : ℕ) → qse < 16 → point < 8 → unsigned_abs (loads_of balance qse point) ≤ 672000000 },
}

impl Account<'_> {
    /// The line of a pair, if the roll has it.
    fn put_pair(&self, qse: u8, point: u8, page: &mut Page)
        requires qse { qse < 16 }
        requires point { point < 8 }
        requires room { Fits page.old (pair_line (rows_of self.now.roll.now) (loads_of self.now.balance) qse point) }
        ensures { Appends page.old (pair_line (rows_of self.now.roll.now) (loads_of self.now.balance) qse point) page.new }
    {
        if has_pair(self.roll, qse, point) {
            let load = self.balance.rtaml(qse, point).unwrap();
            page.put_line(b'A', &[i64::from(qse), i64::from(point), load]);
        }
    }

    /// The lines of all pairs, upward by QSE and settlement point.
    fn put_pairs(&self, page: &mut Page)
        requires { Fits page.old (pair_lines (rows_of self.now.roll.now) (loads_of self.now.balance)) }
        ensures { Appends page.old (pair_lines (rows_of self.now.roll.now) (loads_of self.now.balance)) page.new }
    {
        for qse in 0..16u8 {
            for point in 0..8u8 {
                self.put_pair(qse, point, page);
            }
        }
    }

    /// The lines of the QSEs that the roll has, upward by QSE: each has at most 26 bytes.
    fn put_shares(&self, shares: &[i64; 16], page: &mut Page)
        requires { page.old.at + 416 ≤ length page.old.text.now }
        ensures { Appends page.old (share_lines (rows_of self.now.roll.now) shares.now) page.new }
    {
        for (qse, share) in shares.iter().enumerate() {
            if has_qse(self.roll, qse as u8) {
                page.put_line(b'S', &[qse as i64, *share]);
            }
        }
    }

    /// The lines of the shares, or that there are none.
    fn put_sharing(&self, page: &mut Page)
        requires { page.old.at + 416 ≤ length page.old.text.now }
        ensures { Appends page.old (or_refusal (lack_of self.now.balance) (share_lines (rows_of self.now.roll.now) (shares_of self.now.balance))) page.new }
    {
        let mut shares = [0i64; 16];
        match self.balance.shares(&mut shares) {
            Ok(()) => self.put_shares(&shares, page),
            Err(refusal) => page.put_refusal(&refusal),
        }
    }

    /// The whole text, which has at most 1,592 bytes.
    pub(crate) fn put(&self, page: &mut Page)
        requires { page.old.at + 1592 ≤ length page.old.text.now }
        ensures { Appends page.old (balance_text (rows_of self.now.roll.now) self.now.balance) page.new }
    {
        page.put_line(b'G', &[self.balance.generation(), self.balance.ufe()]);
        self.put_pairs(page);
        self.put_sharing(page);
    }
}
