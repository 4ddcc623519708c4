// How figures are entered, struck and read.
ghost use Rattle.std.specs.Prelude.{◌≡◌, ◌≤◌, pos, is_ok, if◌then◌else◌, Some, None, Ok, Err, nat_lt, unsigned_abs};
ghost use Rattle.std.specs.Option.{unwrap_or};
ghost use Rattle.refusal.specs.declared.Refusal.TheVariants as refused;
ghost use Rattle.book.specs.Tables.{blank, put_at};
ghost use Rattle.balance.specs.Figures.{figures_of, figure_answer, strike_answer};

use crate::figures::Figures;
use book::check_quarter_hour;
use refusal::Refusal;

/// That a figure has a place: the quarter hour is looked at first, then the site.
fn check_place(site: u8, quarter_hour: u8) -> Result<(), Refusal>
    ensures { result ≡ (if nat_lt 99 quarter_hour then Err refused.QuarterHour else (if nat_lt 15 site then Err refused.SiteNumber else Ok tt)) }
{
    check_quarter_hour(quarter_hour)?;
    if site > 15 {
        return Err(Refusal::SiteNumber);
    }
    Ok(())
}

impl Figures {
    /// No figure stands.
    pub fn none() -> Figures
        ensures { figures_of result ≡ blank }
    {
        Figures {
            table: [[None; 100]; 16],
        }
    }

    /// The figure of a site and quarter hour, or none.
    pub fn at(&self, site: u8, quarter_hour: u8) -> Option<i32>
        ensures value { result ≡ figures_of self.now site quarter_hour }
        ensures within { unsigned_abs (unwrap_or result (pos 0)) ≤ 10000000 }
    {
        *self
            .table
            .get(usize::from(site))?
            .get(usize::from(quarter_hour))?
    }

    fn put(&mut self, site: u8, quarter_hour: u8, content: Option<i32>)
        requires site { site ≤ 15 }
        requires quarter_hour { quarter_hour ≤ 99 }
        requires within { unsigned_abs (unwrap_or content (pos 0)) ≤ 10000000 }
        ensures { figures_of self.new ≡ put_at site quarter_hour content (figures_of self.old) }
    {
        self.table[site as usize][quarter_hour as usize] = content;
    }

    /// Enters a figure, and answers the one that stood before.
    pub fn enter(&mut self, site: u8, quarter_hour: u8, wh: i32) -> Result<Option<i32>, Refusal>
        ensures answer { result ≡ figure_answer (figures_of self.old) site quarter_hour wh }
        ensures after { figures_of self.new ≡ (if is_ok result then put_at site quarter_hour (Some wh) (figures_of self.old) else figures_of self.old) }
    {
        check_place(site, quarter_hour)?;
        if wh.unsigned_abs() > 10_000_000 {
            return Err(Refusal::Figure);
        }
        let earlier = self.at(site, quarter_hour);
        self.put(site, quarter_hour, Some(wh));
        Ok(earlier)
    }

    /// Takes a figure back, and answers it.
    pub fn strike(&mut self, site: u8, quarter_hour: u8) -> Result<i32, Refusal>
        ensures answer { result ≡ strike_answer (figures_of self.old) site quarter_hour }
        ensures after { figures_of self.new ≡ (if is_ok result then put_at site quarter_hour None (figures_of self.old) else figures_of self.old) }
    {
        check_place(site, quarter_hour)?;
        let earlier = self.at(site, quarter_hour).ok_or(Refusal::NothingStands)?;
        self.put(site, quarter_hour, None);
        Ok(earlier)
    }
}
