// How a quarter hour is marked, and how the marks are counted.
ghost use Rattle.std.specs.Prelude.{◌≡◌, ℕ, ◌^◌, ◌<◌, ◌≤◌, true, false, if◌then◌else◌, ◌==◌, nat_eq};
ghost use Rattle.std.specs.Int.{bit_at};
ghost use Rattle.grid.specs.Marks.{mark, mark_count, bit_count, marks_at, Turned};
ghost use Rattle.grid.specs.Held.{marked};

use crate::marks::Marks;

fn is_set(word: u64, k: u8) -> bool
    requires { k < 64 }
    ensures { result ≡ (bit_at word k == 1) }
{
    word & (1u64 << k) != 0
}

fn set(word: u64, k: u8) -> u64
    requires { k < 64 }
    ensures bits { (j : ℕ) → bit_at result j ≡ (if nat_eq j k then 1 else bit_at word j) }
    ensures width { (w : ℕ) → k < w → word < 2 ^ w → result < 2 ^ w }
{
    word | (1u64 << k)
}

fn cleared(word: u64, k: u8) -> u64
    requires { k < 64 }
    ensures bits { (j : ℕ) → bit_at result j ≡ (if nat_eq j k then 0 else bit_at word j) }
    ensures width { result ≤ word }
{
    word & !(1u64 << k)
}

impl Marks {
    /// No quarter hour marked, in any segment.
    pub(crate) fn none() -> [Marks; 64]
        ensures marks { (s q : ℕ) → marked result s q ≡ false }
        ensures day_end { (s : ℕ) → (marks_at result s).late < 2 ^ 36 }
    {
        [Marks { early: 0, late: 0 }; 64]
    }

    /// Whether a quarter hour is marked.
    #[tactic(auto, unfolding(crate::specs::Marks::mark))]
    pub(crate) fn has(self, quarter_hour: u8) -> bool
        requires { quarter_hour < 100 }
        ensures { result ≡ mark self quarter_hour }
    {
        if quarter_hour < 64 {
            is_set(self.early, quarter_hour)
        } else {
            is_set(self.late, quarter_hour - 64)
        }
    }

    // One function for `with` and `without` would take a flag, and choose by it between `set` and
    // `cleared` for either word: no plainer.
    /// The same marks with this one set.
    pub(crate) fn with(mut self, quarter_hour: u8) -> Marks
        requires { quarter_hour < 100 }
        ensures marks { Turned self quarter_hour true result }
        ensures width { self.late < 2 ^ 36 → result.late < 2 ^ 36 }
    {
        if quarter_hour < 64 {
            self.early = set(self.early, quarter_hour);
            return self;
        }
        self.late = set(self.late, quarter_hour - 64);
        self
    }

    /// The same marks without this one.
    pub(crate) fn without(mut self, quarter_hour: u8) -> Marks
        requires { quarter_hour < 100 }
        ensures marks { Turned self quarter_hour false result }
        ensures width { self.late < 2 ^ 36 → result.late < 2 ^ 36 }
    {
        if quarter_hour < 64 {
            self.early = cleared(self.early, quarter_hour);
            return self;
        }
        self.late = cleared(self.late, quarter_hour - 64);
        self
    }

    /// How many quarter hours are marked.
    pub(crate) fn count(self) -> u32
        ensures bits { result ≡ bit_count self }
        ensures bound { result ≤ 128 }
        ensures value { self.late < 2 ^ 36 → result ≡ mark_count self }
    {
        self.early.count_ones() + self.late.count_ones()
    }
}
