// One field of a line, read byte by byte. Only what a field can be read as is kept, so it may be
// as long as it likes.
ghost use Rattle.std.specs.Prelude.{◌≡◌, ℕ, ◌-◌, ◌||◌, List, if◌then◌else◌, nat_le, nat_lt};
ghost use Rattle.desk.specs.Fields.{is_digit_byte, appended, starts_character, is_nothing, numeral_with, character_with, with_byte, whole_of, figure_of, field_of, whole_text};

use crate::number::to_i32;

/// The largest number that is told from those above it. No field has a limit as high.
pub const LARGEST: u64 = u64::MAX;

/// What the bytes of a field make, in their order.
#[derive(Clone, Copy, Default)]
enum Numeral {
    /// There is no byte yet.
    #[default]
    Nothing,
    /// A minus sign alone.
    Minus,
    /// The number that digits make, or LARGEST.
    Whole(u64),
    /// The same, with a minus sign in front.
    Negative(u64),
    Other,
}

#[derive(Clone, Copy, Default)]
pub struct Field {
    numeral: Numeral,
    /// The first byte of a field that has one character.
    character: Option<u8>,
}

fn is_digit(b: u8) -> bool
    ensures { result ≡ is_digit_byte b }
{
    b.is_ascii_digit()
}

/// A number with one digit more at its end.
fn append(value: u64, digit: u8) -> u64
    ensures { result ≡ appended value digit }
{
    value.saturating_mul(10).saturating_add(u64::from(digit))
}

/// Whether a byte begins a character of its own, in UTF-8.
fn begins_character(b: u8) -> bool
    ensures { result ≡ starts_character b }
{
    b < 0x80 || b >= 0xc0
}

impl Numeral {
    fn is_nothing(self) -> bool
        ensures { result ≡ is_nothing self }
    {
        matches!(self, Numeral::Nothing)
    }

    /// What is read with a byte more.
    fn with(self, b: u8) -> Numeral
        ensures { result ≡ numeral_with self b }
    {
        if is_digit(b) {
            let digit = b - b'0';
            match self {
                Numeral::Nothing => Numeral::Whole(append(0, digit)),
                Numeral::Minus => Numeral::Negative(append(0, digit)),
                Numeral::Whole(value) => Numeral::Whole(append(value, digit)),
                Numeral::Negative(value) => Numeral::Negative(append(value, digit)),
                Numeral::Other => Numeral::Other,
            }
        } else if self.is_nothing() && b == b'-' {
            Numeral::Minus
        } else {
            Numeral::Other
        }
    }
}

impl Field {
    pub fn is_empty(&self) -> bool
        ensures { result ≡ is_nothing self.now.numeral }
    {
        self.numeral.is_nothing()
    }

    /// The first byte where there is one character, with a byte more.
    fn character_with(self, b: u8) -> Option<u8>
        ensures { result ≡ character_with self b }
    {
        if self.is_empty() {
            Some(b)
        } else if begins_character(b) {
            None
        } else {
            self.character
        }
    }

    /// The field with a byte more.
    pub fn with(self, b: u8) -> Field
        ensures { result ≡ with_byte self b }
    {
        Field {
            numeral: self.numeral.with(b),
            character: self.character_with(b),
        }
    }

    /// The whole number that the field is, with digits only.
    pub fn whole(&self) -> Option<u64>
        ensures field { result ≡ whole_of self.now }
        ensures text { (bytes : List ℕ) → self.now ≡ field_of bytes → result ≡ whole_text bytes }
    {
        match self.numeral {
            Numeral::Whole(value) => Some(value),
            _ => None,
        }
    }

    /// The figure that the field is, where a minus sign may stand in front. One that is too large for
    /// its place stays at the largest there, on its own side of zero.
    pub fn figure(&self) -> Option<i32>
        ensures { result ≡ figure_of self.now }
    {
        match self.numeral {
            Numeral::Whole(size) => Some(to_i32(size)),
            Numeral::Negative(size) => Some(-to_i32(size)),
            _ => None,
        }
    }

    /// The first byte of a field that has one character.
    pub fn character(&self) -> Option<u8> {
        self.character
    }
}
