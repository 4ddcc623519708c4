// A line as it comes in: its fields, parted by spaces, up to a comment.
ghost use Rattle.std.specs.Prelude.{◌≡◌, ◌||◌, ◌==◌};
ghost use Rattle.desk.specs.Fields.{empty_field, with_byte};
ghost use Rattle.desk.specs.Lines.{fields_ended, fields_after, current_after};

use crate::field::Field;
use arrayvec::ArrayVec;

/// The longest word of a line has twelve letters. One byte more tells it from a longer one.
const WORD: usize = 13;

/// A profile's five first fields, and one weight more than the longest day has.
const FIELDS: usize = 106;

#[derive(Drop)]
pub struct Line {
    /// The first field, as far as it is told from other words.
    word: ArrayVec<u8, WORD>,
    fields: ArrayVec<Field, FIELDS>,
    /// Whether a field beyond those kept was no whole number.
    stray: bool,
    current: Field,
    comment: bool,
}

impl Line {
    pub fn empty() -> Line {
        Line {
            word: ArrayVec::new(),
            fields: ArrayVec::new(),
            stray: false,
            current: Field::default(),
            comment: false,
        }
    }

    /// Lets go of what was read.
    pub fn clear(&mut self) {
        self.word.clear();
        self.fields.clear();
        self.stray = false;
        self.current = Field::default();
        self.comment = false;
    }

    /// Bytes more, none of which ends the line. Those of a comment are passed over.
    pub fn take_all(&mut self, bytes: &[u8]) {
        for b in bytes {
            if self.comment {
                return;
            }
            self.take(*b);
        }
    }

    /// One byte more, which does not end the line.
    fn take(&mut self, b: u8)
        ensures fields { self.new.fields.items ≡ fields_after self.old b }
        ensures current { self.new.current ≡ current_after self.old b }
        ensures comment { self.new.comment ≡ (self.old.comment || b == 35) }
    {
        if self.comment {
            return;
        }
        match b {
            b'#' => {
                self.end_field();
                self.comment = true;
            }
            b' ' => self.end_field(),
            _ => self.add(b),
        }
    }

    fn add(&mut self, b: u8)
        ensures fields { self.new.fields ≡ self.old.fields }
        ensures current { self.new.current ≡ with_byte self.old.current b }
        ensures comment { self.new.comment ≡ self.old.comment }
    {
        if self.fields.is_empty() {
            // what does not fit is left out: the word is longer than any
            let _ = self.word.try_push(b);
        }
        self.current = self.current.with(b);
    }

    /// Ends the field that was being read, if there is one.
    pub fn end_field(&mut self)
        ensures fields { self.new.fields.items ≡ fields_ended self.old }
        ensures current { self.new.current ≡ empty_field }
        ensures comment { self.new.comment ≡ self.old.comment }
    {
        let field = self.current;
        self.current = Field::default();
        if field.is_empty() {
            return;
        }
        if self.fields.try_push(field).is_err() && field.whole().is_none() {
            self.stray = true;
        }
    }

    /// Whether there is no field.
    pub fn is_empty(&self) -> bool {
        self.fields.is_empty()
    }

    /// The first field, or the beginning of one that is longer than any word.
    pub fn word(&self) -> &[u8] {
        &self.word
    }

    /// The fields after the word, as many as are kept: more than any line has but a profile, and there
    /// more than any day has.
    pub fn fields(&self) -> &[Field] {
        match &self.fields[..] {
            [] => &[],
            [_, fields @ ..] => fields,
        }
    }

    /// Whether a field beyond those kept was no whole number.
    pub fn has_stray(&self) -> bool {
        self.stray
    }
}
