// Bytes, numbers and lines, written one behind another into a lent list.
ghost use Rattle.std.specs.Prelude.{◌+◌, ◌≤◌, ◌∷◌, length};
ghost use Rattle.refusal.specs.Table.{answer_of};
ghost use Rattle.statement.specs.Statement.{answer_line};
ghost use Rattle.statement.specs.Text.{numeral, line};
ghost use Rattle.statement.specs.Writing.{Appends, Fits};

use itoa::Buffer;
use refusal::Refusal;

/// A lent list, and how far it is written: callers hand over 2,048 bytes, and keep what is behind the text.
#[derive(Drop)]
pub(crate) struct Page<'a> {
    pub(crate) text: &'a mut [u8],
    pub(crate) at: usize,
}

impl Page<'_> {
    fn put(&mut self, bytes: &[u8])
        requires { Fits self.old bytes.now }
        ensures { Appends self.old bytes.now self.new }
    {
        let end = self.at + bytes.len();
        self.text[self.at..end].copy_from_slice(bytes);
        self.at = end;
    }

    /// A space and a number.
    fn put_field(&mut self, n: i64)
        requires { Fits self.old (32 ∷ numeral n) }
        ensures { Appends self.old (32 ∷ numeral n) self.new }
    {
        self.put(b" ");
        self.put(Buffer::new().format(n).as_bytes());
    }

    /// A letter, the numbers with a space before each, and the line's end.
    pub(crate) fn put_line(&mut self, letter: u8, numbers: &[i64])
        requires { Fits self.old (line letter numbers.now) }
        ensures { Appends self.old (line letter numbers.now) self.new }
    {
        self.put(&[letter]);
        for n in numbers {
            self.put_field(*n);
        }
        self.put(b"\n");
    }

    /// The line of a refusal, which has at most 15 bytes.
    pub(crate) fn put_refusal(&mut self, refusal: &Refusal)
        requires { self.old.at + 15 ≤ length self.old.text.now }
        ensures { Appends self.old (answer_line (answer_of refusal.now)) self.new }
    {
        let answer = refusal.answer();
        self.put_line(
            b'R',
            &[
                i64::from(answer.number),
                i64::from(answer.subject),
                i64::from(answer.height),
            ],
        );
    }
}
