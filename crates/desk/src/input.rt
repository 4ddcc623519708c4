// The lines of the standard input.
use crate::line::Line;
use std::io;
use std::io::{Read, Stdin};

/// How many bytes are read at a time.
// The block stands in place, since memory stays fixed: std's BufReader takes one from the heap.
const BLOCK: usize = 8_192;

/// The bytes, of which those of the block from `at` up to `end` are still to come.
#[derive(Drop)]
struct Bytes {
    stdin: Stdin,
    block: [u8; BLOCK],
    at: usize,
    end: usize,
}

impl Bytes {
    /// Reads a block where nothing of the last is still to come.
    fn fill(&mut self) -> io::Result<()> {
        if self.at >= self.end {
            self.end = self.stdin.read(&mut self.block)?;
            self.at = 0;
        }
        Ok(())
    }

    /// What of the block is still to come.
    fn rest(&self) -> &[u8] {
        self.block.get(self.at..self.end).unwrap_or_default()
    }

    /// Goes past so many bytes of the block.
    fn pass(&mut self, bytes: usize) {
        self.at = self.at.saturating_add(bytes);
    }
}

/// The lines, one after the other, the last with or without its line end.
// Each is read over the one before: with a line of its own for each, a blank line took some sixty times as long.
#[derive(Drop)]
pub struct Lines {
    bytes: Bytes,
    line: Line,
}

impl Lines {
    pub fn new(stdin: Stdin) -> Lines {
        Lines {
            bytes: Bytes {
                stdin,
                block: [0; BLOCK],
                at: 0,
                end: 0,
            },
            line: Line::empty(),
        }
    }

    /// Reads on to the next line that has a field. Answers whether there was one before the end of the
    /// input.
    pub fn read(&mut self) -> io::Result<bool> {
        for _ in 0..u64::MAX {
            if !self.read_line()? {
                return Ok(false);
            }
            if !self.line.is_empty() {
                return Ok(true);
            }
        }
        Ok(false)
    }

    /// Reads the next line. Answers whether there was one before the end of the input.
    fn read_line(&mut self) -> io::Result<bool> {
        let mut begun = false;
        self.line.clear();
        // a loop is proved to end, and no line has as many blocks
        for _ in 0..u64::MAX {
            self.bytes.fill()?;
            let rest = self.bytes.rest();
            if rest.is_empty() {
                break;
            }
            begun = true;
            if let Some(end) = rest.iter().position(|b| *b == b'\n') {
                self.line.take_all(&rest[..end]);
                self.bytes.pass(end + 1);
                break;
            }
            let all = rest.len();
            self.line.take_all(rest);
            self.bytes.pass(all);
        }
        self.line.end_field();
        Ok(begun)
    }

    /// The line that was read last.
    pub fn line(&self) -> &Line {
        &self.line
    }
}
