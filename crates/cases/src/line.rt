use arrayvec::ArrayVec;
use std::io;
use std::io::Write;

// What a line is, by its first byte.
#[derive(Clone, Copy, PartialEq, Eq)]
enum Kind {
    // No byte tells yet.
    Unknown,
    Table,
    Title,
    Other,
}

impl From<u8> for Kind {
    fn from(b: u8) -> Self {
        match b {
            0 => Kind::Unknown,
            b't' => Kind::Table,
            b'#' => Kind::Title,
            _ => Kind::Other,
        }
    }
}

// The words of a line. A line of more than 20,480 keeps one more, and has no answer.
pub type Words = ArrayVec<u32, 20481>;

// A line so far: what it is, and the number that is being read. Its words stand beside it, so that a line is
// copied at no cost.
#[derive(Clone, Copy)]
pub struct Line {
    kind: Kind,
    number: Option<u64>,
}

impl Line {
    pub fn new() -> Self {
        Line {
            kind: Kind::Unknown,
            number: None,
        }
    }

    // Ends the number that is being read, if there is one: it is a word.
    fn end_number(&mut self, words: &mut Words) {
        if let Some(n) = self.number {
            let _ = words.try_push((n % 4294967296) as u32);
            self.number = None;
        }
    }

    // Takes a byte into the line. Those of a title are written out as well.
    fn take<W: Write>(&mut self, out: &mut W, words: &mut Words, b: u8) -> io::Result<()> {
        if self.kind == Kind::Unknown {
            self.kind = Kind::from(b);
        }
        if self.kind == Kind::Title {
            return out.write_all(&[b]);
        }
        // A digit at a time, and of a number that is too long the words' last 32 bits: `parse` reads a whole text
        // and refuses such a number.
        match b {
            b'0'..=b'9' => {
                let n = self.number.unwrap_or(0) % 4294967296;
                self.number = Some(n * 10 + u64::from(b - b'0'));
            }
            _ => self.end_number(words),
        }
        Ok(())
    }

    // The answer to the line.
    fn answer<W: Write>(self, out: &mut W, words: &Words) -> io::Result<()> {
        if self.kind == Kind::Table && words.len() <= 20480 {
            let number = meaning::number_of(checker::check(words.as_slice()));
            writeln!(out, "{number}")?;
        }
        Ok(())
    }

    // Takes a byte. One that ends the line has it answered, and begins the next.
    pub fn read<W: Write>(&mut self, out: &mut W, words: &mut Words, b: u8) -> io::Result<()> {
        self.take(out, words, b)?;
        if b == b'\n' {
            self.answer(out, words)?;
            self.kind = Kind::Unknown;
            words.clear();
        }
        Ok(())
    }
}
