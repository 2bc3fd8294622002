ghost use Rattle.std.specs.Prelude.{◌≡◌, ◌<◌, ◌≤◌, length, MatchOption};
ghost use Rattle.meaning.specs.Words.{word};

use crate::areas;

// Words that have their first N, which say how to read the others.
#[derive(Clone, Copy)]
pub struct Header<'a, const N: usize> {
    pub words: &'a [u32],
    pub ghost long: { N ≤ length words.now },
}

impl<'a, const N: usize> Header<'a, N> {
    // The header of the words, or none if they are too few.
    pub fn of(words: &'a [u32]) -> Option<Self>
        ensures { MatchOption result (length words.now < N) (λ h. h.words.now ≡ words.now) }
    {
        if words.len() < N {
            return None;
        }
        Some(Header { words })
    }

    // Word i of the header.
    pub fn at(&self, i: usize) -> usize
        requires { i < N }
        ensures { (result ≡ word self.now.words.now i) × (result < 4294967296) }
    {
        areas::at(self.words, i)
    }
}
