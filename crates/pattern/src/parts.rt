ghost use Rattle.std.specs.Prelude.{◌≡◌, ◌+◌, ◌<◌, ◌≤◌};
ghost use Rattle.meaning.specs.PatternWords.{part_word, kind_at, number_at, degree_at, start_at, child_of, children_of};
ghost use Rattle.pattern.specs.Laid.{Laid};

use crate::Counts;
use words::areas;
use words::ranges::Ranges;

// A pattern's words with its counts, which say where the node records and the children stand.
#[derive(Clone, Copy)]
pub struct Parts<'a> {
    pub words: &'a [u32],
    pub counts: Counts,
    pub ghost laid: { Laid words.now counts },
}

impl<'a> Parts<'a> {
    // Word f of node i: what the reads of its fields below share. Each field keeps its name, since a caller
    // that gave f itself would be no plainer.
    fn part_word(&self, i: usize, f: usize) -> usize
        requires { (i < self.now.counts.n) × (f < 4) }
        ensures { (result ≡ part_word self.now.words.now i f) × (result < 4294967296) }
    {
        areas::at(self.words, 4 + 4 * i + f)
    }

    // The kind of node i: 0 for a variable, 1 for an operator.
    pub fn kind_at(&self, i: usize) -> usize
        requires { i < self.now.counts.n }
        ensures { (result ≡ kind_at self.now.words.now i) × (result < 4294967296) }
    {
        self.part_word(i, 0)
    }

    // The variable or the operator of node i.
    pub fn number_at(&self, i: usize) -> usize
        requires { i < self.now.counts.n }
        ensures { (result ≡ number_at self.now.words.now i) × (result < 4294967296) }
    {
        self.part_word(i, 1)
    }

    // The arity of node i.
    pub fn degree_at(&self, i: usize) -> usize
        requires { i < self.now.counts.n }
        ensures { (result ≡ degree_at self.now.words.now i) × (result < 4294967296) }
    {
        self.part_word(i, 2)
    }

    // The place of node i's first child.
    pub fn start_at(&self, i: usize) -> usize
        requires { i < self.now.counts.n }
        ensures { (result ≡ start_at self.now.words.now i) × (result < 4294967296) }
    {
        self.part_word(i, 3)
    }

    // The child at place x of the children area.
    pub fn child_of(&self, x: usize) -> usize
        requires { x < self.now.counts.k }
        ensures { (result ≡ child_of self.now.words.now x) × (result < 4294967296) }
    {
        areas::at(self.words, 4 + 4 * self.counts.n + x)
    }

    // The children of node i: that part of the lent pattern, uncopied. A table's `Areas::children` cuts
    // another area; one function for both would share the slice expression alone, and be no plainer.
    pub fn children(&self, i: usize) -> &'a [u32]
        requires { (i < self.now.counts.n) × (start_at self.now.words.now i + degree_at self.now.words.now i ≤ self.now.counts.k) }
        ensures { result.now ≡ children_of self.now.words.now i }
    {
        let a = 4 + 4 * self.counts.n + self.start_at(i);
        let e = a + self.degree_at(i);
        &self.words[a..e]
    }
}

// Each node's children.
impl Ranges for Parts<'_> {
    ghost start = { λ p. start_at p.words.now };

    ghost count = { λ p. degree_at p.words.now };

    ghost number = { λ p. p.counts.n };

    fn start(&self, i: usize) -> usize {
        self.start_at(i)
    }

    fn count(&self, i: usize) -> usize {
        self.degree_at(i)
    }
}
