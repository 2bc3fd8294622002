ghost use Rattle.std.specs.Prelude.{◌≡◌, ℕ, ◌+◌, ◌<◌, ◌≤◌, length};
ghost use Rattle.meaning.specs.Words.{word, find_at, record_word, node_word, id_at, first_at, count_at, op_at, arity_at, kid_at, owner_at, child_at, index_at, node_at};
ghost use Rattle.meaning.specs.Good.{Placed};
ghost use Rattle.meaning.specs.Graph.{less};

use crate::key::Key;
use meaning::Layout;

// The word at i, as an index: callers add words to places and index by them, and the bound says that this
// fits.
pub fn at(t: &[u32], i: usize) -> usize
    requires { i < length t.now }
    ensures { (result ≡ word t.now i) × (result < 4294967296) }
{
    t[i] as usize
}

// The words of a table, and where its areas stand in them.
#[derive(Clone, Copy)]
pub struct Areas<'a> {
    pub words: &'a [u32],
    pub layout: Layout,
    pub ghost placed: { Placed words.now layout },
}

impl<'a> Areas<'a> {
    ghost use Rattle.words.specs.Keys.{node_of};

    // find[x], by its place in the find list: a reader that follows find[find[x]] works out once where the
    // list starts.
    pub fn find_at(&self, x: usize) -> usize
        requires { x < self.now.layout.i }
        ensures { (result ≡ find_at self.now.words.now self.now.layout x) × (result < 4294967296) }
    {
        at(&self.words[self.layout.find..], x)
    }

    // Word f of class record j: what the reads of its fields below share. Each field keeps its name, since
    // a caller that gave f itself would be no plainer.
    fn record_word(&self, j: usize, f: usize) -> usize
        requires { (j < self.now.layout.c) × (f < 3) }
        ensures { (result ≡ record_word self.now.words.now self.now.layout j f) × (result < 4294967296) }
    {
        at(self.words, self.layout.classes + j * self.layout.width + f)
    }

    // The id of class record j.
    pub fn id_at(&self, j: usize) -> usize
        requires { j < self.now.layout.c }
        ensures { (result ≡ id_at self.now.words.now self.now.layout j) × (result < 4294967296) }
    {
        self.record_word(j, 0)
    }

    // The first node of class record j.
    pub fn first_at(&self, j: usize) -> usize
        requires { j < self.now.layout.c }
        ensures { (result ≡ first_at self.now.words.now self.now.layout j) × (result < 4294967296) }
    {
        self.record_word(j, 1)
    }

    // The node count of class record j.
    pub fn count_at(&self, j: usize) -> usize
        requires { j < self.now.layout.c }
        ensures { (result ≡ count_at self.now.words.now self.now.layout j) × (result < 4294967296) }
    {
        self.record_word(j, 2)
    }

    // Word f of node i, read by the fields' names like a class record's.
    fn node_word(&self, i: usize, f: usize) -> usize
        requires { (i < self.now.layout.n) × (f < 4) }
        ensures { (result ≡ node_word self.now.words.now self.now.layout i f) × (result < 4294967296) }
    {
        at(self.words, self.layout.nodes + 4 * i + f)
    }

    // The operator of node i.
    pub fn op_at(&self, i: usize) -> usize
        requires { i < self.now.layout.n }
        ensures { (result ≡ op_at self.now.words.now self.now.layout i) × (result < 4294967296) }
    {
        self.node_word(i, 0)
    }

    // The arity of node i.
    pub fn arity_at(&self, i: usize) -> usize
        requires { i < self.now.layout.n }
        ensures { (result ≡ arity_at self.now.words.now self.now.layout i) × (result < 4294967296) }
    {
        self.node_word(i, 1)
    }

    // The place of node i's first child.
    pub fn kid_at(&self, i: usize) -> usize
        requires { i < self.now.layout.n }
        ensures { (result ≡ kid_at self.now.words.now self.now.layout i) × (result < 4294967296) }
    {
        self.node_word(i, 2)
    }

    // The class that node i names as its owner.
    pub fn owner_at(&self, i: usize) -> usize
        requires { i < self.now.layout.n }
        ensures { (result ≡ owner_at self.now.words.now self.now.layout i) × (result < 4294967296) }
    {
        self.node_word(i, 3)
    }

    // The child at place x of the children area.
    pub fn child_at(&self, x: usize) -> usize
        requires { x < self.now.layout.k }
        ensures { (result ≡ child_at self.now.words.now self.now.layout x) × (result < 4294967296) }
    {
        at(self.words, self.layout.children + x)
    }

    // The node that the index names at place x.
    pub fn index_at(&self, x: usize) -> usize
        requires { x < self.now.layout.n }
        ensures { (result ≡ index_at self.now.words.now self.now.layout x) × (result < 4294967296) }
    {
        at(self.words, self.layout.index + x)
    }

    // The children of node i: that part of the lent table, uncopied. A pattern's `Parts::children` cuts
    // another area; one function for both would share the slice expression alone, and be no plainer.
    pub fn children(&self, i: usize) -> &'a [u32]
        requires { (i < self.now.layout.n) × (kid_at self.now.words.now self.now.layout i + arity_at self.now.words.now self.now.layout i ≤ self.now.layout.k) }
        ensures { result.now ≡ (node_at self.now.words.now self.now.layout i).kids }
    {
        let a = self.layout.children + self.kid_at(i);
        let e = a + self.arity_at(i);
        &self.words[a..e]
    }

    // The key of node i.
    pub fn key_at(&self, i: usize) -> Key<'a>
        requires { (i < self.now.layout.n) × (kid_at self.now.words.now self.now.layout i + arity_at self.now.words.now self.now.layout i ≤ self.now.layout.k) }
        ensures { node_of result ≡ node_at self.now.words.now self.now.layout i }
    {
        Key::new(self.op_at(i), self.children(i))
    }

    // Whether node i comes before node j. Operators that differ tell it at once.
    #[inline(always)]
    #[tactic(auto, using(crate::proofs::Order::told_by_operators))]
    pub fn node_before(&self, i: usize, j: usize) -> bool
        requires { (i < self.now.layout.n) × (kid_at self.now.words.now self.now.layout i + arity_at self.now.words.now self.now.layout i ≤ self.now.layout.k) × (j < self.now.layout.n) × (kid_at self.now.words.now self.now.layout j + arity_at self.now.words.now self.now.layout j ≤ self.now.layout.k) }
        ensures { result ≡ less (node_at self.now.words.now self.now.layout i) (node_at self.now.words.now self.now.layout j) }
    {
        let op = self.op_at(i);
        let other = self.op_at(j);
        if op != other {
            return op < other;
        }
        self.key_before(i, j)
    }

    // Whether node i comes before node j, by their keys. Kept apart from `node_before`, it leaves the loops that
    // compare nodes their registers, and no key is written down.
    #[inline(never)]
    fn key_before(&self, i: usize, j: usize) -> bool
        requires { (i < self.now.layout.n) × (kid_at self.now.words.now self.now.layout i + arity_at self.now.words.now self.now.layout i ≤ self.now.layout.k) × (j < self.now.layout.n) × (kid_at self.now.words.now self.now.layout j + arity_at self.now.words.now self.now.layout j ≤ self.now.layout.k) }
        ensures { result ≡ less (node_at self.now.words.now self.now.layout i) (node_at self.now.words.now self.now.layout j) }
    {
        self.key_at(i).before(&self.key_at(j))
    }
}
