ghost use Rattle.std.specs.Prelude.{◌≡◌, ◌<◌};
ghost use Rattle.meaning.specs.Good.{Joined};
ghost use Rattle.meaning.specs.PatternWords.{kind_at, number_at, degree_at, start_at, children_of};
ghost use Rattle.meaning.specs.PatternRefusal.{is_same, is_new, good_once};

use crate::Parts;

// The nodes of parts whose children's ranges join: each node has its children.
#[derive(Clone, Copy)]
pub struct Nodes<'a> {
    pub parts: Parts<'a>,
    pub ghost joined: { Joined (start_at parts.words.now) (degree_at parts.words.now) parts.counts.n parts.counts.k },
}

// What a node says. The kind is a number, since `good_once` asks nothing of the kinds.
#[derive(Clone, Copy, PartialEq, Eq)]
struct Node<'a> {
    kind: usize,
    number: usize,
    children: &'a [u32],
}

impl<'a> Nodes<'a> {
    // Node i.
    fn node(&self, i: usize) -> Node<'a>
        requires { i < self.now.parts.counts.n }
        ensures { (result.kind ≡ kind_at self.now.parts.words.now i) × (result.number ≡ number_at self.now.parts.words.now i) × (result.children.now ≡ children_of self.now.parts.words.now i) }
    {
        Node {
            kind: self.parts.kind_at(i),
            number: self.parts.number_at(i),
            children: self.parts.children(i),
        }
    }

    // Whether nodes i and j have equal kind, number and children.
    fn is_same(&self, i: usize, j: usize) -> bool
        requires { (i < self.now.parts.counts.n) × (j < self.now.parts.counts.n) }
        ensures { result ≡ is_same self.now.parts.words.now i j }
    {
        self.node(i) == self.node(j)
    }

    // Whether no node before j says the same as j.
    fn is_new(&self, j: usize) -> bool
        requires { j < self.now.parts.counts.n }
        ensures { result ≡ is_new self.now.parts.words.now j }
    {
        (0..j).all(|i| !self.is_same(i, j))
    }

    // Whether no two nodes say the same.
    pub fn good_once(&self) -> bool
        ensures { result ≡ good_once self.now.parts.words.now }
    {
        (0..self.parts.counts.n).all(|j| self.is_new(j))
    }
}
