ghost use Rattle.std.specs.Prelude.{◌≡◌, true, length};
ghost use Rattle.std.specs.Ordering.{MatchOrdering};
ghost use Rattle.meaning.specs.Graph.{node, less};

use std::cmp::Ordering;

// An operator and its children's classes. Keys are ordered by operator, then arity, then children.
#[derive(Clone, Copy, PartialEq, Eq, PartialOrd, Ord)]
pub struct Key<'a> {
    pub op: usize,
    pub arity: usize,
    pub kids: &'a [u32],
    pub ghost counted: { arity ≡ length kids.now },
}

impl<'a> Key<'a> {
    ghost use Rattle.words.specs.Keys.{node_of};

    // The key op(kids).
    pub fn new(op: usize, kids: &'a [u32]) -> Self
        ensures { node_of result ≡ node op kids.now }
    {
        Key {
            op,
            arity: kids.len(),
            kids,
        }
    }

    // Which of the two keys comes first, if they are not the same.
    pub fn order(&self, other: &Key) -> Ordering
        ensures { MatchOrdering result (less (node_of self.now) (node_of other.now) ≡ true) (node_of self.now ≡ node_of other.now) (less (node_of other.now) (node_of self.now) ≡ true) }
    {
        self.cmp(other)
    }

    // Whether this key comes before the other. The last two lemmas serve the bodies of its must-fail edits, which
    // compare again and would be refused for their form without them.
    #[tactic(auto, using(crate::proofs::Order::first, crate::proofs::Order::no_earlier, crate::proofs::Order::no_lower_child))]
    pub fn before(&self, other: &Key) -> bool
        ensures { result ≡ less (node_of self.now) (node_of other.now) }
    {
        self.order(other).is_lt()
    }
}
