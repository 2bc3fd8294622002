ghost use Rattle.std.specs.Prelude.{◌≡◌, ◌<◌};
ghost use Rattle.meaning.specs.GoodPattern.{Downward};
ghost use Rattle.meaning.specs.PatternWords.{kind_at};
ghost use Rattle.pattern.specs.Kinds.{number};

use crate::{Kind, Parts};

// A pattern whose nodes can be walked from the children up: kinds and arities are good, the children's
// ranges join, and each child stands before its node. That each node is used, that no two are
// the same and that occurrences are few is no part of it.
#[derive(Clone, Copy)]
pub struct Pattern<'a> {
    pub parts: Parts<'a>,
    pub ghost nodes: { Downward parts.words.now },
}

impl Pattern<'_> {
    pub const MAX_NODES: usize = 64;

    pub const MAX_CHILDREN: usize = 512;

    pub const MAX_ARITY: usize = 8;

    pub const MAX_OCCURRENCES: u32 = 256;

    // The kind of node i.
    pub fn kind_of(&self, i: usize) -> Kind
        requires { i < self.now.parts.counts.n }
        ensures { number result ≡ kind_at self.now.parts.words.now i }
    {
        Kind::try_from(self.parts.kind_at(i)).unwrap()
    }
}
