ghost use Rattle.std.specs.Prelude.{◌≡◌, ℕ, ◌<◌, ◌≤◌};
ghost use Rattle.meaning.specs.Ranges.{end_before};
ghost use Rattle.meaning.specs.Words.{first_at, count_at, kid_at, arity_at};

use crate::areas::Areas;

// Numbered ranges of an area, each by its start and its count. That a range starts where the one before it
// ends, and that the last ends with the area, callers compare by themselves: a method would be no plainer.
pub trait Ranges {
    ghost start: { Self → ℕ → ℕ };

    ghost count: { Self → ℕ → ℕ };

    ghost number: { Self → ℕ };

    // Where range j starts.
    fn start(&self, j: usize) -> usize
        requires { j < number self.now }
        ensures { (result ≡ start self.now j) × (result < 4294967296) };

    // How many range j has.
    fn count(&self, j: usize) -> usize
        requires { j < number self.now }
        ensures { (result ≡ count self.now j) × (result < 4294967296) };

    // Where the range before range j ends: 0 before the first.
    #[tactic(auto, using(meaning::specs::Laws::Ends::none_before, meaning::specs::Laws::Ends::one_before))]
    fn end_before(&self, j: usize) -> usize
        requires { j ≤ number self.now }
        ensures { (result ≡ end_before (start self.now) (count self.now) j) × (result < 8589934592) }
    {
        if j == 0 {
            return 0;
        }
        self.start(j - 1) + self.count(j - 1)
    }
}

// The nodes of each class record.
#[derive(Clone, Copy)]
pub struct RecordNodes<'t, 'a>(pub &'t Areas<'a>);

impl Ranges for RecordNodes<'_, '_> {
    ghost start = { λ r. first_at r.0.now.words.now r.0.now.layout };

    ghost count = { λ r. count_at r.0.now.words.now r.0.now.layout };

    ghost number = { λ r. r.0.now.layout.c };

    fn start(&self, j: usize) -> usize {
        self.0.first_at(j)
    }

    fn count(&self, j: usize) -> usize {
        self.0.count_at(j)
    }
}

// The children of each node.
#[derive(Clone, Copy)]
pub struct NodeKids<'t, 'a>(pub &'t Areas<'a>);

impl Ranges for NodeKids<'_, '_> {
    ghost start = { λ r. kid_at r.0.now.words.now r.0.now.layout };

    ghost count = { λ r. arity_at r.0.now.words.now r.0.now.layout };

    ghost number = { λ r. r.0.now.layout.n };

    fn start(&self, j: usize) -> usize {
        self.0.kid_at(j)
    }

    fn count(&self, j: usize) -> usize {
        self.0.arity_at(j)
    }
}
