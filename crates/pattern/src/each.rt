ghost use Rattle.std.specs.Prelude.{◌≡◌, ◌+◌, ◌<◌, ◌≤◌};
ghost use Rattle.meaning.specs.Ranges.{end_before};
ghost use Rattle.meaning.specs.PatternWords.{degree_at, start_at};
ghost use Rattle.meaning.specs.PatternRefusal.{good_below, good_part_at, good_parts};
ghost use Rattle.pattern.specs.Laid.{good_arity};

use crate::{Kind, Parts, Pattern};
use words::ranges::Ranges;

// Whether a node of this kind may have this arity: a variable 0, an operator at most 8.
#[tactic(auto, unfolding(crate::specs::Laid::good_arity, meaning::specs::Tests::and))]
fn good_arity(kind: usize, arity: usize) -> bool
    ensures { result ≡ good_arity kind arity }
{
    match Kind::try_from(kind) {
        Ok(Kind::Variable) => arity == 0,
        Ok(Kind::Operator) => arity <= Pattern::MAX_ARITY,
        Err(_) => false,
    }
}

impl Parts<'_> {
    // Whether each child of node i is below it.
    fn good_below(&self, i: usize) -> bool
        requires { (i < self.now.counts.n) × (start_at self.now.words.now i + degree_at self.now.words.now i ≤ self.now.counts.k) }
        ensures { result ≡ good_below self.now.words.now i }
    {
        self.children(i).iter().all(|c| (*c as usize) < i)
    }

    // Node i by itself: its kind, its arity, its children's range and numbers.
    #[tactic(auto, unfolding(meaning::specs::PatternRefusal::good_part_at, crate::specs::Laid::good_arity, meaning::specs::Tests::and))]
    fn good_at(&self, i: usize) -> bool
        requires { i < self.now.counts.n }
        ensures { result ≡ good_part_at self.now.words.now i }
    {
        let arity = self.degree_at(i);
        let first = self.start_at(i);
        good_arity(self.kind_at(i), arity)
            && first == self.end_before(i)
            && first + arity <= self.counts.k
            && self.good_below(i)
    }

    // Each node by itself, with the children's ranges from 0 to k.
    pub fn good_each(&self) -> bool
        ensures { result ≡ good_parts self.now.words.now }
    {
        (0..self.counts.n).all(|i| self.good_at(i))
            && self.end_before(self.counts.n) == self.counts.k
    }
}
