ghost use Rattle.std.specs.Prelude.{◌≡◌, ℕ, ◌+◌, ◌<◌, ◌≤◌};
ghost use Rattle.meaning.specs.Pattern.{occ, occurrences};
ghost use Rattle.meaning.specs.PatternWords.{pattern_of};
ghost use Rattle.pattern.specs.Counts.{capped, CountedTo};

use crate::Pattern;

// x, or one past the limit if it is more.
fn capped(x: u32) -> u32
    ensures { (result ≡ capped x) × (result ≤ Pattern.MAX_OCCURRENCES + 1) }
{
    x.min(Pattern::MAX_OCCURRENCES + 1)
}

impl Pattern<'_> {
    // The occurrences of node i, from those of the nodes before it. A loop of its own beside the
    // compiler's `weight_of`, since it caps each sum.
    #[tactic(auto, using(crate::proofs::Children::node_facts))]
    fn occurrences_of(&self, i: usize, known: &[u32; Pattern::MAX_NODES]) -> u32
        requires { (i < self.now.parts.counts.n) × CountedTo self.now.parts.words.now known.now i }
        ensures { result ≡ capped (occ (pattern_of self.now.parts.words.now) i) }
    {
        let mut total = 1;
        for c in self.parts.children(i) {
            total = capped(total + known[*c as usize]);
        }
        total
    }

    // The occurrences of the pattern, shared children counted each time, or 257 if they are more: the number
    // is what the clause promises, so no `Option` stands for it.
    pub fn occurrences(&self) -> u32
        ensures { result ≡ capped (occurrences (pattern_of self.now.parts.words.now)) }
    {
        let mut known = [0; Pattern::MAX_NODES];
        // By place into an array: `iter_mut` would not let a node read the numbers before its own, and of
        // a list that grows `occurrences_of` would ask for the length as well.
        for i in 0..self.parts.counts.n {
            known[i] = self.occurrences_of(i, &known);
        }
        known[self.parts.counts.n - 1]
    }
}
