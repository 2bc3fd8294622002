ghost use Rattle.std.specs.Prelude.{◌≡◌};
ghost use Rattle.meaning.specs.GoodPattern.{PatternLimits};
ghost use Rattle.meaning.specs.PatternRefusal.{good_pattern_limits, good_pattern_shape};
ghost use Rattle.pattern.specs.Laid.{Counted};

use crate::Pattern;
use words::header::Header;

// A pattern's counts, read once: nodes and children.
#[derive(Clone, Copy)]
pub struct Counts {
    pub n: usize,
    pub k: usize,
}

impl Counts {
    // The counts of the words.
    pub fn of(header: &Header<4>) -> Self
        ensures { Counted header.now.words.now result }
    {
        Counts {
            n: header.at(0),
            k: header.at(1),
        }
    }
}

// Whether the counts are within their limits: at least one node. A table's header is tested in this shape,
// over other words and limits: what the two share is `Header`.
#[tactic(auto, unfolding(meaning::specs::PatternRefusal::good_pattern_limits, meaning::specs::Tests::and))]
pub fn good_limits(header: &Header<4>) -> bool
    ensures { result ≡ good_pattern_limits header.now.words.now }
{
    let n = header.at(0);
    1 <= n && n <= Pattern::MAX_NODES && header.at(1) <= Pattern::MAX_CHILDREN
}

// Whether the offsets and the length are those that the counts ask for.
#[tactic(auto, unfolding(meaning::specs::PatternRefusal::good_pattern_shape, meaning::specs::Tests::and))]
pub fn good_shape(header: &Header<4>, counts: Counts) -> bool
    requires { PatternLimits header.now.words.now × Counted header.now.words.now counts }
    ensures { result ≡ good_pattern_shape header.now.words.now }
{
    header.at(2) == 4
        && header.at(3) == 4 + 4 * counts.n
        && header.words.len() == 4 + 4 * counts.n + counts.k
}
