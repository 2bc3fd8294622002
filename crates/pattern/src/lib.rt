#![tactic(auto)]
// Patterns: any words give a good pattern, or why they are refused, in document 01's order.
pub mod each;
pub mod good;
pub mod header;
pub mod kind;
pub mod occurrences;
pub mod once;
pub mod parts;
pub mod used;

ghost use Rattle.std.specs.Prelude.{◌≡◌};
ghost use Rattle.meaning.specs.PatternRefusal.{good_pattern_nodes};
ghost use Rattle.pattern.specs.Opened.{Opened};

pub use good::Pattern;
pub use header::Counts;
pub use kind::{Kind, UnknownKind};
use meaning::Refusal;
pub use once::Nodes;
pub use parts::Parts;
use words::header::Header;

// A good pattern with its occurrences.
#[derive(Clone, Copy)]
pub struct Checked<'a> {
    pub pattern: Pattern<'a>,
    pub occurrences: u32,
}

// The node rule.
#[tactic(auto, unfolding(meaning::specs::PatternRefusal::good_pattern_nodes, meaning::specs::Tests::and))]
fn good_nodes(parts: &Parts) -> bool
    ensures { result ≡ good_pattern_nodes parts.now.words.now }
{
    parts.good_each() && parts.good_use() && Nodes { parts: *parts }.good_once()
}

// Any words as a pattern: why they are refused, by document 01's number, or the good pattern.
#[tactic(auto, using(meaning::proofs::Laws::PatternRules::pattern_limits), unfolding(meaning::specs::PatternRefusal::pattern_refusal))]
pub fn check(w: &[u32]) -> Result<Checked<'_>, Refusal>
    ensures { Opened w.now result }
{
    let header = Header::<4>::of(w).ok_or(Refusal::PatternShape)?;
    if !header::good_limits(&header) {
        return Err(Refusal::PatternLimits);
    }
    let counts = Counts::of(&header);
    if !header::good_shape(&header, counts) {
        return Err(Refusal::PatternShape);
    }
    let parts = Parts {
        words: header.words,
        counts,
    };
    if !good_nodes(&parts) {
        return Err(Refusal::PatternNodes);
    }
    let pattern = Pattern { parts };
    let occurrences = pattern.occurrences();
    if Pattern::MAX_OCCURRENCES < occurrences {
        return Err(Refusal::PatternLimits);
    }
    Ok(Checked {
        pattern,
        occurrences,
    })
}
