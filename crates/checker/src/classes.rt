ghost use Rattle.std.specs.Prelude.{◌≡◌, ◌<◌};
ghost use Rattle.meaning.specs.Refusal.{good_ids, good_range_at, good_ranges, good_classes};

use words::areas::Areas;
use words::ranges::{Ranges, RecordNodes};

// Whether the class ids are the canonical ids, rising: one pass over the find list, in which each
// canonical id must be the next record's.
#[tactic(auto, using(crate::proofs::Ids::start, crate::proofs::Ids::stays, crate::proofs::Ids::grows, crate::proofs::Ids::full, crate::proofs::Ids::other, crate::proofs::Ids::ended))]
fn good_ids(t: &Areas) -> bool
    ensures { result ≡ good_ids t.now.words.now t.now.layout }
{
    let mut records = 0..t.layout.c;
    for x in 0..t.layout.i {
        if t.find_at(x) == x {
            let Some(j) = records.next() else {
                return false;
            };
            if t.id_at(j) != x {
                return false;
            }
        }
    }
    records.is_empty()
}

// Record j has a node, and its range starts where the one before it ends.
#[tactic(auto, using(meaning::proofs::Laws::Ands::ands), unfolding(meaning::specs::Refusal::good_range_at))]
fn good_range_at(t: &Areas, j: usize) -> bool
    requires { j < t.now.layout.c }
    ensures { result ≡ good_range_at t.now.words.now t.now.layout j }
{
    0 < t.count_at(j) && t.first_at(j) == RecordNodes(t).end_before(j)
}

// Whether the node ranges join end to end from 0 to N.
fn good_ranges(t: &Areas) -> bool
    ensures { result ≡ good_ranges t.now.words.now t.now.layout }
{
    (0..t.layout.c).all(|j| good_range_at(t, j))
        && RecordNodes(t).end_before(t.layout.c) == t.layout.n
}

// The class rule.
#[tactic(auto, using(meaning::proofs::Laws::Ands::ands), unfolding(meaning::specs::Refusal::good_classes))]
pub fn good(t: &Areas) -> bool
    ensures { result ≡ good_classes t.now.words.now t.now.layout }
{
    good_ids(t) && good_ranges(t)
}
