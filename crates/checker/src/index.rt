ghost use Rattle.std.specs.Prelude.{◌≡◌, true, ◌<◌};
ghost use Rattle.meaning.specs.Tests.{all_below};
ghost use Rattle.meaning.specs.Good.{NodeRule};
ghost use Rattle.meaning.specs.Refusal.{good_index_at, good_index};

use words::areas::Areas;

// The entry at x names a node, whose key is after that of the entry before.
#[tactic(auto, using(crate::proofs::Entries::within, crate::proofs::Entries::previous, crate::proofs::Entries::past, crate::proofs::Entries::first, crate::proofs::Entries::later))]
fn good_at(t: &Areas, x: usize) -> bool
    requires { NodeRule t.now.words.now t.now.layout × (x < t.now.layout.n) × (all_below (good_index_at t.now.words.now t.now.layout) x ≡ true) }
    ensures { result ≡ good_index_at t.now.words.now t.now.layout x }
{
    let i = t.index_at(x);
    i < t.layout.n && (x == 0 || t.node_before(t.index_at(x - 1), i))
}

// The index rule. Each entry is tested where those before it have passed, which the closure of an `all`
// would not be told.
#[tactic(auto, using(meaning::proofs::Laws::Loops::loops), unfolding(meaning::specs::Refusal::good_index))]
pub fn good(t: &Areas) -> bool
    requires { NodeRule t.now.words.now t.now.layout }
    ensures { result ≡ good_index t.now.words.now t.now.layout }
{
    for x in 0..t.layout.n {
        if !good_at(t, x) {
            return false;
        }
    }
    true
}
