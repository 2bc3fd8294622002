ghost use Rattle.std.specs.Prelude.{◌≡◌, true, ◌+◌, ◌<◌, ◌≤◌};
ghost use Rattle.meaning.specs.Tests.{all_below};
ghost use Rattle.meaning.specs.Words.{first_at, count_at};
ghost use Rattle.meaning.specs.Good.{ClassRule};
ghost use Rattle.meaning.specs.Refusal.{good_node_at, good_member_at, good_members_at, good_members, good_children, good_nodes};

use crate::find;
use words::areas::Areas;
use words::ranges::{NodeKids, Ranges};

// Node i by itself: its arity, and its children's range.
#[tactic(auto, using(meaning::proofs::Laws::Ands::ands), unfolding(meaning::specs::Refusal::good_node_at))]
fn good_at(t: &Areas, i: usize) -> bool
    requires { i < t.now.layout.n }
    ensures { result ≡ good_node_at t.now.words.now t.now.layout i }
{
    let arity = t.arity_at(i);
    let kid = t.kid_at(i);
    arity <= 8 && kid == NodeKids(t).end_before(i) && kid + arity <= t.layout.k
}

// The k-th node of class j: by itself, its owner, and after the node before it.
#[tactic(auto, using(meaning::proofs::Laws::Ands::ands, crate::proofs::Members::within, crate::proofs::Members::previous, crate::proofs::Members::first, crate::proofs::Members::later, crate::proofs::Members::broken, crate::proofs::Members::stranger))]
fn good_member_at(t: &Areas, j: usize, k: usize) -> bool
    requires { (j < t.now.layout.c) × (k < count_at t.now.words.now t.now.layout j) × (first_at t.now.words.now t.now.layout j + count_at t.now.words.now t.now.layout j ≤ t.now.layout.n) × (all_below (good_member_at t.now.words.now t.now.layout j) k ≡ true) }
    ensures { result ≡ good_member_at t.now.words.now t.now.layout j k }
{
    let i = t.first_at(j) + k;
    good_at(t, i) && t.owner_at(i) == t.id_at(j) && (k == 0 || t.node_before(i - 1, i))
}

// The nodes of class j. Each is tested where those before it have passed, which the closure of an `all`
// would not be told.
#[tactic(auto, using(meaning::proofs::Laws::Loops::loops), unfolding(meaning::specs::Refusal::good_members_at))]
fn good_members_at(t: &Areas, j: usize) -> bool
    requires { (j < t.now.layout.c) × (first_at t.now.words.now t.now.layout j + count_at t.now.words.now t.now.layout j ≤ t.now.layout.n) }
    ensures { result ≡ good_members_at t.now.words.now t.now.layout j }
{
    for k in 0..t.count_at(j) {
        if !good_member_at(t, j, k) {
            return false;
        }
    }
    true
}

// The nodes, class by class, with their children's ranges from 0 to K.
fn good_members(t: &Areas) -> bool
    requires { ClassRule t.now.words.now t.now.layout }
    ensures { result ≡ good_members t.now.words.now t.now.layout }
{
    (0..t.layout.c).all(|j| good_members_at(t, j))
        && NodeKids(t).end_before(t.layout.n) == t.layout.k
}

// Whether each child is canonical. The areas are copied, so that where they start is read once and not at
// each child.
fn good_children(t: &Areas) -> bool
    ensures { result ≡ good_children t.now.words.now t.now.layout }
{
    let areas = *t;
    (0..areas.layout.k).all(|x| find::canonical(&areas, areas.child_at(x)))
}

// The node rule.
#[tactic(auto, using(meaning::proofs::Laws::Ands::ands), unfolding(meaning::specs::Refusal::good_nodes))]
pub fn good(t: &Areas) -> bool
    requires { ClassRule t.now.words.now t.now.layout }
    ensures { result ≡ good_nodes t.now.words.now t.now.layout }
{
    good_members(t) && good_children(t)
}
