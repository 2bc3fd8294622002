ghost use Rattle.std.specs.Prelude.{◌≡◌, ◌<◌};
ghost use Rattle.meaning.specs.Refusal.{is_canonical, good_find_at, good_find};

use words::areas::Areas;

// Whether x is a canonical id.
#[tactic(auto, using(meaning::proofs::Laws::Ands::ands), unfolding(meaning::specs::Refusal::is_canonical))]
pub fn canonical(t: &Areas, x: usize) -> bool
    ensures { result ≡ is_canonical t.now.words.now t.now.layout x }
{
    x < t.layout.i && t.find_at(x) == x
}

// The find rule at x. The lemmas `ands` serve the body of its must-fail edit, which reads twice and would be
// refused for its form without them.
#[tactic(auto, using(meaning::proofs::Laws::Ands::ands), unfolding(meaning::specs::Refusal::good_find_at, meaning::specs::Refusal::is_canonical))]
fn good_at(t: &Areas, x: usize) -> bool
    requires { x < t.now.layout.i }
    ensures { result ≡ good_find_at t.now.words.now t.now.layout x }
{
    canonical(t, t.find_at(x))
}

// The find rule. The areas are copied, so that where they start is read once and not at each id.
pub fn good(t: &Areas) -> bool
    ensures { result ≡ good_find t.now.words.now t.now.layout }
{
    let areas = *t;
    (0..areas.layout.i).all(|x| good_at(&areas, x))
}
