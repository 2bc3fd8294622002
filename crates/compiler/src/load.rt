ghost use Rattle.std.specs.Prelude.{◌≡◌, ◌<◌};
ghost use mathlib.Core.List.{Memᴰ as Mem};
ghost use Rattle.meaning.specs.Pattern.{size, free};
ghost use Rattle.meaning.specs.PatternWords.{pattern_of};
ghost use Rattle.meaning.specs.Search.Window.{Places};
ghost use Rattle.compiler.specs.Loaded.{Few, SizedTo, FreeTo, Loaded};

use crate::sets;
use pattern::{Kind, Pattern};

// Of a node: the set of its variables, and its operators, shared ones counted each time.
#[derive(Clone, Copy, Default)]
pub struct Weight {
    pub free: u64,
    pub size: u32,
}

// The weights of a pattern's nodes.
pub type Weights = [Weight; Pattern::MAX_NODES];

// The weight of node i, from those of the nodes before it.
fn weight_of(pattern: &Pattern, weights: &Weights, i: usize) -> Weight
    requires few { Few pattern.now.parts.words.now }
    requires inside { i < pattern.now.parts.counts.n }
    requires sizes { SizedTo pattern.now.parts.words.now weights.now i }
    requires sets { FreeTo pattern.now.parts.words.now weights.now i }
    ensures size { result.size ≡ size (pattern_of pattern.now.parts.words.now) i }
    ensures free { Places pattern.now.parts.words.now result.free (λ v. Mem v (free (pattern_of pattern.now.parts.words.now) i)) }
{
    match pattern.kind_of(i) {
        Kind::Variable => Weight {
            free: sets::bit(i),
            size: 0,
        },
        Kind::Operator => {
            let mut free = 0;
            let mut size = 1;
            for child in pattern.parts.children(i) {
                let weight = weights[*child as usize];
                free = sets::with(free, weight.free);
                size += weight.size;
            }
            Weight { free, size }
        }
    }
}

// The weight of each node, from the first to the last.
pub fn load_pattern(pattern: &Pattern) -> Weights
    requires { Few pattern.now.parts.words.now }
    ensures { Loaded pattern.now.parts.words.now result }
{
    let mut weights = [Weight::default(); Pattern::MAX_NODES];
    // By place into an array, and no list that grows: each node reads the weights before its own, and
    // the array is what callers index.
    for i in 0..pattern.parts.counts.n {
        weights[i] = weight_of(pattern, &weights, i);
    }
    weights
}
