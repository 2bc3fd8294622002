ghost use Rattle.std.specs.Prelude.{◌≡◌, ℕ, ◌<◌, length, get_or};
ghost use Rattle.meaning.specs.Compiler.{best};
ghost use Rattle.compiler.specs.Lists.{held_in, no_item, free_count, goes_first};
ghost use Rattle.compiler.specs.Local.{view, without};

use crate::load::Weights;
use crate::{Compiler, sets};
use meaning::Reg;
use pattern::Pattern;
use std::cmp::Reverse;

// A pattern node that waits, and the register of its class. The node is any number, and `n_free`,
// `goes_first`, `next` and `pick` ask that it is a pattern's: an invariant here would ask it of
// whoever makes an item.
#[derive(Clone, Copy, Default)]
pub struct Item {
    pub node: u32,
    pub reg: Reg,
}

// `weights` is lent and no field of the compiler: as a field it would need a clause that it stays in
// each function that changes the compiler.
impl Compiler {
    // How many of a node's free variables are not yet bound.
    pub fn n_free(&self, weights: &Weights, node: u32) -> u32
        requires { node < Pattern.MAX_NODES }
        ensures { result ≡ free_count weights.now self.now.bound node }
    {
        sets::unbound(weights[node as usize].free, self.bound)
    }

    // Whether item x is taken before item y: ground now, more variables not yet bound, smaller
    // size, smaller node, smaller register.
    #[tactic(auto, using(crate::proofs::Orders::by_keys))]
    fn goes_first(&self, weights: &Weights, x: Item, y: Item) -> bool
        requires { (x.node < Pattern.MAX_NODES) × (y.node < Pattern.MAX_NODES) }
        ensures { result ≡ goes_first weights.now self.now.bound x y }
    {
        let key = |item: Item| {
            let free = self.n_free(weights, item.node);
            let size = weights[item.node as usize].size;
            (free != 0, Reverse(free), size, item.node, item.reg.0)
        };
        key(x) < key(y)
    }

    // The place of the waiting item that goes before the others. It is a `for` over places, as `best` of the
    // definitions goes over them.
    #[tactic(auto, unfolding(meaning::specs::Compiler::best))]
    pub fn next(&self, weights: &Weights) -> usize
        requires waiting { 0 < length (held_in self.now.items) }
        requires inside { (i : ℕ) → i < length (held_in self.now.items) → (get_or (held_in self.now.items) i no_item).node < Pattern.MAX_NODES }
        ensures place { result ≡ best (goes_first weights.now self.now.bound) no_item (held_in self.now.items) (length (held_in self.now.items)) }
        ensures inside { result < length (held_in self.now.items) }
    {
        let items = self.items.as_slice();
        let mut b = 0;
        for i in 0..items.len() {
            if self.goes_first(weights, items[i], items[b]) {
                b = i;
            }
        }
        b
    }

    // Takes out the waiting item that goes before the others; these keep their order.
    #[tactic(auto, using(crate::proofs::Picking::taken_out))]
    pub fn pick(&mut self, weights: &Weights) -> Item
        requires waiting { 0 < length (held_in self.old.items) }
        requires inside { (i : ℕ) → i < length (held_in self.old.items) → (get_or (held_in self.old.items) i no_item).node < Pattern.MAX_NODES }
        ensures { let b = best (goes_first weights.now self.old.bound) no_item (held_in self.old.items) (length (held_in self.old.items)) in (result ≡ get_or (held_in self.old.items) b no_item) × (view self.new ≡ without b (view self.old)) }
    {
        let b = self.next(weights);
        self.items.remove(b)
    }
}
