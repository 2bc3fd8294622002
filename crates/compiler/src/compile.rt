ghost use Rattle.std.specs.Prelude.{◌≡◌, ◌+◌, ◌<◌, ◌≤◌};
ghost use Rattle.meaning.specs.PatternWords.{degree_at};
ghost use Rattle.compiler.specs.Local.{view, Room, take_item};
ghost use Rattle.compiler.specs.Lists.{item_of};

use crate::Compiler;
use crate::instr::{Instr, Record};
use crate::items::Item;
use crate::load::Weights;
use meaning::Reg;
use pattern::Pattern;

impl Compiler {
    // Takes an operator that waited: Lookup if it is ground now and has children, else Bind.
    #[tactic(auto, unfolding(crate::specs::Local::take_item, meaning::specs::Records::record_of, meaning::specs::Tests::and))]
    pub fn take_item(&mut self, pattern: &Pattern, place: u32, weights: &Weights, x: Item)
        requires inside { x.node < pattern.now.parts.counts.n }
        requires room { Room self.old (1 + degree_at pattern.now.parts.words.now x.node) }
        requires registers { self.old.next.0 + degree_at pattern.now.parts.words.now x.node ≤ Self.MAX_REGISTERS }
        ensures { view self.new ≡ take_item pattern.now.parts.words.now place weights.now (item_of x) (view self.old) }
    {
        let node = x.node as usize;
        let degree = pattern.parts.degree_at(node);
        if degree != 0 && self.n_free(weights, x.node) == 0 {
            self.code.push(Record::from(Instr::Lookup {
                pattern: place,
                node: x.node,
                from: x.reg,
            }));
            return;
        }
        let first = self.next;
        self.code.push(Record::from(Instr::Bind {
            pattern: place,
            node: x.node,
            from: x.reg,
            to: first,
            op: pattern.parts.number_at(node) as u32,
            arity: degree as u32,
        }));
        self.next = Reg(first.0 + degree as u32);
        self.add_children(pattern, place, node, first);
    }
}
