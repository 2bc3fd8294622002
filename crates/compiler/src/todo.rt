ghost use Rattle.std.specs.Prelude.{◌≡◌, ◌+◌, ◌<◌, ◌≤◌};
ghost use Rattle.meaning.specs.PatternWords.{degree_at, children_of};
ghost use Rattle.compiler.specs.Local.{view, Room, add_todo, add_all};

use crate::instr::{Instr, Record};
use crate::items::Item;
use crate::vars::Bound;
use crate::{Compiler, sets, vars};
use meaning::Reg;
use pattern::{Kind, Parts, Pattern};

// `place` stands beside the pattern and not in one struct with it, since `add_todo` asks for parts
// alone and the others for a good pattern. `Room` is a clause and no invariant, since each function
// asks it with another number.
impl Compiler {
    // Meets a node at a register: a variable is bound or compared, any other node waits.
    #[tactic(auto, unfolding(crate::specs::Local::add_todo, crate::specs::Local::add_var, meaning::specs::Records::record_of))]
    pub fn add_todo(&mut self, parts: &Parts, place: u32, node: usize, r: Reg)
        requires inside { node < parts.now.counts.n }
        requires room { Room self.old 1 }
        ensures { view self.new ≡ add_todo parts.now.words.now place node r (view self.old) }
    {
        let Ok(Kind::Variable) = Kind::try_from(parts.kind_at(node)) else {
            self.items.push(Item {
                node: node as u32,
                reg: r,
            });
            return;
        };
        let v = parts.number_at(node) as u32;
        match vars::reg_of(self.vars.as_slice(), v) {
            Some(first) => self.code.push(Record::from(Instr::Compare {
                pattern: place,
                from: r,
                to: first,
            })),
            None => {
                self.vars.push(Bound { var: v, reg: r });
                self.bound = sets::with(self.bound, sets::bit(node));
            }
        }
    }

    // Meets a node's children at the registers from r on.
    #[tactic(auto, using(pattern::proofs::Children::node_facts, crate::proofs::Adding::add_none))]
    pub fn add_children(&mut self, pattern: &Pattern, place: u32, node: usize, r: Reg)
        requires inside { node < pattern.now.parts.counts.n }
        requires room { Room self.old (degree_at pattern.now.parts.words.now node) }
        requires registers { r.0 + degree_at pattern.now.parts.words.now node ≤ Self.MAX_REGISTERS }
        ensures { view self.new ≡ add_all pattern.now.parts.words.now place r.0 (children_of pattern.now.parts.words.now node) (view self.old) }
    {
        for (x, child) in pattern.parts.children(node).iter().enumerate() {
            self.add_todo(&pattern.parts, place, *child as usize, Reg(r.0 + x as u32));
        }
    }
}
