#![tactic(auto)]
// The compiler: a checked pattern or multipattern to a program's records.
pub mod compile;
pub mod instr;
pub mod items;
pub mod list;
pub mod load;
pub mod sets;
pub mod todo;
pub mod vars;

ghost use Rattle.std.specs.Prelude.{◌≡◌};
ghost use Rattle.compiler.specs.Local.{view, empty};

use crate::instr::Record;
use crate::items::Item;
use crate::list::BoundedList;
use crate::vars::Bound;
use meaning::Reg;

// What the compiler has so far: instructions, bound variables in binding order, waiting items, the
// next register, and the set of the present pattern's variables that are bound.
#[derive(Clone, Copy)]
pub struct Compiler {
    pub code: BoundedList<Record, { Compiler::MAX_INSTRUCTIONS }>,
    pub vars: BoundedList<Bound, { Compiler::MAX_BOUND }>,
    pub items: BoundedList<Item, { Compiler::MAX_WAITING }>,
    pub next: Reg,
    pub bound: u64,
}

impl Compiler {
    pub const MAX_INSTRUCTIONS: usize = 263;

    pub const MAX_BOUND: usize = 264;

    pub const MAX_WAITING: usize = 264;

    pub const MAX_REGISTERS: usize = 256;

    // The empty compiler.
    pub fn new() -> Self
        ensures { view result ≡ empty }
    {
        Compiler {
            code: BoundedList::new(),
            vars: BoundedList::new(),
            items: BoundedList::new(),
            next: Reg(0),
            bound: 0,
        }
    }
}
