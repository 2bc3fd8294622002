#![tactic(auto)]
// A checked table, asked: the nodes of a class, where the walk over an operator's nodes starts, and
// lookup. All that is built above reads a table through these, and its words through its areas.
pub mod checked;
pub mod class;
pub mod lookup;
pub mod shape;
pub mod walk;

pub use checked::Table;
