ghost use Rattle.std.specs.Prelude.{◌≡◌, ◌<◌};
ghost use Rattle.meaning.specs.Graph.{fits};
ghost use Rattle.meaning.specs.Words.{node_at};
ghost use Rattle.table.specs.Shapes.{shape_of};

use crate::checked::Table;

// An operator and how many children it has. Shapes are ordered by operator, then arity.
#[derive(Clone, Copy, PartialEq, Eq, PartialOrd, Ord)]
pub struct Shape {
    pub op: usize,
    pub arity: usize,
}

impl Table<'_> {
    // The shape of node i.
    #[tactic(auto, using(crate::proofs::Shapes::shaped))]
    pub fn shape_at(&self, i: usize) -> Shape
        requires { i < self.now.areas.layout.n }
        ensures { result ≡ shape_of (node_at self.now.areas.words.now self.now.areas.layout i) }
    {
        Shape {
            op: self.areas.op_at(i),
            arity: self.areas.arity_at(i),
        }
    }

    // Whether node i has the shape.
    #[tactic(auto, unfolding(meaning::specs::Graph::fits, meaning::specs::Tests::and))]
    pub fn matches(&self, i: usize, shape: Shape) -> bool
        requires { i < self.now.areas.layout.n }
        ensures { result ≡ fits shape.op shape.arity (node_at self.now.areas.words.now self.now.areas.layout i) }
    {
        self.shape_at(i) == shape
    }
}
