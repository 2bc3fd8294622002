ghost use Rattle.std.specs.Prelude.{◌≡◌, ◌<◌};
ghost use Rattle.meaning.specs.Graph.{before_block};
ghost use Rattle.meaning.specs.Words.{node_at};
ghost use Rattle.table.specs.Spans.{Rising, Spans};

use crate::checked::Table;
use crate::class::Span;
use crate::shape::Shape;
use meaning::Id;
use words::bisect;

// Nodes of a table that rise by key, as those of a class do.
#[derive(Clone, Copy)]
pub struct Run<'t, 'a> {
    pub table: &'t Table<'a>,
    pub span: Span,
    pub ghost rising: { Rising table.now.areas.words.now table.now.areas.layout span },
}

impl<'a> Table<'a> {
    // The nodes of class c to walk over, or none if c is no class id.
    pub fn run_of(&self, c: Id) -> Run<'_, 'a>
        ensures { (result.table.now ≡ self.now) × Spans self.now.areas.words.now self.now.areas.layout c.0 result.span }
    {
        Run {
            table: self,
            span: self.nodes_of(c),
        }
    }

    // Whether node i comes before the nodes with the shape.
    #[tactic(auto, unfolding(meaning::specs::Graph::before_block, meaning::specs::Graph::smaller))]
    fn before_block(&self, i: usize, shape: Shape) -> bool
        requires { i < self.now.areas.layout.n }
        ensures { result ≡ before_block shape.op shape.arity (node_at self.now.areas.words.now self.now.areas.layout i) }
    {
        self.shape_at(i) < shape
    }
}

impl Run<'_, '_> {
    ghost use Rattle.table.specs.Walks.{start_of, MetBy};

    // The place of the first node with the shape, or where it would stand, in line from the first node.
    fn start_in_line(&self, shape: Shape) -> usize
        ensures { result ≡ start_of self.now shape }
    {
        (0..self.span.count)
            .find(|&k| !self.table.before_block(self.span.first + k, shape))
            .unwrap_or(self.span.count)
    }

    // The place of some node with the shape, or where one would stand, by halving.
    fn met(&self, shape: Shape) -> usize
        ensures { MetBy self.now shape result }
    {
        bisect::search_by(
            self.span.count,
            |k| self.table.shape_at(self.span.first + k).cmp(&shape),
        )
        .unwrap_or_else(|k| k)
    }

    // The first place, stepping back from `from` over nodes with the shape. It is a `for`, since of a search
    // from a range's end (`rposition`) the library's lemmas say nothing yet.
    #[tactic(auto, using(crate::proofs::Blocks::nearer, crate::proofs::Blocks::stopped))]
    fn stepped_back(&self, shape: Shape, from: usize) -> usize
        requires { MetBy self.now shape from }
        ensures { result ≡ start_of self.now shape }
    {
        for k in (0..from).rev() {
            if !self.table.matches(self.span.first + k, shape) {
                return k + 1;
            }
        }
        0
    }

    // Where the walk over the nodes with the shape starts: the place of the first of them, or where it
    // would stand. In line below 50 nodes, by halving from 50 on.
    pub fn start(&self, shape: Shape) -> usize
        ensures { result ≡ start_of self.now shape }
    {
        if self.span.count < 50 {
            return self.start_in_line(shape);
        }
        self.stepped_back(shape, self.met(shape))
    }
}
