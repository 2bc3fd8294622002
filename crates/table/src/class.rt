ghost use Rattle.table.specs.Spans.{Spans};

use crate::checked::Table;
use meaning::Id;
use words::bisect;

// The nodes of a class: the first one's number, and how many there are.
#[derive(Clone, Copy)]
pub struct Span {
    pub first: usize,
    pub count: usize,
}

impl Table<'_> {
    // The nodes of class c, or none if c is no class id.
    pub fn nodes_of(&self, c: Id) -> Span
        ensures { Spans self.now.areas.words.now self.now.areas.layout c.0 result }
    {
        let id = c.0 as usize;
        match bisect::search_by(self.areas.layout.c, |j| self.areas.id_at(j).cmp(&id)) {
            Ok(j) => Span {
                first: self.areas.first_at(j),
                count: self.areas.count_at(j),
            },
            Err(_) => Span { first: 0, count: 0 },
        }
    }
}
