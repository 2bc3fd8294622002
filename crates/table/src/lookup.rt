ghost use Rattle.std.specs.Prelude.{◌≡◌};
ghost use Rattle.meaning.specs.Words.{graph_at};
ghost use Rattle.table.specs.Lookups.{found_at};

use crate::checked::Table;
use meaning::Id;
use words::bisect;
use words::key::Key;

// The node that a lookup finds: its number and its class.
#[derive(Clone, Copy)]
pub struct Found {
    pub node: usize,
    pub class: Id,
}

impl Table<'_> {
    // The one node with the key, or nothing.
    pub fn lookup(&self, key: &Key) -> Option<Found>
        ensures { result ≡ found_at (graph_at self.now.areas.words.now self.now.areas.layout) key.now.op key.now.kids.now }
    {
        let x = bisect::search_by(
            self.areas.layout.n,
            |x| self.areas.key_at(self.areas.index_at(x)).order(key),
        )
        .ok()?;
        let node = self.areas.index_at(x);
        Some(Found {
            node,
            class: Id(self.areas.owner_at(node) as u32),
        })
    }
}
