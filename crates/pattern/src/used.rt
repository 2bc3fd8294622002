ghost use Rattle.std.specs.Prelude.{◌≡◌};
ghost use Rattle.meaning.specs.PatternRefusal.{is_used, good_use};

use crate::Parts;

impl Parts<'_> {
    // Whether node i is somebody's child.
    fn is_used(&self, i: usize) -> bool
        ensures { result ≡ is_used self.now.words.now i }
    {
        (0..self.counts.k).any(|x| self.child_of(x) == i)
    }

    // Whether every node but the last is somebody's child.
    pub fn good_use(&self) -> bool
        ensures { result ≡ good_use self.now.words.now }
    {
        (0..self.counts.n - 1).all(|i| self.is_used(i))
    }
}
