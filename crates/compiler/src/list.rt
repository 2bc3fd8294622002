ghost use Rattle.std.specs.Prelude.{⊤, ◌≡◌, ◌≤◌, ◌<◌, [], ◌∷◌, ◌++◌, length, slice_index_or, remove};

use std::alloc::AllocError;

// A list of at most N, and Copy, as `ArrayVec` is not.
pub struct BoundedList<T, const N: usize> {
    pub cells: [T; N],
    pub len: usize,
    pub ghost fits: { len ≤ N },
}

// By hand: no derive takes a generic struct with a ghost field.
impl<T: Copy, const N: usize> Clone for BoundedList<T, N> {
    ghost is_clone = { λ x y. y ≡ x };

    ghost is_infallible = { λ _. ⊤ };

    fn clone(&self) -> Result<Self, AllocError> {
        Ok(*self)
    }
}

impl<T: Copy, const N: usize> Copy for BoundedList<T, N> {}

impl<T: Copy + Default, const N: usize> BoundedList<T, N> {
    ghost use Rattle.compiler.specs.Lists.{held_in};

    // The empty list.
    pub fn new() -> Self
        ensures { held_in result ≡ [] }
    {
        BoundedList {
            cells: [T::default(); N],
            len: 0,
        }
    }
}

impl<T: Copy, const N: usize> BoundedList<T, N> {
    ghost use Rattle.compiler.specs.Lists.{held_in};

    // What the list holds.
    pub fn as_slice(&self) -> &[T]
        ensures { result.now ≡ held_in self.now }
    {
        &self.cells[..self.len]
    }

    // Adds at the end.
    pub fn push(&mut self, x: T)
        requires { length (held_in self.old) < N }
        ensures { held_in self.new ≡ held_in self.old ++ x ∷ [] }
    {
        self.cells[self.len] = x;
        self.len += 1;
    }

    // Takes out the one at `index`; those behind it move up.
    #[tactic(auto, using(crate::proofs::Picking::moved_up))]
    pub fn remove(&mut self, index: usize) -> T
        requires { index < self.old.len }
        ensures value { result ≡ slice_index_or (held_in self.old) index result }
        ensures items { held_in self.new ≡ remove (held_in self.old) index }
    {
        let x = self.cells[index];
        self.cells.copy_within(index + 1..self.len, index);
        self.len -= 1;
        x
    }
}

#[cfg(test)]
mod tests {
    use super::*;

    // What the clauses say of a list is enough to add to it again, and to fill it.
    #[test]
    fn a_list_is_filled_by_hand(rt: HostRuntime) {
        let mut list: BoundedList<u32, 2> = BoundedList::new();
        list.push(7);
        list.push(8);
        assert_eq!(rt; list.as_slice(), [7, 8].as_slice());
        assert_eq!(rt; list.remove(0), 7);
        assert_eq!(rt; list.as_slice(), [8].as_slice());
    }
}
