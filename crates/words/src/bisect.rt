ghost use Rattle.std.specs.Prelude.{ℕ, ◌<◌};
ghost use Rattle.words.specs.Stops.{Stops};

use std::cmp::Ordering;

// By halving, a number below n that `side` calls equal to what is searched, or else where it would stand: after
// the numbers that lie below it.
pub fn search_by<F: Fn(usize) -> Ordering>(n: usize, side: F) -> Result<usize, usize>
    requires { (x : ℕ) → x < n → F.pre side x }
    ensures { Stops (F.post side) n result }
{
    let mut lo = 0;
    let mut hi = n;
    while lo < hi {
        let mid = lo + (hi - lo) / 2;
        match side(mid) {
            Ordering::Less => lo = mid + 1,
            Ordering::Equal => return Ok(mid),
            Ordering::Greater => hi = mid,
        }
    }
    Err(lo)
}
