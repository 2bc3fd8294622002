// Sets of a pattern's nodes, as bits. They are bare words, as the definitions have them: a newtype
// would be no plainer.
ghost use Rattle.std.specs.Prelude.{◌≡◌, ◌-◌, ◌^◌, ◌<◌};
ghost use Rattle.std.specs.Int.Bits.{bit_and, bit_or};
ghost use Rattle.std.specs.Int.Count.{ones};

// The set of i alone.
pub fn bit(i: usize) -> u64
    requires { i < 64 }
    ensures { result ≡ 2 ^ i }
{
    1u64 << i
}

// The set a with the members of b.
pub fn with(a: u64, b: u64) -> u64
    ensures { result ≡ bit_or a b }
{
    a | b
}

// How many of the free variables are not yet bound.
pub fn unbound(free: u64, bound: u64) -> u32
    ensures { result ≡ ones (bit_and free (2 ^ 64 - 1 - bound)) }
{
    u64::count_ones(free & !bound)
}
