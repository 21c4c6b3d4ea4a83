// Sets of numbers below 64, each a mask in one word: bit k says whether k is in it.
#![tactic(auto)]

ghost use Rattle.std.specs.Prelude.{◌≡◌, ◌||◌, ℕ, ◌<◌, eqb};
ghost use Rattle.masks.specs.Bit.{width, bit, meeting};

// How many numbers there are.
pub const WIDTH: usize = 64;

// Whether k is in the set.
pub fn has(m: u64, k: u32) -> bool
    requires { k < width }
    ensures { result ≡ bit m k }
{
    (m >> k) & 1 == 1
}

// What is in either.
pub fn either(a: u64, b: u64) -> u64
    ensures { (k : ℕ) → bit result k ≡ bit a k || bit b k }
{
    a | b
}

// The set with k.
pub fn with(m: u64, k: u32) -> u64
    requires { k < width }
    ensures { (j : ℕ) → bit result j ≡ bit m j || eqb j k }
{
    m | (1u64 << k)
}

// Whether the two have a number in common.
pub fn meet(a: u64, b: u64) -> bool
    ensures { result ≡ meeting a b }
{
    a & b != 0
}
