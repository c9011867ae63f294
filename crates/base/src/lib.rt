// Numbers and bits of words, shared by the layers above.
#![tactic(auto)]

ghost use Rattle.std.specs.Prelude.{◌≡◌, cond, ℕ, ◌+◌, ◌%◌, ◌≤◌, ◌<◌, ◌^◌, length, eqb};
ghost use Rattle.base.specs.Bits.{bit, Lowest, Without};
ghost use Rattle.base.specs.Bytes.{number_at, with_number};

// Whether a word has bit e.
pub fn has(word: u64, e: usize) -> bool
    requires { e < 64 }
    ensures { result ≡ bit word e }
{
    (word >> e) % 2 == 1
}

// The word with bit e alone.
pub fn power(e: usize) -> u64
    requires { e < 64 }
    ensures { result ≡ 2 ^ e }
{
    1u64 << e
}

// The word with bit e as told.
pub fn with(word: u64, e: usize, on: bool) -> u64
    requires { e < 64 }
    ensures { (k : ℕ) → bit result k ≡ cond (eqb k e) on (bit word k) }
{
    if on {
        return word | power(e);
    }
    if has(word, e) {
        return word ^ power(e);
    }
    word
}

// The bits of a word below n.
pub fn low(word: u64, n: usize) -> u64
    requires { n < 64 }
    ensures { result ≡ word % 2 ^ n }
{
    word & (power(n) - 1)
}

// The number of the lowest bit of a word that has one.
pub fn lowest(word: u64) -> usize
    requires { 0 < word }
    ensures { Lowest word result }
{
    word.trailing_zeros() as usize
}

// The word without its lowest bit, e.
pub fn without(word: u64, e: usize) -> u64
    requires { Lowest word e }
    ensures { Without word e result }
{
    word ^ power(e)
}

// The number in `width` bytes from an index on, the lowest byte first.
pub fn number_at(area: &[u8], at: usize, width: usize) -> u64
    requires width_bound { width ≤ 8 }
    requires width_in_bounds { at + width ≤ length area.now }
    ensures { (result ≡ number_at width area.now at) × (result < 256 ^ width) }
{
    let mut x = 0;
    for i in (0..width).rev() {
        x = x * 256 + u64::from(area[at + i]);
    }
    x
}

// Writes the `width` lowest bytes of a number from an index on, the lowest first.
pub fn put_number(area: &mut [u8], at: usize, width: usize, x: u64)
    requires { at + width ≤ length area.old }
    ensures { area.new ≡ with_number width area.old at x }
{
    let mut left = x;
    for i in 0..width {
        area[at + i] = (left % 256) as u8;
        left /= 256;
    }
}
