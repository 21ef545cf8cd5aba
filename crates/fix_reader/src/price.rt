// LastPx: a number of two words with eight decimals. It wraps at 2^128, so that one that does not fit is
// not spelled again as it stood. Rests on decimal and `values`.
ghost use Rattle.std.specs.Prelude.{◌≡◌, ◌/◌, ◌%◌, slice_index};
ghost use Rattle.decimal.specs.Decimal.{decimal, number_in};
ghost use Rattle.fix_words.specs.Lists.{same};
ghost use Rattle.fix_reader.specs.Laws.Numbers.{step_of, word};
ghost use Rattle.fix_reader.specs.Laws.Wrapping.{two_low, step_high};

use crate::values;

// One byte more.
fn step(n: [u64; 2], c: u8) -> [u64; 2]
    ensures { (slice_index result 0 ≡ step_of (slice_index n 0) c % word) × (slice_index result 1 ≡ step_high (slice_index n 0) (slice_index n 1) c) }
{
    if !c.is_ascii_digit() {
        return n;
    }
    let (low, over) = n[0].carrying_mul(10, u64::from(c - b'0'));
    [low, n[1].wrapping_mul(10).wrapping_add(over)]
}

// The number that a value's digits are, modulo 2^128: its two words, and no u128: each step would be the same two
// operations, and the number would be split again for `spelled`, which takes two words: no plainer.
#[tactic(auto, using(crate::specs::Laws::Numbers::read_more, crate::specs::Laws::Numbers::read_all, crate::specs::Laws::Wrapping::step_word, crate::specs::Laws::Wrapping::step_high_lem))]
pub(crate) fn wrapped(v: &[u8]) -> [u64; 2]
    ensures { (slice_index result 0 ≡ number_in v.now % word) × (slice_index result 1 ≡ number_in v.now / word % word) }
{
    let mut n = [0u64, 0];
    for c in v {
        // By a local: Rattle proves no call whose array goes straight into a variable that the loop holds.
        let more = step(n, *c);
        n = more;
    }
    n
}

// Whether a value is a price of two words.
#[tactic(auto, unfolding(crate::specs::Laws::Wrapping::two_low))]
pub(crate) fn price_fits(v: &[u8]) -> bool
    ensures { result ≡ same (decimal 8 (two_low (number_in v.now))) v.now }
{
    values::spelled(v, wrapped(v), 8)
}
