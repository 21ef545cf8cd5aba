// The walk over the fields of a record. Rests on bits, on the sizes of fields and on `reader`.
ghost use Rattle.std.specs.Prelude.{◌≡◌, ℕ, ◌<◌, ◌+◌, ◌-◌, ◌≤◌, length, get_or};
ghost use Rattle.format.specs.Places.{extent, next, start};

use crate::reader::next_at;
use crate::{is_text, size_of};

fn byte_or_0(s: &[u8], at: usize) -> usize
    ensures { (result ≡ get_or s.now at 0) × (result < 256) }
{
    usize::from(s.get(at).copied().unwrap_or(0))
}

#[tactic(auto, using(prelude::specs::Laws::Cases::if_true, prelude::specs::Laws::Cases::if_false), unfolding(format::specs::Places::extent))]
fn extent_of(s: &[u8], b: u8, at: usize) -> usize
    ensures { (result ≡ extent s.now b at) × (result ≤ 256) }
{
    let b = usize::from(b);
    if is_text(b) {
        1 + byte_or_0(s, at)
    } else {
        size_of(b)
    }
}

// The position after field b, which starts at `at`.
#[tactic(auto, using(prelude::specs::Laws::Cases::if_true, prelude::specs::Laws::Cases::if_false), unfolding(format::specs::Places::next))]
pub(crate) fn after(s: &[u8], map: u32, b: u8, at: usize) -> usize
    requires { at < 131072 }
    ensures { (result ≡ next s.now map b at) × (result ≤ at + 256) }
{
    if bits::has(map, u32::from(b)) {
        at + extent_of(s, b, at)
    } else {
        at
    }
}

// How many bytes stand from a position on.
pub(crate) fn rest(s: &[u8], at: usize) -> usize
    ensures { result ≡ length s.now - at }
{
    s.len().saturating_sub(at)
}

// Where each field starts, and at 32 where the record ends. By a bit's number as a u8:
// std has `From` of it for the u32 that bits takes and for a size, and of the index of `enumerate` none for u32.
pub(crate) fn starts(s: &[u8], map: u32, o: usize) -> [usize; 33]
    requires { o < 65536 }
    ensures { (k : ℕ) → k ≤ 32 → get_or result k 0 ≡ start s.now o map k }
{
    let mut out = [0usize; 33];
    let mut at = o + 5;
    for b in 0..32u8 {
        out[usize::from(b)] = at;
        at = next_at(s, map, b, at);
    }
    out[32] = at;
    out
}
