// Numbers in decimal, written into a slice: a count of 10^-places at an index, or right-aligned in
// columns. What is written, and that it is read back as the count, stands in specs/. The public
// functions are total: if the text has no room, nothing is written. Each takes a number of one word
// or of two. Place and number come one by one, as callers have them: a struct would be made for each call
// and taken apart in it. Rests on prelude's words and on wide.
#![tactic(auto)]

ghost use Rattle.std.specs.Prelude.{◌≡◌, ◌+◌, ◌≤◌, length};
ghost use Rattle.prelude.specs.Span.{splice};
ghost use Rattle.decimal.specs.Decimal.{low_digits, down, decimal, right, written};

use digits::Digits;

pub mod digits;

// The `count` lowest digits of `n`, written at `at` from the last to the first.
fn put_low<N: Digits>(out: &mut [u8], at: usize, count: usize, n: N)
    requires { at + count ≤ length out.old }
    ensures { out.new ≡ splice out.old at (low_digits count (N.number n)) }
{
    let mut rest = n;
    // By index: the digits of `rest` stand below it, which is what the loop keeps, and `iter_mut().rev()`
    // has no index to say it by.
    for i in (0..count).rev() {
        let (higher, lowest) = rest.split_lowest();
        out[at + i] = b'0' + lowest;
        rest = higher;
    }
}

// `n` without its `places` lowest digits.
fn down<N: Digits>(n: N, places: u8) -> N
    ensures { N.number result ≡ down places (N.number n) }
{
    let mut rest = n;
    for _ in 0..places {
        rest = rest.split_lowest().0;
    }
    rest
}

// `n` counts of 10^-places, written at `at`, if they have room.
fn put_here<N: Digits>(out: &mut [u8], at: usize, n: N, places: u8)
    requires { at + length (decimal places (N.number n)) ≤ length out.old }
    ensures { out.new ≡ splice out.old at (decimal places (N.number n)) }
{
    let whole = down(n, places);
    let width = whole.width();
    put_low(out, at, width, whole);
    if 0 < places {
        out[at + width] = b'.';
        put_low(out, at + width + 1, usize::from(places), n);
    }
}

// How many bytes `n` counts of 10^-places take.
pub fn decimal_length<N: Digits>(n: N, places: u8) -> usize
    ensures { (result ≡ length (decimal places (N.number n))) × (result ≤ N.widest + 256) }
{
    let width = down(n, places).width();
    if places == 0 {
        width
    } else {
        width + 1 + usize::from(places)
    }
}

// `n` counts of 10^-places, written at `at`; how many bytes they take.
pub fn put_decimal<N: Digits>(out: &mut [u8], at: usize, n: N, places: u8) -> usize
    ensures { (result ≡ length (decimal places (N.number n))) × (out.new ≡ written out.old at (decimal places (N.number n))) }
{
    let long = decimal_length(n, places);
    if at.saturating_add(long) <= out.len() {
        put_here(out, at, n, places);
    }
    long
}

// `n` counts of 10^-places, written at the right end of the columns that begin at `at`.
pub fn put_right<N: Digits>(out: &mut [u8], at: usize, columns: usize, n: N, places: u8)
    ensures { out.new ≡ written out.old at (right columns (decimal places (N.number n))) }
{
    let long = decimal_length(n, places);
    let blanks = columns.saturating_sub(long);
    if at.saturating_add(blanks + long) <= out.len() {
        out[at..at + blanks].fill(b' ');
        put_here(out, at + blanks, n, places);
    }
}
