// Two-word numbers, `[u64; 2]` by value with the low word first, as prices stand in records and in
// the book, and the price of a fill. Each public function is total and equals a definition of
// specs/Wide.antt. Rests on the module `division` and on prelude's words.
#![tactic(auto)]

ghost use Rattle.std.specs.Prelude.{◌≡◌, ◌-◌, ◌*◌, ◌/◌, ◌%◌, ◌<◌, ltb};
ghost use Rattle.wide.specs.Wide.{value, words, up, nearest, by_last_px, implied, fill_price};

use division::divide;
use std::cmp::Ordering;

mod division;

// A price in two words, and where it came from.
#[derive(Clone, Copy)]
pub struct Priced {
    pub price: [u64; 2],
    pub source: u8,
}

// The sources of a price: the venue's LastPx, the implied quotient, the average. Numbers, no enum: the
// definitions, their laws and a message's field have this number, and 0 if there is no price.
pub const FROM_LAST_PX: u8 = 1;

pub const FROM_QUOTIENT: u8 = 2;

pub const FROM_AVERAGE: u8 = 3;

// The numbers above one word.
const WORD: u128 = 1 << 64;

// The number that two words stand for.
fn joined(w: [u64; 2]) -> u128
    ensures { result ≡ value w }
{
    u128::from(w[0]) + WORD * u128::from(w[1])
}

// The two words of a number.
fn split(n: u128) -> [u64; 2]
    ensures { result ≡ words n }
{
    // Both are below 2^64: by `as`, which is proved to lose nothing.
    [(n % WORD) as u64, (n / WORD) as u64]
}

// The product of two words.
pub fn product(a: u64, b: u64) -> [u64; 2]
    ensures { result ≡ words (a * b) }
{
    split(u128::from(a) * u128::from(b))
}

// Is `a` below `b`?
pub fn less(a: [u64; 2], b: [u64; 2]) -> bool
    ensures { result ≡ ltb (value a) (value b) }
{
    joined(a) < joined(b)
}

// `a` less `b`, or 0 if `b` is above `a`.
pub fn difference(a: [u64; 2], b: [u64; 2]) -> [u64; 2]
    ensures { result ≡ words (value a - value b) }
{
    split(joined(a).saturating_sub(joined(b)))
}

// What rounding adds to a quotient, 0 or 1, if the division by `d` leaves `rest`: the rest is compared with
// `d` less the rest, as its double may pass a word. A half has an arm of its own, and the quotient is given
// though a half that goes up does not ask it, so that another rule for a half is one line (docs/DECISIONS.md).
#[tactic(auto, using(std::proofs::lemmas::Bool::Decides::nat_tests, prelude::specs::Laws::Cases::if_true, prelude::specs::Laws::Cases::if_false), unfolding(crate::specs::Wide::up, crate::specs::Wide::at_half))]
fn round(quotient: u64, rest: u64, d: u64) -> u64
    requires { rest < d }
    ensures { result ≡ up quotient rest d }
{
    match rest.cmp(&(d - rest)) {
        Ordering::Less => 0,
        Ordering::Equal => 1, // a half goes up
        Ordering::Greater => 1,
    }
}

// `n / d` rounded to the nearest, or 0 if `d` is 0, so that it is total (docs/DECISIONS.md): long
// division, a word at a time.
#[tactic(auto, using(crate::proofs::Carried::by_words, crate::specs::Laws::Rounding::nearest_none, crate::specs::Laws::Rounding::nearest_le, crate::specs::Laws::Words::value_fits))]
pub fn long(n: [u64; 2], d: u64) -> [u64; 2]
    ensures { result ≡ words (nearest (value n) d) }
{
    if d == 0 {
        return [0, 0];
    }
    let low = divide(n[1] % d, n[0], d);
    let add = round(low.quotient, low.rest, d);
    split(joined([low.quotient, n[1] / d]) + u128::from(add))
}

// The same of a single word, 0 for 0 too, by the machine's own division: in less than half the time
// (docs/SPEED.md).
#[tactic(auto, using(crate::specs::Laws::Rounding::nearest_none, crate::specs::Laws::Rounding::nearest_by, crate::specs::Laws::Rounding::nearest_le))]
pub fn plain(n: u64, d: u64) -> u64
    ensures { result ≡ nearest n d }
{
    if d == 0 {
        return 0;
    }
    let whole = n / d;
    whole + round(whole, n % d, d)
}

// The same of two words: by the single word if that is all of it. `long` then gives the same words for
// every `d`, 0 too: `plain_long` in specs/Laws/Rounding.antt.
pub fn quotient(n: [u64; 2], d: u64) -> [u64; 2]
    ensures { result ≡ words (nearest (value n) d) }
{
    if n[1] == 0 {
        [plain(n[0], d), 0]
    } else {
        long(n, d)
    }
}

// A tenth, truncated, and the digit that it leaves.
#[derive(Clone, Copy)]
pub struct Tenth {
    pub quotient: [u64; 2],
    pub digit: u64,
}

// `n / 10` and `n % 10`: the digits of two words, the lowest first. Not by `/` of u128: for that the compiler calls
// a function from outside (`__udivti3`), which an archive would ask of its host.
pub fn by_ten(n: [u64; 2]) -> Tenth
    ensures { (result.quotient ≡ words (value n / 10)) × (result.digit ≡ value n % 10) }
{
    if n[1] != 0 {
        let low = divide(n[1] % 10, n[0], 10);
        return Tenth {
            quotient: [low.quotient, n[1] / 10],
            digit: low.rest,
        };
    }
    // One word, as most prices are: by the machine's own division.
    Tenth {
        quotient: [n[0] / 10, 0],
        digit: n[0] % 10,
    }
}

// What the price of a fill is asked with: the report's LastQty, LastPx, CumQty and AvgPx, the order's
// cumulative quantity and average, and the rise. Quantities are counts of 1/10,000, prices of 10^-8.
#[derive(Clone, Copy)]
pub struct Fill {
    pub lastqty: u64,
    pub lastpx: u64,
    pub cumqty: u64,
    pub avgpx: u64,
    pub oldcum: u64,
    pub oldavg: u64,
    pub rise: u64,
}

impl Fill {
    // Does the report's LastPx tell the price? It is above 0, and there is no rise or it is LastQty.
    #[tactic(auto, unfolding(crate::specs::Wide::by_last_px))]
    pub fn by_last_px(self) -> bool
        ensures { result ≡ by_last_px self.lastqty self.lastpx self.rise }
    {
        0 < self.lastpx && (self.rise == 0 || self.rise == self.lastqty)
    }

    // The price that the change of the average implies for the rise; 0 if it is not positive.
    #[tactic(auto, using(crate::specs::Laws::Words::value_of), unfolding(crate::specs::Wide::implied))]
    pub fn implied(self) -> [u64; 2]
        ensures { result ≡ words (implied self.cumqty self.avgpx self.oldcum self.oldavg self.rise) }
    {
        let new = product(self.cumqty, self.avgpx);
        let old = product(self.oldcum, self.oldavg);
        quotient(difference(new, old), self.rise)
    }

    // The price and where it came from.
    #[tactic(auto, using(crate::specs::Laws::Words::value_of, crate::specs::Laws::Words::one_word, std::proofs::lemmas::Bool::Decides::nat_tests, prelude::specs::Laws::Cases::if_true, prelude::specs::Laws::Cases::if_false), unfolding(crate::specs::Wide::fill_price))]
    pub fn price(self) -> Priced
        ensures { result ≡ fill_price self.lastqty self.lastpx self.cumqty self.avgpx self.oldcum self.oldavg self.rise }
    {
        if self.by_last_px() {
            return Priced {
                price: [self.lastpx, 0],
                source: FROM_LAST_PX,
            };
        }
        let price = self.implied();
        if 0 < joined(price) {
            Priced {
                price,
                source: FROM_QUOTIENT,
            }
        } else {
            Priced {
                price: [self.avgpx, 0],
                source: FROM_AVERAGE,
            }
        }
    }
}
