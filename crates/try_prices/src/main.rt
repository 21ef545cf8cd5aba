// Compares the price of a fill by `wide` with stored answers, which it reads from standard input, 80 bytes
// each: the Rust's, and at an exact half the rule's. It prints how many there were, how many differ,
// how many each way of finding a price told, and how many are at a half. Rests on wide, words, input
// and specs/Vectors.antt.
#![tactic(auto)]

ghost use Rattle.std.specs.Prelude.{◌≡◌, ◌≤◌};
ghost use Rattle.prelude.specs.Number.{word64};
ghost use Rattle.try_prices.specs.Vectors.{IsVector, priced_of};

use std::io::Read;
use std::{fmt, io};
use wide::{Fill, Priced};

// A question to `wide`, the two words of the stored answer, and the rule that this follows at a half:
// the Rust's own, or HALF_UP. The rule is the number that is stored, in which any may stand.
#[derive(Clone, Copy)]
struct Vector {
    fill: Fill,
    price: [u64; 2],
    rule: u64,
}

const HALF_UP: u64 = 1;

// The number of 8 bytes at an index, the lowest first. Here, and not words': a public function asks nothing of its
// callers.
#[tactic(auto, using(words::specs::Laws::Windows::window_64))]
fn word(bytes: &[u8; 80], at: usize) -> u64
    requires { at ≤ 72 }
    ensures { result ≡ word64 bytes.now at }
{
    words::get64(&bytes[at..at + 8])
}

impl From<&[u8; 80]> for Vector {
    fn from(bytes: &[u8; 80]) -> Vector
        ensures { IsVector bytes.now result }
    {
        Vector {
            fill: Fill {
                lastqty: word(bytes, 0),
                lastpx: word(bytes, 8),
                cumqty: word(bytes, 16),
                avgpx: word(bytes, 24),
                oldcum: word(bytes, 32),
                oldavg: word(bytes, 40),
                rise: word(bytes, 48),
            },
            price: [word(bytes, 56), word(bytes, 64)],
            rule: word(bytes, 72),
        }
    }
}

impl Vector {
    // What `wide` makes of the question.
    fn priced(&self) -> Priced
        ensures { result ≡ priced_of self.now }
    {
        self.fill.price()
    }
}

// What was counted; a count that has reached the most it can be stays there.
#[derive(Clone, Copy, Default)]
struct Tally {
    vectors: u64,
    differ: u64,
    by_last_px: u64,
    by_quotient: u64,
    by_average: u64,
    halves: u64,
}

impl Tally {
    fn count(&mut self, vector: &Vector) {
        let priced = vector.priced();
        self.vectors = self.vectors.saturating_add(1);
        if priced.price != vector.price {
            self.differ = self.differ.saturating_add(1);
        }
        match priced.source {
            wide::FROM_LAST_PX => self.by_last_px = self.by_last_px.saturating_add(1),
            wide::FROM_QUOTIENT => self.by_quotient = self.by_quotient.saturating_add(1),
            _ => self.by_average = self.by_average.saturating_add(1),
        }
        if vector.rule == HALF_UP {
            self.halves = self.halves.saturating_add(1);
        }
    }
}

impl fmt::Display for Tally {
    fn fmt<W: fmt::Write>(&self, f: &mut fmt::Formatter<W>) -> fmt::Result {
        let Tally {
            vectors,
            differ,
            by_last_px,
            by_quotient,
            by_average,
            halves,
        } = *self;
        writeln!(f, "vectors {vectors}")?;
        writeln!(f, "differ {differ}")?;
        writeln!(f, "by LastPx {by_last_px}")?;
        writeln!(f, "by the quotient {by_quotient}")?;
        writeln!(f, "by the average {by_average}")?;
        write!(f, "at a half {halves}")
    }
}

// Nothing says that the input ends, and a proved loop has to: no run uses up its turns.
fn judged<R: Read>(input: &mut R) -> io::Result<Tally> {
    let mut tally = Tally::default();
    for _ in 0..u64::MAX {
        let Some(bytes) = input::read_array(input)? else {
            break;
        };
        tally.count(&Vector::from(&bytes));
    }
    Ok(tally)
}

fn main(rt: HostRuntime) -> io::Result<()> {
    rt.println(judged(&mut rt.reader())?)
}
