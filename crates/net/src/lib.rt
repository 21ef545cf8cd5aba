// The net position of a book, written into a lent buffer: 27 bytes for each client and symbol that has
// an order, by its first booking. What a position and a line are stands in specs/Net.antt, and what
// holds of them in specs/Promise.antt. Rests on rules, store, text, words and counted.
#![tactic(auto)]

ghost use Rattle.std.specs.Prelude.{◌≡◌, ◌≤◌, ◌<◌, length};
ghost use Rattle.prelude.specs.Span.{splice};
ghost use Rattle.store.specs.Book.{book_of, order_count};
ghost use Rattle.prelude.specs.Counted.{counted_of};
ghost use Rattle.net.specs.Net.{positions, net_of, net_bytes, least_lines, IsNet};
ghost use Rattle.net.specs.Laws.Call.{IsNext};

use pair::Pair;
use prelude::Refusal;
use rules::Kept;

mod line; // one line
mod pair; // the orders of one client in one symbol

// What was bought and what was sold.
#[derive(Clone, Copy, Default)]
pub struct Amounts {
    pub bought: u64,
    pub sold: u64,
}

// A line.
const LINE: usize = 27;

// The least that is lent: numbers of scratch, and bytes of lines.
const LEAST_SCRATCH: usize = 1;

const LEAST_LINES: usize = 1728;

// Writes the line of order i behind so many lines, if it is the first of its client and symbol, and returns how
// many lines there are then. The line is placed by its number: `as_chunks_mut` says nothing of what the slice
// ends as.
#[tactic(auto, using(store::specs::Laws::Stored::count_most))]
fn put_next(book: &Kept<'_>, out: &mut [u8], i: usize, lines: usize) -> usize
    requires { (i < order_count book.now.bytes.now) × (lines ≤ i) × (least_lines ≤ length out.old) }
    ensures { IsNext (book_of book.now.bytes.now) i lines out.old result out.new }
{
    let o = store::load_order(book.bytes, i);
    let pair = Pair {
        client: o.client,
        symbol: o.names.symbol,
    };
    if !pair.unseen(book.bytes, i) {
        return lines;
    }
    let net = pair.amounts(book, i).net();
    let at = LINE * lines;
    line::put_line(&mut out[at..at + LINE], pair, net);
    lines + 1
}

// The lines of the book's orders; returns how many.
#[tactic(auto, using(crate::specs::Laws::Call::turns))]
fn put_lines(book: &Kept<'_>, out: &mut [u8]) -> usize
    requires { least_lines ≤ length out.old }
    ensures { (result ≡ length (net_of (book_of book.now.bytes.now))) × (out.new ≡ splice out.old 0 (net_bytes (net_of (book_of book.now.bytes.now)))) }
{
    let mut lines = 0;
    for i in 0..store::order_count(book.bytes) {
        lines = put_next(book, out, i, lines);
    }
    lines
}

// Writes the lines to the front of `lines`; the number is their count. Refuses a book that does not
// keep its rules, then a `scratch` or `lines` that is shorter than what is asked.
#[tactic(auto, using(crate::specs::Laws::Call::calls))]
pub fn net_position(book: &[u8], scratch: &mut [u64], lines: &mut [u8]) -> Result<u32, Refusal>
    ensures { IsNet book.now scratch.old lines.old (counted_of result) scratch.new lines.new }
{
    let book = Kept::new(book)?;
    if scratch.len() < LEAST_SCRATCH || lines.len() < LEAST_LINES {
        return Err(Refusal::ShortNet);
    }
    let count = put_lines(&book, lines);
    // The cast by `as` is proved to lose nothing.
    Ok(count as u32)
}
