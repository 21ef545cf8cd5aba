// The evening page of a book, printed into a lent buffer: 81 bytes for each order, in booking order.
// What a page is stands in specs/Page.antt, and what holds of its bytes in specs/Promise.antt. Rests on
// rules, store, orders' `leaves_qty`, decimal and counted.
#![tactic(auto)]

ghost use Rattle.std.specs.Prelude.{◌≡◌, ◌+◌, ◌*◌, ◌^◌, ◌≤◌, ◌<◌, ltb, length, get_or};
ghost use Rattle.prelude.specs.Cases.{if◌then◌otherwise◌};
ghost use Rattle.prelude.specs.Span.{splice};
ghost use Rattle.prelude.specs.Texts.{contents};
ghost use Rattle.store.specs.Book.{book_of, order_count};
ghost use Rattle.prelude.specs.Counted.{counted_of};
ghost use Rattle.page.specs.Page.{printable, left, quantity, line_of, line_bytes, page_of, page_bytes, paged, page_call};
ghost use Rattle.page.specs.Promise.{InRange};

use prelude::{Refusal, Text};
use rules::Kept;
use store::Order;

// A line, with its line feed.
const LINE: usize = 81;

// Byte i of a text, as it prints: a byte below 32 is a blank, and so is each column behind the text's end.
#[tactic(auto, using(crate::specs::Laws::Line::shows))]
fn shown(t: Text, i: usize) -> u8
    requires { i < 32 }
    ensures { result ≡ (if ltb i t.len then printable (get_or t.bytes i 0) otherwise 32) }
{
    if i < usize::from(t.len) {
        t.bytes[i].max(b' ')
    } else {
        b' '
    }
}

// A text from the left of its columns, filled with blanks. The loop goes by index: `array::from_fn` was tried, and
// its proof did not close, since the library has no law from what its closure gives to the items of the array; a
// part of `s` lent to `iter_mut` would need the same invariant, said of the part and then of `s`.
#[tactic(auto, using(crate::specs::Laws::Line::columns), unfolding(prelude::specs::Texts::contents))]
fn put_left(s: &mut [u8], at: usize, width: usize, t: Text)
    requires { (at + width ≤ length s.old) × (width ≤ 32) }
    ensures { s.new ≡ splice s.old at (left width (contents t)) }
{
    for i in 0..width {
        s[at + i] = shown(t, i);
    }
}

// A quantity in its fourteen columns.
#[tactic(auto, using(crate::specs::Laws::Line::quantity_room))]
fn put_quantity(s: &mut [u8], at: usize, n: u64)
    requires { (at + 14 ≤ length s.old) × (n ≤ 10 ^ 12) }
    ensures { s.new ≡ splice s.old at (quantity n) }
{
    decimal::put_right(s, at, 14, n, 4);
}

// An order's line over all of s.
fn put_line(s: &mut [u8], o: Order)
    requires { (length s.old ≡ 81) × InRange o }
    ensures { s.new ≡ line_bytes (line_of o) }
{
    put_left(s, 0, 20, o.names.name);
    put_left(s, 20, 16, o.names.symbol);
    s[36] = o.state.status;
    put_quantity(s, 37, o.terms.qty);
    put_quantity(s, 51, o.state.cumqty);
    let leaves = orders::order::leaves_qty(&o);
    put_quantity(s, 65, leaves);
    s[79] = b' ';
    s[80] = b'\n';
}

// The lines of the book's orders. A line is placed by its number: `as_chunks_mut` says nothing of what the slice
// ends as.
#[tactic(auto, using(crate::specs::Laws::Call::turns))]
fn put_lines(book: &Kept<'_>, out: &mut [u8])
    requires { 81 * order_count book.now.bytes.now ≤ length out.old }
    ensures { out.new ≡ splice out.old 0 (page_bytes (page_of (book_of book.now.bytes.now))) }
{
    for i in 0..store::order_count(book.bytes) {
        let o = store::load_order(book.bytes, i);
        let at = LINE * i;
        put_line(&mut out[at..at + LINE], o);
    }
}

// Prints the page to the front of `out`; the number is its length. Refuses a book that does not keep
// its rules, then an `out` that is shorter than the page.
#[tactic(auto, using(store::specs::Laws::Stored::count_most, crate::specs::Laws::Call::calls))]
pub fn page(book: &[u8], out: &mut [u8]) -> Result<u32, Refusal>
    ensures { paged (counted_of result) out.new ≡ page_call book.now out.old }
{
    let book = Kept::new(book)?;
    let long = LINE * store::order_count(book.bytes);
    if out.len() < long {
        return Err(Refusal::ShortPage);
    }
    put_lines(&book, out);
    // The cast by `as` is proved to lose nothing.
    Ok(long as u32)
}
