// The rules of the book that a buffer is, decided in place: `keeps`, and a book that is known to keep
// them, `Kept`. Rests on machine's definitions of the rules, on index's of what is stored to be found
// quickly, on store's layout, and on orders, text, words, bits and format. Its cost grows with the records in use.
// Tests of numbers are joined by `&&`, so that the first that fails ends the check; what texts differ in is
// gathered by OR, so that one branch decides many parts (docs/SPEED.md, step 10). That an index is of a
// record, or a number below 1,000, stands in the contracts: a type for it would be made at each turn of a
// loop and taken apart for each byte.
#![tactic(auto)]

ghost use Rattle.std.specs.Prelude.{◌≡◌, ◌&&◌};
ghost use Rattle.index.specs.Index.{links_right};
ghost use Rattle.rules.specs.Keeps.{ruled_of, keeps_of};
ghost use Rattle.rules.specs.Laws.Ruled.{decided};

use book::Book;
use cells::u16_at;
use distinct::{Keys, Names};
use index::Ruled;
use store::layout;

mod beside; // an OrigClOrdID and its link
mod book; // the bytes, and the counts of what is in use
mod checked; // a book that is known to keep its rules
mod distinct; // names and ClOrdIDs are distinct
mod links; // an order's links and counts
mod numbered; // a name with a number
mod numbers; // requests
mod cells; // words and texts at an index
mod ranges; // fields in their ranges

pub use checked::Kept;

// The rules of the orders and requests in use, one after the other.
#[tactic(auto, using(crate::specs::Laws::Things::names_placed, crate::specs::Laws::Things::keys_placed), unfolding(crate::specs::Laws::Ruled::decided))]
fn decide(book: &Book<'_>) -> bool
    ensures { result ≡ decided book.now.bytes.now book.now.orders book.now.requests }
{
    if !ranges::ranges_ok(book) {
        return false;
    }
    let Some(next) = numbers::requests_ok(book) else {
        return false;
    };
    links::links_ok(book, &next)
        && distinct::distinct::<Names>(book.bytes, book.orders)
        && distinct::distinct::<Keys>(book.bytes, book.requests)
}

// Whether the book that the bytes are keeps machine's rules, the length and the counts included, and its
// OrigClOrdIDs' links are right.
fn ruled(book: &[u8]) -> bool
    ensures { result ≡ ruled_of book.now && links_right book.now }
{
    let Some(bytes) = book.as_array::<{ layout::BOOK }>() else {
        return false;
    };
    let orders = usize::from(u16_at(bytes, layout::ORDER_COUNT));
    let requests = usize::from(u16_at(bytes, layout::REQUEST_COUNT));
    if orders > layout::MOST_ORDERS || requests > layout::MOST_REQUESTS {
        return false;
    }
    decide(&Book {
        bytes,
        orders,
        requests,
    })
}

// Whether the book keeps its rules: machine's and the OrigClOrdIDs' links, then the open quantities.
#[tactic(auto, using(crate::specs::Laws::Keeps::decides))]
pub fn keeps(book: &[u8]) -> bool
    ensures { result ≡ keeps_of book.now }
{
    let Some(bytes) = book.as_array() else {
        return false;
    };
    ruled(book) && Ruled { bytes }.opens_right()
}
