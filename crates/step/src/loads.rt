// Records in use, by index or link, and what an event's handling needs of the book. A link is a number, as
// the book has it: one more than the index, and 0 for none. Rests on store and rules.
ghost use Rattle.std.specs.Prelude.{◌≡◌, ◌+◌, ◌≤◌};
ghost use Rattle.store.specs.Layout.{most_requests};
ghost use Rattle.store.specs.Book.{book_of, order_in, request_in};
ghost use Rattle.machine.specs.Machine.{order_link, order_of, order_at_link};
ghost use Rattle.step.specs.Steps.{order_of_link, request_at_link, findings_at, is_full};

use machine::Findings;
use prelude::Text;
use rules::Kept;
use store::{Order, Request};

// The link of index i. The cast by `as` is proved to lose nothing. `index` adds the one itself: a function for
// both would be public, and could not ask that the index is so small.
pub(crate) fn link_of(i: usize) -> u16
    requires { i ≤ most_requests }
    ensures { result ≡ i + 1 }
{
    (i + 1) as u16
}

// Order i, or the order of zeros if it is not in use.
#[tactic(auto, using(crate::specs::Laws::Found::order_past, store::specs::Laws::Stored::load_order_in))]
pub(crate) fn order_in(book: &[u8], i: usize) -> Order
    ensures { result ≡ order_in (book_of book.now) i }
{
    if i < store::order_count(book) {
        store::load_order(book, i)
    } else {
        store::no_order()
    }
}

// Request k, or the request of zeros if it is not in use. It is written out as for orders: one function for both tables,
// here and for links, would take the count, the zeros and the reading of each, by a trait or as closures,
// under longer contracts, and its body would be this `if`.
#[tactic(auto, using(crate::specs::Laws::Found::request_past, store::specs::Laws::Stored::load_request_in))]
pub(crate) fn request_in(book: &[u8], k: usize) -> Request
    ensures { result ≡ request_in (book_of book.now) k }
{
    if k < store::request_count(book) {
        store::load_request(book, k)
    } else {
        store::no_request()
    }
}

// The order of a link, or the order of zeros.
#[tactic(auto, unfolding(machine::specs::Machine::order_at_link), using(orders::specs::Laws::Choices::choices))]
pub(crate) fn order_at_link(book: &[u8], place: u16) -> Order
    ensures { result ≡ order_at_link (book_of book.now) place }
{
    match place {
        0 => store::no_order(),
        _ => order_in(book, usize::from(place - 1)),
    }
}

// The request of a link, or the request of zeros.
#[tactic(auto, unfolding(crate::specs::Steps::request_at_link), using(orders::specs::Laws::Choices::choices))]
fn request_at_link(book: &[u8], link: u16) -> Request
    ensures { result ≡ request_at_link (book_of book.now) link }
{
    match link {
        0 => store::no_request(),
        _ => request_in(book, usize::from(link - 1)),
    }
}

// What the handling of an event needs beside the order o of link `place`.
#[tactic(auto, unfolding(crate::specs::Steps::findings_at), using(store::specs::Laws::Stored::count_most, store::specs::Laws::Stored::length_requests))]
pub(crate) fn findings_at(book: &[u8], place: u16, o: &Order) -> Findings
    ensures { result ≡ findings_at (book_of book.now) place o.now }
{
    Findings {
        place,
        // The cast by `as` is proved to lose nothing.
        requests: store::request_count(book) as u16,
        cancel: request_at_link(book, o.links.cancel),
    }
}

// The link of the order of request k, or 1 if there is no request k.
#[tactic(auto, using(crate::specs::Laws::Found::order_few))]
fn order_link(book: &Kept<'_>, k: usize) -> u16
    ensures { result ≡ order_link (book_of book.now.bytes.now) k }
{
    request_in(book.bytes, k).order + 1
}

// The link of the order of the request of a link, or 0.
#[tactic(auto, unfolding(crate::specs::Steps::order_of_link), using(orders::specs::Laws::Choices::choices))]
pub(crate) fn order_of_link(book: &Kept<'_>, link: u16) -> u16
    ensures { result ≡ order_of_link (book_of book.now.bytes.now) link }
{
    match link {
        0 => 0,
        _ => order_link(book, usize::from(link - 1)),
    }
}

// The link of the order in which the client used the ClOrdID, or 0.
#[tactic(auto, unfolding(machine::specs::Machine::order_of), using(prelude::specs::Laws::Cases::maybe_some, prelude::specs::Laws::Cases::maybe_none))]
pub(crate) fn order_of(book: &Kept<'_>, client: u16, t: Text) -> u16
    ensures { result ≡ order_of (book_of book.now.bytes.now) client t }
{
    // This is a `match`, as in `on_request` and `on_name`: `map_or` was tried; it needs a proof file of its own, and
    // is no shorter.
    match store::find_clordid(book.bytes, client, t) {
        Some(k) => order_link(book, k),
        None => 0,
    }
}

// Whether the client has used as many ClOrdIDs as it may.
#[tactic(auto, unfolding(crate::specs::Steps::is_full), using(crate::specs::Laws::Found::setting_read))]
pub(crate) fn is_full(book: &[u8], client: u16) -> bool
    ensures { result ≡ is_full (book_of book.now) client }
{
    // The cast by `as` is proved to lose nothing: std has no `From<u32>` for usize.
    let most = store::setting(book) as usize;
    most <= store::count_clordids(book, client)
}
