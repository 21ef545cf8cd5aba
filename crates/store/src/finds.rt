// Lookups over the records in use, in place: no record is copied to be compared. That an index is of a
// record stands in the contracts: a type for it would be made at each turn of a lookup and taken apart at
// once. Rests on cells and text.
ghost use Rattle.std.specs.Prelude.{◌≡◌, ◌≤◌, ◌<◌};
ghost use Rattle.store.specs.Layout.{most_orders, most_requests};
ghost use Rattle.store.specs.Book.{book_of};
ghost use Rattle.store.specs.Finds.{find_client, find_name, find_downstream, find_clordid, count_clordids};
ghost use Rattle.store.specs.Laws.Finds.{clients_at, named_at, bears_at, of_client_at, used_at, used_as_at};

use crate::cells::u16_at;
use crate::layout::{self, Bytes};
use crate::{order_count, request_count, whole};
use prelude::Text;

// Whether order k is that client's.
#[tactic(auto, using(crate::specs::Laws::Fields::order_client))]
fn is_clients(book: &Bytes, k: usize, client: u16) -> bool
    requires { k < most_orders }
    ensures { result ≡ clients_at book.now client k }
{
    u16_at(book, layout::ORDERS + k * layout::ORDER + layout::CLIENT) == client
}

// The first order of that client. The lookups are chains of one line: a function over them would take
// count and test, with clauses that speak of every closure, and be no shorter.
#[tactic(auto, using(crate::specs::Laws::Finds::find_client_bytes, crate::proofs::InUse::none_found))]
pub fn find_client(book: &[u8], client: u16) -> Option<usize>
    ensures { result ≡ find_client (book_of book.now) client }
{
    let book = whole(book)?;
    (0..order_count(book)).find(move |k| is_clients(book, *k, client))
}

#[tactic(auto, using(text::specs::Laws::InPlace::text_is_here, crate::specs::Laws::Fields::names_name))]
fn named(book: &Bytes, k: usize, t: Text) -> bool
    requires { k < most_orders }
    ensures { result ≡ named_at book.now t k }
{
    text::text_is(book, layout::ORDERS + k * layout::ORDER + layout::NAME, t)
}

// The first order of that name.
#[tactic(auto, using(crate::specs::Laws::Finds::find_name_bytes, crate::proofs::InUse::none_found))]
pub fn find_name(book: &[u8], t: Text) -> Option<usize>
    ensures { result ≡ find_name (book_of book.now) t }
{
    let book = whole(book)?;
    (0..order_count(book)).find(move |k| named(book, *k, t))
}

#[tactic(auto, using(text::specs::Laws::InPlace::text_is_here, crate::specs::Laws::Fields::request_downstream))]
fn bears(book: &Bytes, k: usize, t: Text) -> bool
    requires { k < most_requests }
    ensures { result ≡ bears_at book.now t k }
{
    text::text_is(
        book,
        layout::REQUESTS + k * layout::REQUEST + layout::REQUEST_DOWNSTREAM,
        t,
    )
}

// The first request that bears that downstream ClOrdID.
#[tactic(auto, using(crate::specs::Laws::Finds::find_downstream_bytes, crate::proofs::InUse::none_found))]
pub fn find_downstream(book: &[u8], t: Text) -> Option<usize>
    ensures { result ≡ find_downstream (book_of book.now) t }
{
    let book = whole(book)?;
    (0..request_count(book)).find(move |k| bears(book, *k, t))
}

// Whether request k is of one of the first n orders, and of that client. A struct of book, n and client
// would be made by two lookups, handed on by `used` and `used_as`, and taken apart here: no plainer.
#[tactic(auto, using(crate::specs::Laws::Fields::request_order), unfolding(crate::specs::Laws::Finds::of_client_at))]
fn of_client(book: &Bytes, k: usize, n: usize, client: u16) -> bool
    requires { (k < most_requests) × (n ≤ most_orders) }
    ensures { result ≡ of_client_at book.now n client k }
{
    let at = layout::REQUESTS + k * layout::REQUEST + layout::REQUEST_ORDER;
    let order = usize::from(u16_at(book, at));
    order < n && is_clients(book, order, client)
}

// Whether request k has a ClOrdID and is that client's.
#[tactic(auto, using(crate::specs::Laws::Fields::request_clordid_len))]
fn used(book: &Bytes, k: usize, n: usize, client: u16) -> bool
    requires { (k < most_requests) × (n ≤ most_orders) }
    ensures { result ≡ used_at book.now n client k }
{
    let at = layout::REQUESTS + k * layout::REQUEST + layout::REQUEST_CLORDID_LEN;
    book[at] != 0 && of_client(book, k, n, client)
}

// Whether that client used it, under that ClOrdID.
#[tactic(auto, using(std::proofs::lemmas::Bool::and_right, text::specs::Laws::InPlace::text_is_here, crate::specs::Laws::Fields::request_clordid))]
fn used_as(book: &Bytes, k: usize, n: usize, client: u16, t: Text) -> bool
    requires { (k < most_requests) × (n ≤ most_orders) }
    ensures { result ≡ used_as_at book.now n client t k }
{
    let at = layout::REQUESTS + k * layout::REQUEST + layout::REQUEST_CLORDID;
    text::text_is(book, at, t) && used(book, k, n, client)
}

// The first request in which that client used that ClOrdID.
#[tactic(auto, using(crate::specs::Laws::Finds::find_clordid_bytes, crate::proofs::InUse::none_found))]
pub fn find_clordid(book: &[u8], client: u16, t: Text) -> Option<usize>
    ensures { result ≡ find_clordid (book_of book.now) client t }
{
    let book = whole(book)?;
    let n = order_count(book);
    (0..request_count(book)).find(move |k| used_as(book, *k, n, client, t))
}

// How many ClOrdIDs that client has used. `filter` and `count` were tried, and take a third longer in a
// full book.
pub fn count_clordids(book: &[u8], client: u16) -> usize
    ensures { result ≡ count_clordids (book_of book.now) client }
{
    let Some(book) = whole(book) else {
        return 0;
    };
    let n = order_count(book);
    let mut count = 0;
    for k in 0..request_count(book) {
        count += usize::from(used(book, k, n, client));
    }
    count
}
