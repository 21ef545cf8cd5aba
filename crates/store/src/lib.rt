// The book in its buffer: one slice of 65,536 bytes with a header, 64 order records and 256 request
// records. Rests on prelude, words and text. Every public function is total: a buffer of another length
// is an empty book that nothing changes, and an index past a table has the answer that is stated.
#![tactic(auto)]

ghost use Rattle.std.specs.Prelude.{◌≡◌, ◌+◌, ◌*◌, ◌≤◌, ◌<◌, ◌&&◌, true, false, ltb, length, MatchOption};
ghost use Rattle.prelude.specs.Span.{span};
ghost use Rattle.store.specs.Layout.{book_size, orders_at, most_orders, most_requests, request_size, request_base};
ghost use Rattle.store.specs.Orders.{no_gateway, no_pending, no_order};
ghost use Rattle.store.specs.Requests.{no_request};
ghost use Rattle.store.specs.Book.{is_book, put_order, count_at, order_count, request_count, setting_of, load_order, store_order, add_order, load_request, add_request, mark_answered, load_origin, store_origin, load_open, store_open, clear_book};

use cells::{u16_at, u32_at};
use prelude::{Terms, Text};

mod cells; // texts and numbers at an index
mod finds; // lookups
pub mod kinds; // the kinds of requests
pub mod layout; // where everything stands
mod orders; // the record of an order
pub mod outcomes; // what requests come to
mod requests; // the record of a request

pub use finds::{count_clordids, find_client, find_clordid, find_downstream, find_name};
pub use orders::{stuck_of, unsent_of};

// An order's texts. `clordid` is the client's current one, `downstream` the one that the venue
// knows the order by now; `venueorderid` is empty until the venue gives one.
#[derive(Clone, Copy, Debug, PartialEq, Eq)]
pub struct Names {
    pub name: Text,
    pub clordid: Text,
    pub downstream: Text,
    pub symbol: Text,
    pub venueorderid: Text,
}

// How far the order is. `status` is a byte as records and books hold it, in which any may stand: a
// number, no enum.
#[derive(Clone, Copy, Debug, PartialEq, Eq)]
pub struct State {
    pub status: u8,
    pub cumqty: u64,
    pub avgpx: u64,
    pub execseq: u64,
}

// Requests sent beside the first, and which requests are the current one and the latest cancel.
// A link is as the book holds it, 0 for none, else one more than the request's index: any two bytes may
// stand there, so no Option.
#[derive(Clone, Copy, Debug, PartialEq, Eq)]
pub struct Links {
    pub amendments: u16,
    pub current: u16,
    pub cancel: u16,
}

// A replace that waits for the venue's answer: the link of its request and its terms. All are zero if there
// is none. It is no Option: a book may hold terms with request 0, and the ranges have to see them.
#[derive(Clone, Copy, Debug, PartialEq, Eq)]
pub struct Pending {
    pub request: u16,
    pub qty: u64,
    pub price: u64,
    pub ordtype: u8,
    pub timeinforce: u8,
}

// The gateway's own cancel of the order. All are zero if there is none; if there is one, `origdownstream` is
// the link of the request that its latest cancel named. It is no Option for the same reason, and has two
// flags and no enum: a malformed stage shows both.
#[derive(Clone, Copy, Debug, PartialEq, Eq)]
pub struct GatewayCancel {
    pub tries: u8,
    pub unsent: bool,
    pub stuck: bool,
    pub origdownstream: u16,
    pub refusedsends: u32,
}

#[derive(Clone, Copy, Debug, PartialEq, Eq)]
pub struct Order {
    pub client: u16,
    pub venue: u16,
    pub names: Names,
    pub terms: Terms,
    pub state: State,
    pub links: Links,
    pub pending: Pending,
    pub gateway: GatewayCancel,
}

// A request sent to a venue (the Rust's `Sent`), by the index of its order. `kind` is one of `kinds`:
// a gateway's cancel has no ClOrdID, a client's cancel or replace has an OrigClOrdID. `answered` is 0
// or 1 in a book that keeps its rules, and `outcome` is what came of it, 0 while it is open, else one of
// `outcomes`. Any byte may stand in the three: numbers, no enum and no bool.
#[derive(Clone, Copy, Debug, PartialEq, Eq)]
pub struct Request {
    pub order: u16,
    pub kind: u8,
    pub answered: u8,
    pub clordid: Text,
    pub origclordid: Text,
    pub downstream: Text,
    pub outcome: u8,
}

// The zeros are constants, with every field, and no derived `Default`: of an array std says that each item is a
// default, not that it is the zeros of specs/Orders.antt, so each of the four would need a lemma where the
// constant is the definition as it stands. The functions below are the public names with their contracts; the
// constants are public since a struct update takes one.

// No replace waits.
pub const NO_PENDING: Pending = Pending {
    request: 0,
    qty: 0,
    price: 0,
    ordtype: 0,
    timeinforce: 0,
};

// No gateway cancel stands.
pub const NO_GATEWAY: GatewayCancel = GatewayCancel {
    tries: 0,
    unsent: false,
    stuck: false,
    origdownstream: 0,
    refusedsends: 0,
};

const NO_TEXT: Text = Text {
    bytes: [0; 32],
    len: 0,
};

// The order of zeros.
pub const NO_ORDER: Order = Order {
    client: 0,
    venue: 0,
    names: Names {
        name: NO_TEXT,
        clordid: NO_TEXT,
        downstream: NO_TEXT,
        symbol: NO_TEXT,
        venueorderid: NO_TEXT,
    },
    terms: Terms {
        side: 0,
        ordtype: 0,
        timeinforce: 0,
        qty: 0,
        price: 0,
    },
    state: State {
        status: 0,
        cumqty: 0,
        avgpx: 0,
        execseq: 0,
    },
    links: Links {
        amendments: 0,
        current: 0,
        cancel: 0,
    },
    pending: NO_PENDING,
    gateway: NO_GATEWAY,
};

// The request of zeros.
pub const NO_REQUEST: Request = Request {
    order: 0,
    kind: 0,
    answered: 0,
    clordid: NO_TEXT,
    origclordid: NO_TEXT,
    downstream: NO_TEXT,
    outcome: 0,
};

pub fn no_pending() -> Pending
    ensures { result ≡ no_pending }
{
    NO_PENDING
}

pub fn no_gateway() -> GatewayCancel
    ensures { result ≡ no_gateway }
{
    NO_GATEWAY
}

pub fn no_order() -> Order
    ensures { result ≡ no_order }
{
    NO_ORDER
}

pub fn no_request() -> Request
    ensures { result ≡ no_request }
{
    NO_REQUEST
}

// The book, if the buffer has its length.
#[tactic(auto, using(crate::proofs::Loaded::sized))]
fn whole(buffer: &[u8]) -> Option<&layout::Bytes>
    ensures { MatchOption result (is_book buffer.now ≡ false) (λ book. (is_book buffer.now ≡ true) × (book.now ≡ buffer.now)) }
{
    buffer.as_array()
}

// Whether the buffer is a book, and i is the index of one of `most` records.
fn has_record(book: &[u8], most: usize, i: usize) -> bool
    ensures { result ≡ is_book book.now && ltb i most }
{
    book.len() == layout::BOOK && i < most
}

// The bytes of record i of the table at an index, if there is one.
fn record<const N: usize>(book: &[u8], table: usize, most: usize, i: usize) -> Option<&[u8; N]>
    requires { table + most * N ≤ book_size }
    ensures { MatchOption result (is_book book.now && ltb i most ≡ false) (λ bytes. (is_book book.now && ltb i most ≡ true) × (bytes.now ≡ span book.now (table + i * N) N)) }
{
    if !has_record(book, most, i) {
        return None;
    }
    cells::part(book, table + i * N)
}

fn request_record(book: &[u8], i: usize) -> Option<&[u8; layout::REQUEST]>
    ensures { MatchOption result (is_book book.now && ltb i most_requests ≡ false) (λ bytes. (is_book book.now && ltb i most_requests ≡ true) × (bytes.now ≡ span book.now (request_base i) request_size)) }
{
    record(book, layout::REQUESTS, layout::MOST_REQUESTS, i)
}

fn count_at(book: &[u8], at: usize, most: usize) -> usize
    requires { at + 2 ≤ orders_at }
    ensures { result ≡ count_at at most book.now }
{
    whole(book).map_or(0, |book| most.min(usize::from(u16_at(book, at))))
}

// Orders in use.
pub fn order_count(book: &[u8]) -> usize
    ensures { result ≡ order_count book.now }
{
    count_at(book, layout::ORDER_COUNT, layout::MOST_ORDERS)
}

// Requests in use.
pub fn request_count(book: &[u8]) -> usize
    ensures { result ≡ request_count book.now }
{
    count_at(book, layout::REQUEST_COUNT, layout::MOST_REQUESTS)
}

// The most ClOrdIDs that a client may use.
pub fn setting(book: &[u8]) -> u32
    ensures { result ≡ setting_of book.now }
{
    whole(book).map_or(0, |book| u32_at(book, layout::SETTING))
}

// Writes record i of the orders.
#[tactic(auto, unfolding(crate::specs::Book::put_order))]
fn write_order(book: &mut [u8], i: usize, o: Order)
    requires { (length book.old ≡ book_size) × (i < most_orders) }
    ensures { book.new ≡ put_order book.old i o }
{
    let at = layout::ORDERS + i * layout::ORDER;
    cells::put(book, at, &orders::encode(o));
}

// The order in record i, or the order of zeros if there is no such record.
pub fn load_order(book: &[u8], i: usize) -> Order
    ensures { result ≡ load_order book.now i }
{
    record(book, layout::ORDERS, layout::MOST_ORDERS, i).map_or(NO_ORDER, orders::decode)
}

// Writes record i, or nothing if there is no such record.
#[tactic(auto, using(prelude::specs::Laws::Cases::if_true, prelude::specs::Laws::Cases::if_false), unfolding(crate::specs::Book::store_order))]
pub fn store_order(book: &mut [u8], i: usize, o: Order)
    ensures { book.new ≡ store_order book.old i o }
{
    if has_record(book, layout::MOST_ORDERS, i) {
        write_order(book, i, o);
    }
}

// Writes an order behind those in use, or nothing if the table is full.
#[tactic(auto, using(prelude::specs::Laws::Cases::if_true, prelude::specs::Laws::Cases::if_false), unfolding(crate::specs::Book::add_order, crate::specs::Book::set_count))]
pub fn add_order(book: &mut [u8], o: Order)
    ensures { book.new ≡ add_order book.old o }
{
    let n = order_count(book);
    if has_record(book, layout::MOST_ORDERS, n) {
        write_order(book, n, o);
        // At most 64: by `as`, which is proved to lose nothing.
        cells::put16(book, layout::ORDER_COUNT, (n + 1) as u16);
    }
}

// The request in record i, or the request of zeros if there is no such record.
pub fn load_request(book: &[u8], i: usize) -> Request
    ensures { result ≡ load_request book.now i }
{
    request_record(book, i).map_or(NO_REQUEST, requests::decode)
}

// Writes a request behind those in use, with no origin, or nothing if the table is full.
#[tactic(auto, using(prelude::specs::Laws::Cases::if_true, prelude::specs::Laws::Cases::if_false), unfolding(crate::specs::Book::add_request, crate::specs::Book::put_request, crate::specs::Book::set_count))]
pub fn add_request(book: &mut [u8], r: Request)
    ensures { book.new ≡ add_request book.old r }
{
    let n = request_count(book);
    if has_record(book, layout::MOST_REQUESTS, n) {
        let at = layout::REQUESTS + n * layout::REQUEST;
        cells::put(book, at, &requests::encode(r));
        // At most 256: by `as`, which is proved to lose nothing.
        cells::put16(book, layout::REQUEST_COUNT, (n + 1) as u16);
    }
}

// The origin of request i, or 0 if there is no such record.
pub fn load_origin(book: &[u8], i: usize) -> u16
    ensures { result ≡ load_origin book.now i }
{
    request_record(book, i).map_or(0, |bytes| u16_at(bytes, layout::REQUEST_ORIGIN))
}

// Writes the origin of request i, or nothing if there is no such record.
#[tactic(auto, using(prelude::specs::Laws::Cases::if_true, prelude::specs::Laws::Cases::if_false), unfolding(crate::specs::Book::store_origin))]
pub fn store_origin(book: &mut [u8], i: usize, origin: u16)
    ensures { book.new ≡ store_origin book.old i origin }
{
    if has_record(book, layout::MOST_REQUESTS, i) {
        let at = layout::REQUESTS + i * layout::REQUEST;
        cells::put16(book, at + layout::REQUEST_ORIGIN, origin);
    }
}

// Sets the answered byte of request i, and its outcome if the byte was not set before; or nothing if there is
// no such record.
pub fn mark_answered(book: &mut [u8], i: usize, outcome: u8)
    ensures { book.new ≡ mark_answered book.old i outcome }
{
    if let Some(bytes) = request_record(book, i) {
        let settled = requests::settled_as(bytes, outcome);
        let at = layout::REQUESTS + i * layout::REQUEST;
        cells::put(book, at + layout::REQUEST_ANSWERED, &[1]);
        cells::put(book, at + layout::REQUEST_OUTCOME, &[settled]);
    }
}

// The word of order i behind the tables, or 0 if there is no such word.
pub fn load_open(book: &[u8], i: usize) -> u64
    ensures { result ≡ load_open book.now i }
{
    record(book, layout::OPENS, layout::MOST_ORDERS, i).map_or(0, |word| u64::from_le_bytes(*word))
}

// Writes the word of order i behind the tables, or nothing if there is no such word.
#[tactic(auto, using(prelude::specs::Laws::Cases::if_true, prelude::specs::Laws::Cases::if_false), unfolding(crate::specs::Book::store_open))]
pub fn store_open(book: &mut [u8], i: usize, quantity: u64)
    ensures { book.new ≡ store_open book.old i quantity }
{
    if has_record(book, layout::MOST_ORDERS, i) {
        let at = layout::OPENS + i * layout::OPEN;
        cells::put64(book, at, quantity);
    }
}

// Makes the book empty, with its setting; a buffer of another length stays as it is.
pub fn clear(book: &mut [u8], setting: u32)
    ensures { book.new ≡ clear_book book.old setting }
{
    if book.len() == layout::BOOK {
        book.fill(0);
        cells::put32(book, layout::SETTING, setting);
    }
}
