// Every field of an order is in its range. Rests on format, store's flags and cells.
ghost use Rattle.std.specs.Prelude.{◌≡◌, ◌+◌, ◌<◌, ◌≤◌, true};
ghost use Rattle.prelude.specs.Below.{all_below, count_below};
ghost use Rattle.prelude.specs.Texts.{text_at, is_text};
ghost use Rattle.format.specs.Codes.{is_alnum, alnum_at, is_none, is_name};
ghost use Rattle.store.specs.Layout.{book_size, most_orders};
ghost use Rattle.store.specs.Book.{order_at};
ghost use Rattle.machine.specs.Ranges.{text_within};
ghost use Rattle.machine.specs.Rules.{names_range, force_range, priced_range, terms_range, pending_range, gateway_range};
ghost use Rattle.rules.specs.Laws.Here.{range_at};
ghost use Rattle.rules.specs.Laws.Letters.{shorts, texts_range};

use crate::book::Book;
use crate::cells::{filled, short_diff, u16_at, u32_at, u64_at};
use format::codes;
use store::layout::{self, Bytes};
use store::{stuck_of, unsent_of};

// A text is low to high bytes long, with zeros after it.
#[tactic(auto, unfolding(machine::specs::Ranges::text_within))]
fn within(book: &Bytes, at: usize, low: u8, high: u8) -> bool
    requires { at + 33 ≤ book_size }
    ensures { result ≡ text_within low high (text_at book.now at) }
{
    let len = book[at + layout::TEXT_LEN];
    filled(book, at) && (low <= len) && (len <= high)
}

// format's, written out by `&` and `|` of bytes alone: with it `letters` is taken 16 at a time (docs/SPEED.md,
// step 9), and `is_ascii_alphanumeric`, a `match` of a `char`, says no more.
#[tactic(auto, unfolding(format::specs::Codes::is_alnum))]
fn is_alnum(c: u8) -> bool
    ensures { result ≡ is_alnum c }
{
    ((b'0' <= c) & (c <= b'9')) | (((b'A' <= c) & (c <= b'Z')) | ((b'a' <= c) & (c <= b'z')))
}

// How many of a text's first N bytes are letters or digits: counted, so that they are taken 16 at a time and no
// index is compared (docs/SPEED.md, steps 9 and 10).
fn count_letters<const N: usize>(book: &Bytes, at: usize) -> u8
    requires { (at + 33 ≤ book_size) × (N ≤ 32) }
    ensures { result ≡ count_below (alnum_at (text_at book.now at)) N }
{
    let mut count = 0;
    for k in 0..N {
        count += u8::from(is_alnum(book[at + k]));
    }
    count
}

// Whether the text at an index is letters and digits. It has none behind its end, so they are counted
// from its start on.
fn letters(book: &Bytes, at: usize, len: u8) -> bool
    requires { (at + 33 ≤ book_size) × (len ≤ 20) × (is_text (text_at book.now at) ≡ true) × ((text_at book.now at).len ≡ len) }
    ensures { result ≡ all_below (alnum_at (text_at book.now at)) len }
{
    if len <= 16 {
        count_letters::<16>(book, at) == len
    } else {
        count_letters::<32>(book, at) == len
    }
}

#[tactic(auto, using(prelude::specs::Laws::Span::get_span), unfolding(format::specs::Codes::is_none))]
fn is_none(book: &Bytes, at: usize) -> bool
    requires { at + 33 ≤ book_size }
    ensures { result ≡ is_none (text_at book.now at) }
{
    book[at + layout::TEXT_LEN] == 4 && book[at..].starts_with(b"NONE")
}

// 1 to 20 letters and digits, not NONE.
#[tactic(auto, unfolding(format::specs::Codes::is_name))]
fn is_name(book: &Bytes, at: usize) -> bool
    requires { (at + 33 ≤ book_size) × (is_text (text_at book.now at) ≡ true) }
    ensures { result ≡ is_name (text_at book.now at) }
{
    match book[at + layout::TEXT_LEN] {
        len @ 1..=20 => letters(book, at, len) && !is_none(book, at),
        _ => false,
    }
}

// Whether the lengths of three texts are 1 to 16, and that of a fourth at most 16.
#[tactic(auto, using(crate::specs::Laws::Letters::shorts_gathered))]
fn short_all(a: u8, b: u8, c: u8, d: u8) -> bool
    ensures { result ≡ shorts a b c d }
{
    (((a.wrapping_sub(1) | b.wrapping_sub(1)) | c.wrapping_sub(1)) < 16) & (d <= 16)
}

// The texts of an order beside its name, of any length, one by one.
#[tactic(auto, using(crate::proofs::Fields::order_fields), unfolding(crate::specs::Laws::Letters::texts_range))]
fn each_ok(book: &Bytes, i: usize) -> bool
    requires { i < most_orders }
    ensures { result ≡ texts_range (order_at book.now i).names }
{
    let at = layout::ORDERS + i * layout::ORDER;
    within(book, at + layout::CLORDID, 1, 32)
        && within(book, at + layout::DOWNSTREAM, 1, 32)
        && within(book, at + layout::SYMBOL, 1, 16)
        && within(book, at + layout::VENUEORDERID, 0, 32)
}

// The texts of an order beside its name. If all are short, which most are, their zeros are gathered.
fn texts_ok(book: &Bytes, i: usize) -> bool
    requires { i < most_orders }
    ensures { result ≡ texts_range (order_at book.now i).names }
{
    let at = layout::ORDERS + i * layout::ORDER;
    let clordid = at + layout::CLORDID;
    let downstream = at + layout::DOWNSTREAM;
    let symbol = at + layout::SYMBOL;
    let venueorderid = at + layout::VENUEORDERID;
    if short_all(
        book[clordid + layout::TEXT_LEN],
        book[downstream + layout::TEXT_LEN],
        book[symbol + layout::TEXT_LEN],
        book[venueorderid + layout::TEXT_LEN],
    ) {
        let first = short_diff(book, clordid) | short_diff(book, downstream);
        let second = short_diff(book, symbol) | short_diff(book, venueorderid);
        return (first | second) == 0;
    }
    each_ok(book, i)
}

#[tactic(auto, using(crate::proofs::Fields::order_fields), unfolding(machine::specs::Ranges::name_range, machine::specs::Rules::names_range, crate::specs::Laws::Letters::texts_range))]
fn names_ok(book: &Bytes, i: usize) -> bool
    requires { i < most_orders }
    ensures { result ≡ names_range (order_at book.now i).names }
{
    let name = layout::ORDERS + i * layout::ORDER + layout::NAME;
    filled(book, name) && is_name(book, name) && texts_ok(book, i)
}

// A time in force that is not given is 0.
#[tactic(auto, unfolding(machine::specs::Rules::force_range))]
fn force_ok(code: u8) -> bool
    ensures { result ≡ force_range code }
{
    (code == 0) | format::is_timeinforce(code)
}

// A market order's price is 0.
#[tactic(auto, unfolding(machine::specs::Rules::priced_range))]
fn priced_ok(ordtype: u8, price: u64) -> bool
    ensures { result ≡ priced_range ordtype price }
{
    format::is_ordtype(ordtype)
        && (price <= codes::MOST_PRICE)
        && ((ordtype == codes::LIMIT) | (price == 0))
}

#[tactic(auto, using(crate::proofs::Fields::order_fields), unfolding(machine::specs::Rules::terms_range))]
fn terms_ok(book: &Bytes, i: usize) -> bool
    requires { i < most_orders }
    ensures { result ≡ terms_range (order_at book.now i).terms }
{
    let at = layout::ORDERS + i * layout::ORDER;
    format::is_side(book[at + layout::SIDE])
        && priced_ok(book[at + layout::ORDTYPE], u64_at(book, at + layout::PRICE))
        && force_ok(book[at + layout::TIMEINFORCE])
        && (u64_at(book, at + layout::QTY) <= codes::MOST_QTY)
}

// No pending terms are all zero.
#[tactic(auto, using(crate::proofs::Fields::order_fields, prelude::specs::Laws::Cases::if_true, prelude::specs::Laws::Cases::if_false), unfolding(machine::specs::Rules::pending_range))]
fn pending_ok(book: &Bytes, i: usize) -> bool
    requires { i < most_orders }
    ensures { result ≡ pending_range (order_at book.now i).pending }
{
    let at = layout::ORDERS + i * layout::ORDER;
    let qty = u64_at(book, at + layout::PENDING_QTY);
    let price = u64_at(book, at + layout::PENDING_PRICE);
    let ordtype = book[at + layout::PENDING_ORDTYPE];
    let timeinforce = book[at + layout::PENDING_TIMEINFORCE];
    if u16_at(book, at + layout::PENDING_REQUEST) == 0 {
        (qty == 0) && (price == 0) && (ordtype == 0) && (timeinforce == 0)
    } else {
        priced_ok(ordtype, price) && force_ok(timeinforce) && (qty <= codes::MOST_QTY)
    }
}

// Not both flags; no gateway cancel is all zero.
#[tactic(auto, using(crate::proofs::Fields::order_fields), unfolding(machine::specs::Rules::gateway_range))]
fn gateway_ok(book: &Book<'_>, i: usize) -> bool
    requires { i < book.now.orders }
    ensures { result ≡ gateway_range book.now.requests (order_at book.now.bytes.now i).gateway }
{
    let bytes = book.bytes;
    let at = layout::ORDERS + i * layout::ORDER;
    let stage = bytes[at + layout::STAGE];
    let link = u16_at(bytes, at + layout::ORIGDOWNSTREAM);
    let unsent = unsent_of(stage, link);
    let stuck = stuck_of(stage, link);
    let tries = bytes[at + layout::TRIES];
    let refusedsends = u32_at(bytes, at + layout::REFUSEDSENDS);
    let none = !unsent && !stuck && (tries == 0) && (refusedsends == 0);
    !(unsent && stuck) && (usize::from(link) <= book.requests) && ((link != 0) | none)
}

// Order i.
#[tactic(auto, using(crate::proofs::Fields::order_fields), unfolding(machine::specs::Rules::order_range, crate::specs::Laws::Here::range_at))]
fn range_ok(book: &Book<'_>, i: usize) -> bool
    requires { i < book.now.orders }
    ensures { result ≡ range_at book.now.bytes.now book.now.requests i }
{
    let bytes = book.bytes;
    let at = layout::ORDERS + i * layout::ORDER;
    names_ok(bytes, i)
        && terms_ok(bytes, i)
        && format::is_status(bytes[at + layout::STATUS])
        && (u64_at(bytes, at + layout::AVGPX) <= codes::MOST_PRICE)
        && pending_ok(bytes, i)
        && gateway_ok(book, i)
}

// The orders in use.
pub(crate) fn ranges_ok(book: &Book<'_>) -> bool
    ensures { result ≡ all_below (range_at book.now.bytes.now book.now.requests) book.now.orders }
{
    (0..book.orders).all(|i| range_ok(book, i))
}
