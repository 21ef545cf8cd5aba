// One order: the requests that its links name, its counts and its status. Rests on store's flags, orders
// and cells.
ghost use Rattle.std.specs.Prelude.{◌≡◌, ℕ, ◌+◌, ◌-◌, ◌<◌, true, false, ◌==◌, nat_le, slice_index, MatchOption};
ghost use Rattle.prelude.specs.Below.{all_below, count_below};
ghost use Rattle.prelude.specs.Cases.{if◌then◌otherwise◌};
ghost use Rattle.store.specs.Book.{order_at};
ghost use Rattle.machine.specs.Constants.{most_tries};
ghost use Rattle.machine.specs.Changes.{is_cancel};
ghost use Rattle.machine.specs.Rules.{current_test, pending_test, status_rule};
ghost use Rattle.store.specs.Layout.{most_orders, most_requests};
ghost use Rattle.rules.specs.Laws.Here.{of_order_at, linked_at, optional_at, counts_at, links_at, links_of, own_at};

use crate::book::Book;
use crate::cells::{same_at, u16_at, u64_at};
use format::codes;
use orders::MAX_GATEWAY_CANCEL_TRIES;
use orders::order::is_done;
use store::layout::{self, Bytes};
use store::{kinds, unsent_of};

// The most tries of a gateway cancel that is unsent.
const MOST_UNSENT: u8 = MAX_GATEWAY_CANCEL_TRIES - 1;

// The request of a link, if it is there and is order i's.
#[tactic(auto, using(crate::proofs::Fields::request_fields), unfolding(crate::specs::Laws::Here::own_at))]
fn own(book: &Book<'_>, i: usize, link: u16) -> Option<usize>
    ensures { MatchOption result (own_at book.now.bytes.now book.now.requests i link ≡ false) (λ j. (own_at book.now.bytes.now book.now.requests i link ≡ true) × (j ≡ link - 1) × (j < most_requests)) }
{
    let j = usize::from(link).checked_sub(1)?;
    if book.requests <= j {
        return None;
    }
    let bytes = book.bytes;
    let o = u16_at(
        bytes,
        layout::REQUESTS + j * layout::REQUEST + layout::REQUEST_ORDER,
    );
    (usize::from(o) == i).then_some(j)
}

// The current downstream is the first request's or a replace's.
#[tactic(auto, using(crate::proofs::Fields::order_fields, crate::proofs::Fields::request_fields), unfolding(machine::specs::Changes::is_first, machine::specs::Changes::is_replace, machine::specs::Changes::is_cancel, crate::specs::Laws::Here::linked_at))]
fn current_ok(book: &Book<'_>, i: usize, link: u16) -> bool
    requires { i < book.now.orders }
    ensures { result ≡ linked_at book.now.bytes.now book.now.requests (current_test (order_at book.now.bytes.now i).names.downstream) i link }
{
    let bytes = book.bytes;
    own(book, i, link).is_some_and(move |j| {
        let at = layout::REQUESTS + j * layout::REQUEST;
        let kind = bytes[at + layout::REQUEST_KIND];
        ((kind == kinds::FIRST) | (kind == kinds::REPLACE))
            && same_at(
                bytes,
                layout::ORDERS + i * layout::ORDER + layout::DOWNSTREAM,
                at + layout::REQUEST_DOWNSTREAM,
            )
    })
}

// The latest cancel, if any, is a cancel.
#[tactic(auto, using(crate::proofs::Fields::request_fields), unfolding(machine::specs::Changes::is_first, machine::specs::Changes::is_replace, machine::specs::Changes::is_cancel, crate::specs::Laws::Here::linked_at, crate::specs::Laws::Here::optional_at))]
fn cancel_ok(book: &Book<'_>, i: usize, link: u16) -> bool
    requires { i < book.now.orders }
    ensures { result ≡ optional_at book.now.bytes.now book.now.requests is_cancel i link }
{
    let bytes = book.bytes;
    link == 0
        || own(book, i, link).is_some_and(move |j| {
            let kind = bytes[layout::REQUESTS + j * layout::REQUEST + layout::REQUEST_KIND];
            (kind != kinds::FIRST) && (kind != kinds::REPLACE)
        })
}

// Pending terms name an unanswered client replace.
#[tactic(auto, using(crate::proofs::Fields::request_fields), unfolding(machine::specs::Changes::is_replace, machine::specs::Changes::is_answered, crate::specs::Laws::Here::linked_at, crate::specs::Laws::Here::optional_at))]
fn pending_ok(book: &Book<'_>, i: usize, link: u16) -> bool
    requires { i < book.now.orders }
    ensures { result ≡ optional_at book.now.bytes.now book.now.requests pending_test i link }
{
    let bytes = book.bytes;
    link == 0
        || own(book, i, link).is_some_and(move |j| {
            let at = layout::REQUESTS + j * layout::REQUEST;
            (bytes[at + layout::REQUEST_KIND] == kinds::REPLACE)
                && (bytes[at + layout::REQUEST_ANSWERED] == 0)
        })
}

// Amendments are the requests less one.
fn count_ok(amendments: u16, count: u16) -> bool
    ensures { result ≡ (amendments + 1 == count) }
{
    u32::from(amendments) + 1 == u32::from(count)
}

// Above a cumulative of 0 the status is not pending new or new.
#[tactic(auto, unfolding(machine::specs::Rules::status_rule))]
fn status_ok(cumqty: u64, status: u8) -> bool
    ensures { result ≡ status_rule cumqty status }
{
    (cumqty == 0) | !((status == codes::PENDING_NEW) | (status == codes::NEW))
}

// The tries are at most so many, and one fewer if the last is unsent.
fn tries_ok(tries: u8, unsent: bool) -> bool
    ensures { result ≡ nat_le tries (if unsent then most_tries - 1 otherwise most_tries) }
{
    if unsent {
        tries <= MOST_UNSENT
    } else {
        tries <= MAX_GATEWAY_CANCEL_TRIES
    }
}

// Order i, which has count requests: its counts and its status.
fn counts_ok(book: &Bytes, count: u16, i: usize) -> bool
    requires { i < most_orders }
    ensures { result ≡ counts_at book.now count i }
{
    let at = layout::ORDERS + i * layout::ORDER;
    let amendments = u16_at(book, at + layout::AMENDMENTS);
    let cumqty = u64_at(book, at + layout::CUMQTY);
    let status = book[at + layout::STATUS];
    let pending = u16_at(book, at + layout::PENDING_REQUEST);
    let link = u16_at(book, at + layout::ORIGDOWNSTREAM);
    let unsent = unsent_of(book[at + layout::STAGE], link);
    count_ok(amendments, count)
        & (cumqty <= u64_at(book, at + layout::QTY))
        & status_ok(cumqty, status)
        & (!is_done(status) | ((pending == 0) & (link == 0)))
        & tries_ok(book[at + layout::TRIES], unsent)
}

// Order i, which has count requests.
#[tactic(auto, using(crate::proofs::Fields::order_fields), unfolding(crate::specs::Laws::Here::links_at))]
fn links_at(book: &Book<'_>, count: u16, i: usize) -> bool
    requires { i < book.now.orders }
    ensures { result ≡ links_at book.now.bytes.now book.now.requests count i }
{
    let bytes = book.bytes;
    let at = layout::ORDERS + i * layout::ORDER;
    current_ok(book, i, u16_at(bytes, at + layout::CURRENT))
        && cancel_ok(book, i, u16_at(bytes, at + layout::CANCEL))
        && pending_ok(book, i, u16_at(bytes, at + layout::PENDING_REQUEST))
        && counts_ok(bytes, count, i)
}

// The orders in use; next has how many requests each has.
pub(crate) fn links_ok(book: &Book<'_>, next: &[u16; layout::MOST_ORDERS]) -> bool
    requires { (o : ℕ) → o < most_orders → slice_index next.now o ≡ count_below (of_order_at book.now.bytes.now o) book.now.requests }
    ensures { result ≡ all_below (links_of book.now.bytes.now book.now.requests) book.now.orders }
{
    (0..book.orders).all(|i| links_at(book, next[i], i))
}
