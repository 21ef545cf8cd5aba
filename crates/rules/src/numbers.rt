// One request: its fields' ranges, its outcome, its order, its number among its order's, a gateway cancel
// in flight, and its OrigClOrdID's link. Rests on store's flags, orders, beside, numbered and cells.
// A struct of book, request, order and number would be made and taken apart again for each request.
ghost use Rattle.std.specs.Prelude.{◌≡◌, ◌≢◌, ℕ, ◌+◌, ◌<◌, ◌≤◌, true, false, ◌&&◌, MatchOption};
ghost use Rattle.prelude.specs.Below.{all_below};
ghost use Rattle.prelude.specs.Texts.{is_text, same_text};
ghost use Rattle.store.specs.Layout.{most_orders, most_requests};
ghost use Rattle.store.specs.Book.{order_at, request_at};
ghost use Rattle.machine.specs.Ranges.{text_within, name_range};
ghost use Rattle.machine.specs.Rules.{in_flight_rule};
ghost use Rattle.rules.specs.Laws.Beside.{beside_at};
ghost use Rattle.rules.specs.Laws.Here.{range_at, sent_rule, request_here, pass_at, IsPass};
ghost use Rattle.rules.specs.Laws.Kinds.{marks_right, kind_here, amend_here};

use crate::beside::origin_ok;
use crate::book::Book;
use crate::cells::{empty, present, same_at, u16_at};
use crate::numbered::numbered;
use orders::order::is_done;
use store::layout::{self, Bytes};
use store::{kinds, stuck_of, unsent_of};

// Whether a request is answered is 0 or 1, and its outcome goes with it: 0 if it is not, else 1 to 3.
fn marks_ok(answered: u8, outcome: u8) -> bool
    ensures { result ≡ marks_right answered outcome }
{
    answered <= 1 && outcome.wrapping_sub(answered) <= 2 * answered
}

// Whether order o is done, or request j is its latest cancel, with tries, sent and not stuck.
#[tactic(auto, using(crate::proofs::Fields::order_fields), unfolding(crate::specs::Laws::Here::sent_rule))]
fn sent_ok(book: &Bytes, j: usize, o: usize) -> bool
    requires { (j < most_requests) × (o < most_orders) }
    ensures { result ≡ sent_rule (j + 1) (order_at book.now o) }
{
    let at = layout::ORDERS + o * layout::ORDER;
    let cancel = usize::from(u16_at(book, at + layout::CANCEL));
    let stage = book[at + layout::STAGE];
    let link = u16_at(book, at + layout::ORIGDOWNSTREAM);
    is_done(book[at + layout::STATUS])
        | ((cancel == j + 1)
            & (0 < book[at + layout::TRIES])
            & !unsent_of(stage, link)
            & !stuck_of(stage, link))
}

// An unanswered gateway cancel of a live order is its latest cancel.
#[tactic(auto, using(crate::proofs::Fields::request_fields), unfolding(machine::specs::Changes::is_gateway, machine::specs::Changes::is_answered, machine::specs::Rules::in_flight_rule, crate::specs::Laws::Here::sent_rule))]
fn flight_ok(book: &Bytes, j: usize, o: usize) -> bool
    requires { (j < most_requests) × (o < most_orders) }
    ensures { result ≡ in_flight_rule (j + 1) (request_at book.now j) (order_at book.now o) }
{
    let at = layout::REQUESTS + j * layout::REQUEST;
    book[at + layout::REQUEST_KIND] != kinds::GATEWAY
        || book[at + layout::REQUEST_ANSWERED] != 0
        || sent_ok(book, j, o)
}

// Request j of order o, if it is a first one.
#[tactic(auto, using(crate::proofs::Fields::request_fields, crate::proofs::Fields::order_fields))]
fn first_ok(book: &Bytes, j: usize, o: usize) -> bool
    requires { (j < most_requests) × (o < most_orders) }
    ensures { result ≡ text_within 1 32 (request_at book.now j).clordid && same_text (request_at book.now j).downstream (order_at book.now o).names.name && text_within 0 0 (request_at book.now j).origclordid }
{
    let at = layout::REQUESTS + j * layout::REQUEST;
    let name = layout::ORDERS + o * layout::ORDER + layout::NAME;
    present(book, at + layout::REQUEST_CLORDID)
        && same_at(book, at + layout::REQUEST_DOWNSTREAM, name)
        && empty(book, at + layout::REQUEST_ORIGCLORDID)
}

// The gateway's own request j of order o, but for its name.
#[tactic(auto, using(crate::proofs::Fields::request_fields))]
fn gateway_ok(book: &Bytes, j: usize, o: usize) -> bool
    requires { (j < most_requests) × (o < most_orders) }
    ensures { result ≡ text_within 0 0 (request_at book.now j).clordid && text_within 0 0 (request_at book.now j).origclordid && in_flight_rule (j + 1) (request_at book.now j) (order_at book.now o) }
{
    let at = layout::REQUESTS + j * layout::REQUEST;
    empty(book, at + layout::REQUEST_CLORDID)
        && empty(book, at + layout::REQUEST_ORIGCLORDID)
        && flight_ok(book, j, o)
}

// A later request j of order o, but for its name. The ClOrdIDs before it are in range.
#[tactic(auto, using(crate::proofs::Fields::request_fields, crate::specs::Laws::Kinds::amend_gateway, crate::specs::Laws::Kinds::amend_client))]
fn amend_ok(book: &Bytes, j: usize, o: usize) -> bool
    requires { (j < most_requests) × (o < most_orders) × ((request_at book.now j).order ≡ o) × ((i : ℕ) → i < j → is_text (request_at book.now i).clordid ≡ true) × ((request_at book.now j).kind ≢ 0) }
    ensures { result ≡ amend_here book.now j o }
{
    let at = layout::REQUESTS + j * layout::REQUEST;
    if book[at + layout::REQUEST_KIND] == kinds::GATEWAY {
        return gateway_ok(book, j, o);
    }
    present(book, at + layout::REQUEST_CLORDID) && origin_ok(book, j, o)
}

// Request j, the k-th of order o, but for its marks.
#[tactic(auto, using(crate::proofs::Fields::request_fields, crate::proofs::Fields::order_fields, crate::specs::Laws::Kinds::kind_first, crate::specs::Laws::Kinds::kind_later))]
fn kind_ok(book: &Bytes, j: usize, o: usize, k: u16) -> bool
    requires { (j < most_requests) × (o < most_orders) × (k < 1000) × (name_range (order_at book.now o).names.name ≡ true) × ((request_at book.now j).order ≡ o) × ((i : ℕ) → i < j → is_text (request_at book.now i).clordid ≡ true) }
    ensures { result ≡ kind_here book.now j o k }
{
    let at = layout::REQUESTS + j * layout::REQUEST;
    let kind = book[at + layout::REQUEST_KIND];
    if kind == kinds::FIRST {
        return k == 0 && first_ok(book, j, o);
    }
    let name = layout::ORDERS + o * layout::ORDER + layout::NAME;
    0 < k
        && kind <= kinds::GATEWAY
        && numbered(book, at + layout::REQUEST_DOWNSTREAM, name, k)
        && amend_ok(book, j, o)
}

// Request j, the k-th of order o, and its OrigClOrdID's link. The ClOrdIDs before it are in range.
#[tactic(auto, using(crate::proofs::Fields::request_fields, crate::specs::Laws::Kinds::by_marks))]
fn request_ok(book: &Bytes, j: usize, o: usize, k: u16) -> bool
    requires { (j < most_requests) × (o < most_orders) × (k < 1000) × (name_range (order_at book.now o).names.name ≡ true) × ((request_at book.now j).order ≡ o) × ((i : ℕ) → i < j → is_text (request_at book.now i).clordid ≡ true) }
    ensures { result ≡ request_here book.now j o k && beside_at book.now j }
{
    let at = layout::REQUESTS + j * layout::REQUEST;
    marks_ok(
        book[at + layout::REQUEST_ANSWERED],
        book[at + layout::REQUEST_OUTCOME],
    ) && kind_ok(book, j, o, k)
}

// How many requests each order has, if each request in use keeps its rules and is of an order in use.
pub(crate) fn requests_ok(book: &Book<'_>) -> Option<[u16; layout::MOST_ORDERS]>
    requires { all_below (range_at book.now.bytes.now book.now.requests) book.now.orders ≡ true }
    ensures { MatchOption result (all_below (pass_at book.now.bytes.now book.now.orders) book.now.requests ≡ false) (λ next. IsPass book.now.bytes.now book.now.orders book.now.requests next) }
{
    let bytes = book.bytes;
    let mut next = [0u16; layout::MOST_ORDERS];
    for j in 0..book.requests {
        let o = usize::from(u16_at(
            bytes,
            layout::REQUESTS + j * layout::REQUEST + layout::REQUEST_ORDER,
        ));
        if o >= book.orders || !request_ok(bytes, j, o, next[o]) {
            return None;
        }
        next[o] += 1;
    }
    Some(next)
}
