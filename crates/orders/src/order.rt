// The order parts of src/book.rs: `impl Order` and what stands around it. Each function equals its
// definition in machine's Orders. Rests on text.
ghost use Rattle.std.specs.Prelude.{◌≡◌};
ghost use Rattle.machine.specs.Orders.{is_empty, has_pending, has_gateway, is_done, leaves_of, leaves_qty, as_asked, status_at, is_short, unless_short, short_alarm, set_status, text_none, kept_order_id, record_venue_order_id, pending_terms, apply_replace, next_sequence, next_exec};
ghost use Rattle.orders.specs.Alarms.{alarm_in};

use crate::alarm::Alarm;
use format::codes;
use prelude::{Terms, Text};
use store::{Order, Request};

pub fn is_empty(t: &Text) -> bool
    ensures { result ≡ is_empty t.now }
{
    t.len == 0
}

#[tactic(auto, unfolding(machine::specs::Orders::has_pending))]
pub fn has_pending(o: &Order) -> bool
    ensures { result ≡ has_pending o.now }
{
    o.pending.request != 0
}

#[tactic(auto, unfolding(machine::specs::Orders::has_gateway))]
pub fn has_gateway(o: &Order) -> bool
    ensures { result ≡ has_gateway o.now }
{
    o.gateway.origdownstream != 0
}

// `Status::is_done`.
#[tactic(auto, unfolding(machine::specs::Orders::is_done))]
pub fn is_done(status: u8) -> bool
    ensures { result ≡ is_done status }
{
    matches!(
        status,
        codes::FILLED | codes::CANCELED | codes::EXPIRED | codes::REJECTED
    )
}

// By status, ordered and cumulative: 0 of a done order and, while it lasts, of one that is done for the
// day. The numbers stand in the order that the definition has, here and in the functions below.
#[tactic(auto, unfolding(machine::specs::Orders::leaves_of), using(crate::specs::Laws::Choices::choices))]
pub fn leaves_of(status: u8, qty: u64, cumqty: u64) -> u64
    ensures { result ≡ leaves_of status qty cumqty }
{
    if is_done(status) || status == codes::DONE_FOR_DAY {
        return 0;
    }
    qty.saturating_sub(cumqty)
}

#[tactic(auto, unfolding(machine::specs::Orders::leaves_qty))]
pub fn leaves_qty(o: &Order) -> u64
    ensures { result ≡ leaves_qty o.now }
{
    leaves_of(o.state.status, o.terms.qty, o.state.cumqty)
}

// A status as the Rust's questions take it: done for the day is New if the cumulative is 0, and
// PartiallyFilled above.
#[tactic(auto, unfolding(machine::specs::Orders::as_asked), using(crate::specs::Laws::Choices::choices))]
pub fn as_asked(cumqty: u64, status: u8) -> u8
    ensures { result ≡ as_asked cumqty status }
{
    match status {
        codes::DONE_FOR_DAY if cumqty == 0 => codes::NEW,
        codes::DONE_FOR_DAY => codes::PARTIALLY_FILLED,
        _ => status,
    }
}

// The status that `set_status` leaves: above a cumulative of 0, New and PendingNew are
// PartiallyFilled.
#[tactic(auto, unfolding(machine::specs::Orders::status_at), using(crate::specs::Laws::Choices::choices))]
pub fn status_at(cumqty: u64, status: u8) -> u8
    ensures { result ≡ status_at cumqty status }
{
    match status {
        codes::NEW | codes::PENDING_NEW if 0 < cumqty => codes::PARTIALLY_FILLED,
        _ => status,
    }
}

// A Filled below the quantity. Three numbers, here and in the next two: callers take them from an order, a report
// or a pending replace, so a struct would be built field by field at each call.
#[tactic(auto, unfolding(machine::specs::Orders::is_short))]
fn is_short(qty: u64, cumqty: u64, status: u8) -> bool
    ensures { result ≡ is_short qty cumqty status }
{
    status == codes::FILLED && cumqty < qty
}

// The status that is set: New in place of a Filled below the quantity.
#[tactic(auto, unfolding(machine::specs::Orders::unless_short), using(crate::specs::Laws::Choices::choices))]
fn unless_short(qty: u64, cumqty: u64, status: u8) -> u8
    ensures { result ≡ unless_short qty cumqty status }
{
    if is_short(qty, cumqty, status) {
        codes::NEW
    } else {
        status
    }
}

// The alarm of a Filled below the quantity.
#[tactic(auto, unfolding(machine::specs::Orders::short_alarm), using(crate::specs::Laws::Choices::choices))]
pub fn short_alarm(qty: u64, cumqty: u64, status: u8) -> Option<Alarm>
    ensures { alarm_in result ≡ short_alarm qty cumqty status }
{
    is_short(qty, cumqty, status).then_some(Alarm::FilledShort)
}

// A done order has nothing pending and no gateway cancel.
#[tactic(auto, unfolding(machine::specs::Orders::set_status), using(crate::specs::Laws::Choices::choices))]
pub fn set_status(status: u8, o: &mut Order)
    ensures { o.new ≡ set_status status o.old }
{
    let cumqty = o.state.cumqty;
    let set = status_at(cumqty, unless_short(o.terms.qty, cumqty, status));
    o.state.status = set;
    if is_done(set) {
        o.pending = store::no_pending();
        o.gateway = store::no_gateway();
    }
}

// FIX's placeholder for no OrderID. A text to compare with, all its bytes, as the definition has it: format's
// `is_none` looks at four bytes and the length alone, so it gives another answer if the rest is not zeros.
#[tactic(auto, unfolding(prelude::specs::Texts::text_of))]
pub fn text_none() -> Text
    ensures { result ≡ text_none }
{
    let mut bytes = [0u8; 32];
    bytes[..4].copy_from_slice(b"NONE");
    Text { bytes, len: 4 }
}

// The venue's OrderID that is kept: the first, or the one of the report that accepts a replace.
#[tactic(auto, unfolding(machine::specs::Orders::kept_order_id), using(crate::specs::Laws::Choices::choices))]
pub fn kept_order_id<'a>(kept: &'a Text, given: &'a Text, replaced: bool) -> &'a Text
    ensures { result.now ≡ kept_order_id kept.now given.now replaced }
{
    if is_empty(given) || text::same_text(*given, text_none()) {
        return kept;
    }
    if is_empty(kept) || replaced {
        return given;
    }
    kept
}

#[tactic(auto, unfolding(machine::specs::Orders::record_venue_order_id))]
pub fn record_venue_order_id(given: &Text, replaced: bool, o: &mut Order)
    ensures { o.new ≡ record_venue_order_id given.now replaced o.old }
{
    o.names.venueorderid = *kept_order_id(&o.names.venueorderid, given, replaced);
}

// The terms of the pending replace. Field by field, here and back in amend's `new_pending`: the two are
// records of the book without a part in common, and the definitions and theorems name their fields.
#[tactic(auto, unfolding(machine::specs::Orders::pending_terms))]
pub fn pending_terms(o: &Order) -> Terms
    ensures { result ≡ pending_terms o.now }
{
    Terms {
        side: o.terms.side,
        ordtype: o.pending.ordtype,
        timeinforce: o.pending.timeinforce,
        qty: o.pending.qty,
        price: o.pending.price,
    }
}

// The order takes the pending terms and the names of the replace's request.
#[tactic(auto, unfolding(machine::specs::Orders::apply_replace))]
pub fn apply_replace(request: &Request, o: &mut Order)
    ensures { o.new ≡ apply_replace request.now o.old }
{
    o.terms = pending_terms(o);
    o.names.clordid = request.clordid;
    o.names.downstream = request.downstream;
    o.links.current = o.pending.request;
    o.pending = store::no_pending();
}

// `exec_seq` goes on at 0 after its last number.
#[tactic(auto, using(crate::specs::Laws::Counts::next_sequence_lem))]
pub fn next_sequence(n: u64) -> u64
    ensures { result ≡ next_sequence n }
{
    n.wrapping_add(1)
}

#[tactic(auto, unfolding(machine::specs::Orders::next_exec))]
pub fn next_exec(o: &mut Order)
    ensures { o.new ≡ next_exec o.old }
{
    o.state.execseq = next_sequence(o.state.execseq);
}
