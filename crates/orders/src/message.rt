// The messages that the book puts out: `ClientReport`, `Output` and `Amend::refuse` of src/book.rs
// and src/book/amend.rs, as records. Each function equals its definition in machine's Messages.
// Rests on order.
ghost use Rattle.std.specs.Prelude.{◌≡◌, not};
ghost use Rattle.machine.specs.Orders.{is_empty};
ghost use Rattle.machine.specs.Messages.{no_message, report, cancel_reject, to_venue, new_order, cancel_request, replace_request};
ghost use Rattle.orders.specs.Laws.Parts.{told_of};
ghost use Rattle.orders.specs.Laws.Maps.{with_bit_if, with_terms, with_note, report_map, reject_map, venue_map, ToVenue, extra_bits};

use crate::order::{is_empty, leaves_qty};
use format::{bit, codes};
use machine::Note;
use prelude::{Terms, Text};
use records::zeros::{NO_EXEC, NO_IDS, NO_LONG_TEXT, NO_RECORD, NO_TOLD};
use records::{Exec, Ids, Record, Told};
use store::Order;
use wide::Priced;

// No price, and no rule that set one.
pub const NO_PRICE: Priced = Priced {
    price: [0, 0],
    source: 0,
};

pub const NO_NOTE: Note = Note {
    text: NO_LONG_TEXT,
    fixedtext: 0,
    reason: 0,
    origin: 0,
};

// A message with nothing in it.
pub fn no_message() -> Record
    ensures { result ≡ no_message }
{
    NO_RECORD
}

// A map with one more bit if the test holds.
#[tactic(auto, using(crate::specs::Laws::Choices::choices))]
fn with_bit_if(map: u32, test: bool, k: u32) -> u32
    ensures { result ≡ with_bit_if map test k }
{
    if test { bits::with_bit(map, k) } else { map }
}

// Price and time in force are there if the terms have them.
#[tactic(auto, unfolding(crate::specs::Laws::Maps::with_terms))]
fn with_terms(map: u32, terms: &Terms) -> u32
    ensures { result ≡ with_terms map terms.now }
{
    let priced = with_bit_if(map, terms.ordtype == codes::LIMIT, bit::PRICE);
    with_bit_if(priced, terms.timeinforce != 0, bit::TIMEINFORCE)
}

#[tactic(auto, unfolding(crate::specs::Laws::Maps::with_note))]
fn with_note(map: u32, note: &Note) -> u32
    ensures { result ≡ with_note map note.now }
{
    let given = note.origin != 0;
    let said = with_bit_if(map, note.text.len != 0, bit::TEXT);
    let worded = with_bit_if(said, note.fixedtext != 0, bit::FIXEDTEXT);
    let reasoned = with_bit_if(worded, given, bit::REASON);
    with_bit_if(reasoned, given, bit::ORIGIN)
}

#[tactic(auto, unfolding(crate::specs::Laws::Maps::report_map))]
fn report_map(origclordid: &Text, terms: &Terms, note: &Note) -> u32
    ensures { result ≡ report_map (not (is_empty origclordid.now)) terms.now note.now }
{
    let map = format::required_of(codes::REPORT);
    let named = with_bit_if(map, !is_empty(origclordid), bit::ORIGCLORDID);
    let ordered = with_terms(named, terms);
    with_note(ordered, note)
}

// A cancel reject's reason comes with its note.
#[tactic(auto, unfolding(crate::specs::Laws::Maps::reject_map))]
fn reject_map(name: &Text, note: &Note) -> u32
    ensures { result ≡ reject_map (not (is_empty name.now)) note.now }
{
    let map = bits::with_bit(bits::with_bit(0, bit::CLIENT), bit::CLORDID);
    let told = bits::with_bit(bits::with_bit(map, bit::ORIGCLORDID), bit::STATUS);
    let answered = bits::with_bit(told, bit::RESPONSETO);
    let named = with_bit_if(answered, !is_empty(name), bit::NAME);
    with_note(named, note)
}

// The venue's OrderID is there if the order has one.
#[tactic(auto, unfolding(crate::specs::Laws::Maps::venue_map))]
fn venue_map(kind: u8, venueorderid: &Text, terms: &Terms) -> u32
    ensures { result ≡ venue_map kind (not (is_empty venueorderid.now)) terms.now }
{
    let map = format::required_of(kind);
    let named = with_bit_if(map, !is_empty(venueorderid), bit::VENUEORDERID);
    with_terms(named, terms)
}

// What a report says that no event does.
fn told_of(o: &Order, price: &Priced, note: &Note) -> Told
    ensures { result ≡ told_of o.now price.now note.now }
{
    let fillprice = price.price;
    Told {
        leavesqty: leaves_qty(o),
        execseq: o.state.execseq,
        fillprice,
        fixedtext: note.fixedtext,
        origin: note.origin,
        responseto: 0,
        source: price.source,
    }
}

// Where the order stands, under a ClOrdID and perhaps an OrigClOrdID. The two are apart, here and wherever
// they go together: they come from a record, a request or an order, so a struct of them would be built field by
// field at each call.
#[tactic(auto, unfolding(machine::specs::Messages::report), using(crate::specs::Laws::Maps::report_map_lem))]
pub fn report(
    o: &Order,
    clordid: &Text,
    origclordid: &Text,
    exectype: u8,
    lastqty: u64,
    price: &Priced,
    note: &Note,
) -> Record
    ensures { result ≡ report o.now clordid.now origclordid.now exectype lastqty price.now note.now }
{
    Record {
        kind: codes::REPORT,
        map: report_map(origclordid, &o.terms, note),
        client: o.client,
        reason: note.reason,
        ids: Ids {
            name: o.names.name,
            clordid: *clordid,
            origclordid: *origclordid,
            symbol: o.names.symbol,
            ..NO_IDS
        },
        terms: o.terms,
        exec: Exec {
            exectype,
            status: o.state.status,
            lastqty,
            cumqty: o.state.cumqty,
            avgpx: o.state.avgpx,
            ..NO_EXEC
        },
        told: told_of(o, price, note),
        text: note.text,
        ..NO_RECORD
    }
}

// An OrderCancelReject under the ClOrdIDs of the request. If there is no order the name is
// empty.
#[tactic(auto, unfolding(machine::specs::Messages::cancel_reject), using(crate::specs::Laws::Maps::reject_map_lem))]
pub fn cancel_reject(
    client: u16,
    name: &Text,
    status: u8,
    clordid: &Text,
    origclordid: &Text,
    responseto: u8,
    note: &Note,
) -> Record
    ensures { result ≡ cancel_reject client name.now status clordid.now origclordid.now responseto note.now }
{
    Record {
        kind: codes::CANCEL_REJECT,
        map: reject_map(name, note),
        client,
        reason: note.reason,
        ids: Ids {
            name: *name,
            clordid: *clordid,
            origclordid: *origclordid,
            ..NO_IDS
        },
        exec: Exec { status, ..NO_EXEC },
        told: Told {
            fixedtext: note.fixedtext,
            origin: note.origin,
            responseto,
            ..NO_TOLD
        },
        text: note.text,
        ..NO_RECORD
    }
}

// What goes to the venue: a new order, or a cancel or replace of the request that the venue knows
// the order by. The kind is one of three codes: an enum of them would be turned back into the code in the next
// line, and asked for again in the contract.
#[tactic(auto, unfolding(machine::specs::Messages::to_venue), using(crate::specs::Laws::Maps::venue_map_lem))]
fn to_venue(
    kind: u8,
    o: &Order,
    downstream: &Text,
    venueorderid: &Text,
    origdownstream: &Text,
    terms: &Terms,
) -> Record
    requires { ToVenue kind }
    ensures { result ≡ to_venue kind (extra_bits kind (not (is_empty venueorderid.now))) o.now downstream.now venueorderid.now origdownstream.now terms.now }
{
    Record {
        kind,
        map: venue_map(kind, venueorderid, terms),
        venue: o.venue,
        ids: Ids {
            downstream: *downstream,
            symbol: o.names.symbol,
            venueorderid: *venueorderid,
            origdownstream: *origdownstream,
            ..NO_IDS
        },
        terms: *terms,
        ..NO_RECORD
    }
}

#[tactic(auto, unfolding(machine::specs::Messages::new_order, crate::specs::Laws::Maps::extra_bits, format::specs::Format::required, format::specs::Format::required_bits, machine::specs::Messages::bit_if), using(crate::specs::Laws::Choices::choices))]
pub fn new_order(o: &Order, downstream: &Text) -> Record
    ensures { result ≡ new_order o.now downstream.now }
{
    let none = text::no_text();
    to_venue(codes::NEW_ORDER, o, downstream, &none, &none, &o.terms)
}

#[tactic(auto, unfolding(machine::specs::Messages::cancel_request, crate::specs::Laws::Maps::extra_bits, format::specs::Format::required, format::specs::Format::required_bits, machine::specs::Messages::bit_if))]
pub fn cancel_request(o: &Order, downstream: &Text) -> Record
    ensures { result ≡ cancel_request o.now downstream.now }
{
    to_venue(
        codes::CANCEL_REQUEST,
        o,
        downstream,
        &o.names.venueorderid,
        &o.names.downstream,
        &o.terms,
    )
}

#[tactic(auto, unfolding(machine::specs::Messages::replace_request, crate::specs::Laws::Maps::extra_bits, format::specs::Format::required, format::specs::Format::required_bits, machine::specs::Messages::bit_if))]
pub fn replace_request(o: &Order, downstream: &Text, terms: &Terms) -> Record
    ensures { result ≡ replace_request o.now downstream.now terms.now }
{
    to_venue(
        codes::REPLACE_REQUEST,
        o,
        downstream,
        &o.names.venueorderid,
        &o.names.downstream,
        terms,
    )
}
