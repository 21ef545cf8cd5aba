// src/book/report.rs: a venue's report, as functions over structs. Each equals its definition in
// machine's Report. Rests on amend and wide.
#![tactic(auto)]

ghost use Rattle.std.specs.Prelude.{◌≡◌, ◌||◌, eqb};
ghost use Rattle.format.specs.Codes.{new, partially_filled, pending_cancel, pending_replace};
ghost use Rattle.prelude.specs.Cases.{if◌then◌otherwise◌};
ghost use Rattle.machine.specs.Report.{says_unknown_at_venue, unknown_at_venue, is_rejection, pending_here, behind, stale, repeats, dropped_stale, dropped_repeat, status_taken, accepts, answers_request, ordered_qty, reported_order, fill_price_of, report_note, client_report, settles, apply_report, venue_report, dropped};
ghost use Rattle.machine.specs.Orders.{apply_replace, short_alarm};
ghost use Rattle.machine.specs.Machine.{on_report};
ghost use Rattle.machine.specs.Changes.{unchanged, alarming};
ghost use Rattle.machine.specs.GatewayCancel.{resume_gateway_cancel};
ghost use Rattle.machine.specs.Amend.{refuse_request};
ghost use Rattle.orders.specs.Alarms.{alarm_in};
ghost use Rattle.report.specs.Rejection.{rejection_of};

use amend::rejects;
use format::{bit, codes};
use machine::{Change, Note, Refused};
use orders::alarm::Alarm;
use orders::{Known, change, message, order, reasons};
use records::Record;
use store::{Order, Request, outcomes};
use wide::Priced;

// OrdRejReason(103): unknown order. A constant, since a venue may give any number.
const UNKNOWN_ORDER: u32 = 5;

// How FIX answers a status request for an order that the venue does not know.
#[tactic(auto, unfolding(machine::specs::Report::says_unknown_at_venue))]
fn says_unknown_at_venue(e: &Record) -> bool
    ensures { result ≡ says_unknown_at_venue e.now }
{
    e.exec.exectype == codes::EXEC_STATUS
        && e.exec.status == codes::REJECTED
        && change::has(e, bit::REASON)
        && e.reason == UNKNOWN_ORDER
}

// Of a request that the book knows: an alarm for a live order under its current ClOrdID.
#[tactic(auto, unfolding(machine::specs::Report::unknown_at_venue), using(orders::specs::Laws::Choices::choices))]
pub fn unknown_at_venue(known: &Known, e: &Record, change: &mut Change)
    ensures { change.new ≡ unknown_at_venue known.now.findings known.now.link known.now.order e.now }
{
    let o = &known.order;
    let place = known.findings.place;
    if o.venue != e.venue || order::is_done(o.state.status) || o.links.current != known.link {
        known.leaving(o, change);
    } else {
        change::raising(Alarm::UnknownAtVenue.number(), place, o, change);
    }
}

// The status is Rejected, or the ExecType is, with some status.
#[tactic(auto, unfolding(machine::specs::Report::is_rejection))]
fn is_rejection(e: &Record) -> bool
    ensures { result ≡ is_rejection e.now }
{
    let s = e.exec.status;
    s == codes::REJECTED || e.exec.exectype == codes::EXEC_REJECTED && s != 0
}

// The order's pending replace is this request.
#[tactic(auto, unfolding(machine::specs::Report::pending_here))]
fn pending_here(known: &Known) -> bool
    ensures { result ≡ pending_here known.now.link known.now.order }
{
    known.order.pending.request == known.link
}

// New, or filled in part.
fn is_working(status: u8) -> bool
    ensures { result ≡ (eqb status new || eqb status partially_filled) }
{
    matches!(status, codes::NEW | codes::PARTIALLY_FILLED)
}

// A cancel or a replace is pending. The same two codes as in amend's `not_pending`: a public function for the
// two would be longer than the pattern.
fn is_pending(status: u8) -> bool
    ensures { result ≡ (eqb status pending_cancel || eqb status pending_replace) }
{
    matches!(status, codes::PENDING_CANCEL | codes::PENDING_REPLACE)
}

// The report's status would roll the order's back.
#[tactic(auto, unfolding(machine::specs::Report::behind))]
fn behind(known: &Known, e: &Record) -> bool
    ensures { result ≡ behind known.now.link known.now.request known.now.order e.now }
{
    let s = order::as_asked(e.exec.cumqty, e.exec.status);
    let at = known.order.state.status;
    let settled = change::is_answered(&known.request)
        && !order::is_done(s)
        && (known.order.links.current != known.link || s == codes::PENDING_REPLACE);
    let behind_new = s == codes::PENDING_NEW && at != codes::PENDING_NEW;
    let behind_pending = is_working(s) && is_pending(at) && !pending_here(known);
    settled || behind_new || behind_pending
}

// The book has moved past the report.
#[tactic(auto, unfolding(machine::specs::Report::stale))]
fn stale(known: &Known, e: &Record) -> bool
    ensures { result ≡ stale known.now.link known.now.request known.now.order e.now }
{
    let cumqty = e.exec.cumqty;
    let old = known.order.state.cumqty;
    order::is_done(known.order.state.status)
        || cumqty < old
        || cumqty == old && (0 < e.exec.lastqty || behind(known, e))
}

// The report changes nothing.
#[tactic(auto, unfolding(machine::specs::Report::repeats))]
fn repeats(link: u16, o: &Order, e: &Record) -> bool
    ensures { result ≡ repeats link o.now e.now }
{
    let news = matches!(
        e.exec.exectype,
        codes::EXEC_RESTATED | codes::EXEC_REPLACED | codes::EXEC_DONE_FOR_DAY
    );
    o.links.current == link
        && e.exec.status == o.state.status
        && e.exec.cumqty == o.state.cumqty
        && e.exec.lastqty == 0
        && !news
}

// A stale report leaves the order as it is. A fill on a done order is an alarm.
#[tactic(auto, unfolding(machine::specs::Report::dropped_stale), using(orders::specs::Laws::Choices::choices))]
fn dropped_stale(known: &Known, e: &Record, change: &mut Change)
    ensures { change.new ≡ dropped_stale known.now.findings known.now.order e.now }
{
    let o = &known.order;
    let place = known.findings.place;
    if order::is_done(o.state.status) && o.state.cumqty < e.exec.cumqty {
        change::raising(Alarm::FillOnDoneOrder.number(), place, o, change);
    } else {
        known.leaving(o, change);
    }
}

// A repeat may bring the venue's OrderID.
#[tactic(auto, unfolding(machine::specs::Report::dropped_repeat, machine::specs::Changes::unchanged))]
fn dropped_repeat(known: &Known, e: &Record, change: &mut Change)
    ensures { change.new ≡ dropped_repeat known.now.findings known.now.order e.now }
{
    known.leaving(&known.order, change);
    order::record_venue_order_id(&e.ids.venueorderid, false, &mut change.order);
}

// The status that the report sets: one that is behind is dropped. 0 for none, as in the report. It goes on
// beside `accepted`, as the definitions take the two: made in one place, they would be a struct of two fields
// that three functions take apart.
#[tactic(auto, unfolding(machine::specs::Report::status_taken), using(orders::specs::Laws::Choices::choices))]
fn status_taken(known: &Known, e: &Record) -> u8
    ensures { result ≡ status_taken known.now.link known.now.request known.now.order e.now }
{
    if behind(known, e) { 0 } else { e.exec.status }
}

// The report accepts the pending replace: any answer under its ClOrdID but a rejection and
// PendingReplace.
#[tactic(auto, unfolding(machine::specs::Report::accepts))]
fn accepts(known: &Known, e: &Record) -> bool
    ensures { result ≡ accepts known.now.link known.now.request known.now.order e.now }
{
    let s = status_taken(known, e);
    pending_here(known) && !is_rejection(e) && s != 0 && s != codes::PENDING_REPLACE
}

// A client's cancel's reports, and its pending replace's, answer that request.
#[tactic(auto, unfolding(machine::specs::Report::answers_request))]
fn answers_request(known: &Known) -> bool
    ensures { result ≡ answers_request known.now.link known.now.request known.now.order }
{
    let q = &known.request;
    !change::is_gateway(q) && (change::is_cancel(q) || change::is_replace(q) && pending_here(known))
}

// The quantity that the report may not pass.
#[tactic(auto, unfolding(machine::specs::Report::ordered_qty), using(orders::specs::Laws::Choices::choices))]
fn ordered_qty(accepted: bool, o: &Order) -> u64
    ensures { result ≡ ordered_qty accepted o.now }
{
    if accepted { o.pending.qty } else { o.terms.qty }
}

// The order with the replace applied that the report accepts.
#[tactic(auto, using(orders::specs::Laws::Choices::choices))]
fn replaced_order(accepted: bool, request: &Request, o: &mut Order)
    ensures { o.new ≡ (if accepted then apply_replace request.now o.old otherwise o.old) }
{
    if accepted {
        order::apply_replace(request, o);
    }
}

// The order with the report's quantities and status; `status` is 0 if the order's own stays.
#[tactic(auto, unfolding(machine::specs::Report::reported_order), using(orders::specs::Laws::Choices::choices))]
fn reported_order(accepted: bool, status: u8, request: &Request, e: &Record, o: &mut Order)
    ensures { o.new ≡ reported_order accepted status request.now o.old e.now }
{
    let mut state = o.state;
    state.cumqty = e.exec.cumqty;
    state.avgpx = e.exec.avgpx;
    order::record_venue_order_id(&e.ids.venueorderid, accepted, o);
    replaced_order(accepted, request, o);
    o.state = state;
    if status == 0 {
        order::set_status(state.status, o);
    } else {
        order::set_status(status, o);
    }
}

// The price of the report's fill, by the order as it was, with its source. Numbers alone: wide knows no order.
#[tactic(auto, unfolding(machine::specs::Report::fill_price_of))]
fn fill_price(o: &Order, e: &Record) -> Priced
    ensures { result ≡ fill_price_of o.now e.now }
{
    let x = &e.exec;
    let fill = wide::Fill {
        lastqty: x.lastqty,
        lastpx: x.lastpx,
        cumqty: x.cumqty,
        avgpx: x.avgpx,
        oldcum: o.state.cumqty,
        oldavg: o.state.avgpx,
        rise: x.cumqty.saturating_sub(o.state.cumqty),
    };
    fill.price()
}

#[tactic(auto, unfolding(machine::specs::Report::report_note), using(orders::specs::Laws::Choices::choices))]
fn report_note(e: &Record) -> Note
    ensures { result ≡ report_note e.now }
{
    let mut n = message::NO_NOTE;
    n.text = e.text;
    if is_rejection(e) {
        n.reason = e.reason;
        if change::has(e, bit::REASON) {
            n.origin = reasons::VENUES;
        }
    }
    n
}

// What the client is told of the order as it is left, by the request that the report answers, if
// any. A rise is a Trade.
#[tactic(auto, unfolding(machine::specs::Report::client_report), using(orders::specs::Laws::Choices::choices))]
fn client_report(known: &Known, rise: u64, price: &Priced, left: &Order, e: &Record) -> Record
    ensures { result ≡ client_report (answers_request known.now.link known.now.request known.now.order) rise known.now.request price.now left.now e.now }
{
    let exectype = if 0 < rise {
        codes::EXEC_TRADE
    } else {
        e.exec.exectype
    };
    let n = report_note(e);
    if answers_request(known) {
        let q = &known.request;
        message::report(left, &q.clordid, &q.origclordid, exectype, rise, price, &n)
    } else {
        message::report(
            left,
            &left.names.clordid,
            &text::no_text(),
            exectype,
            rise,
            price,
            &n,
        )
    }
}

// The requests that the report answers, which are accepted: a replace and the one that it supersedes,
// or a cancel that was Canceled.
#[tactic(auto, unfolding(machine::specs::Report::settles), using(orders::specs::Laws::Choices::choices))]
fn settles(accepted: bool, status: u8, known: &Known, change: &mut Change)
    ensures { change.new ≡ settles accepted status known.now.link known.now.request known.now.order change.old }
{
    if accepted {
        change::answering(known.link, outcomes::ACCEPTED, change);
        change::superseding(known.order.links.current, change);
    } else if change::is_cancel(&known.request) && status == codes::CANCELED {
        change::answering(known.link, outcomes::ACCEPTED, change);
    }
}

// The change of a report that leaves the order as it is given, with an alarm or none.
#[tactic(auto, using(crate::specs::Laws::Alarmed::alarming_settles))]
fn settling(
    alarm: Option<Alarm>,
    accepted: bool,
    status: u8,
    known: &Known,
    left: &Order,
    change: &mut Change,
)
    ensures { change.new ≡ alarming (alarm_in alarm) (settles accepted status known.now.link known.now.request known.now.order (unchanged known.now.findings.place left.now)) }
{
    change::raising_if(alarm, known.findings.place, left, change);
    settles(accepted, status, known, change);
}

// The report is applied, and a short Filled raises its alarm: `most` is the quantity once an
// accepted replace is set. An ack of the gateway's own cancel is not the client's.
#[tactic(auto, unfolding(machine::specs::Report::apply_report), using(orders::specs::Laws::Choices::choices, crate::specs::Laws::Alarmed::alarming_telling))]
fn apply_report(most: u64, known: &Known, e: &Record, change: &mut Change)
    ensures { change.new ≡ alarming (short_alarm most e.now.exec.cumqty (status_taken known.now.link known.now.request known.now.order e.now)) (apply_report known.now.findings known.now.link known.now.request known.now.order e.now) }
{
    let accepted = accepts(known, e);
    let s = status_taken(known, e);
    let alarm = order::short_alarm(most, e.exec.cumqty, s);
    let rise = e.exec.cumqty.saturating_sub(known.order.state.cumqty);
    let mut order = known.order;
    reported_order(accepted, s, &known.request, e, &mut order);
    let silent = rise == 0 && !order::is_done(order.state.status) && !accepted;
    if change::is_gateway(&known.request) && silent {
        settling(alarm, accepted, s, known, &order, change);
        return;
    }
    order::next_exec(&mut order);
    let price = fill_price(&known.order, e);
    let m = client_report(known, rise, &price, &order, e);
    settling(alarm, accepted, s, known, &order, change);
    change::telling(&m, change);
}

// What a rejection of a cancel or replace says: Rejected is not the order's status. Its note is written out,
// as step's `text_note` is: a function for both would be as long.
#[tactic(auto, using(orders::specs::Laws::Choices::choices))]
fn rejection(e: &Record) -> Refused
    ensures { result ≡ rejection_of e.now }
{
    let note = Note {
        text: e.text,
        ..message::NO_NOTE
    };
    Refused {
        status: if e.exec.status == codes::REJECTED {
            0
        } else {
            e.exec.status
        },
        venueorderid: e.ids.venueorderid,
        note,
        outcome: outcomes::REFUSED,
    }
}

// A cancel or replace was rejected.
fn refused_report(known: &Known, e: &Record, change: &mut Change)
    ensures { change.new ≡ resume_gateway_cancel known.now.findings (refuse_request known.now.findings known.now.link known.now.request e.now.venue (rejection_of e.now) known.now.order) }
{
    rejects::refuse_request(known, e.venue, &rejection(e), change);
    gateway_cancel::resume_gateway_cancel(&known.findings, change);
}

// Of a request that the book knows.
#[tactic(auto, unfolding(machine::specs::Report::venue_report), using(orders::specs::Laws::Choices::choices))]
fn venue_report(known: &Known, e: &Record, change: &mut Change)
    ensures { change.new ≡ venue_report known.now.findings known.now.link known.now.request known.now.order e.now }
{
    let o = &known.order;
    let place = known.findings.place;
    let most = ordered_qty(accepts(known, e), o);
    if is_rejection(e) && !change::is_first(&known.request) {
        refused_report(known, e, change);
    } else if o.venue != e.venue {
        known.leaving(o, change);
    } else if stale(known, e) {
        dropped_stale(known, e, change);
    } else if repeats(known.link, o, e) {
        dropped_repeat(known, e, change);
    } else if most < e.exec.cumqty.max(o.state.cumqty) {
        change::raising(Alarm::Overfill.number(), place, o, change);
    } else {
        apply_report(most, known, e, change);
    }
}

// Event 4, of a request that the book knows.
#[tactic(auto, unfolding(machine::specs::Machine::on_report), using(orders::specs::Laws::Choices::choices))]
pub fn on_report(known: &Known, e: &Record, change: &mut Change)
    ensures { change.new ≡ on_report e.now known.now.findings known.now.link known.now.request known.now.order }
{
    if says_unknown_at_venue(e) {
        unknown_at_venue(known, e, change);
    } else {
        venue_report(known, e, change);
    }
}
