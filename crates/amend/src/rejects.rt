// The second half of src/book/amend.rs: a request that the venue refused, and sends that failed.
// Each function equals its definition in machine's Amend. Rests on gateway_cancel.
ghost use Rattle.std.specs.Prelude.{◌≡◌, eqb};
ghost use Rattle.prelude.specs.Cases.{if◌then◌otherwise◌};
ghost use Rattle.store.specs.Orders.{no_pending};
ghost use Rattle.machine.specs.Messages.{cancel_reject};
ghost use Rattle.machine.specs.Changes.{unchanged, answering, alarming};
ghost use Rattle.machine.specs.Amend.{not_pending, refused_order, refused_alarm, refused_note, refuse_request, venue_note, venue_cancel_reject, first_failed, send_failed, resendable, unsent};
ghost use Rattle.orders.specs.Alarms.{alarm_in};

use crate::texts;
use format::{bit, codes};
use gateway_cancel::tries;
use machine::{Change, Note, Refused};
use orders::alarm::Alarm;
use orders::change::has;
use orders::{Known, change, message, order, reasons};
use records::Record;
use store::{Order, Pending, Request, kinds, outcomes};

// Without the venue's word, a refused request no longer holds the order pending: it is New, which
// `set_status` makes PartiallyFilled above a cumulative of 0.
#[tactic(auto, unfolding(machine::specs::Amend::not_pending), using(orders::specs::Laws::Choices::choices, crate::specs::Laws::Working::set_new))]
fn not_pending(o: &mut Order)
    ensures { o.new ≡ not_pending o.old }
{
    if let codes::PENDING_CANCEL | codes::PENDING_REPLACE = o.state.status {
        order::set_status(codes::NEW, o);
    }
}

// What is pending, unless it is the request of this link.
#[tactic(auto, using(orders::specs::Laws::Choices::choices))]
fn pending_but(link: u16, pending: Pending) -> Pending
    ensures { result ≡ (if eqb pending.request link then no_pending otherwise pending) }
{
    if pending.request == link {
        store::no_pending()
    } else {
        pending
    }
}

// The order once its request of this link is refused: done stays done.
#[tactic(auto, unfolding(machine::specs::Amend::refused_order), using(orders::specs::Laws::Choices::choices))]
fn refused_order(link: u16, refused: &Refused, o: &mut Order)
    ensures { o.new ≡ refused_order link refused.now o.old }
{
    let done = order::is_done(o.state.status);
    let pending = pending_but(link, o.pending);
    order::record_venue_order_id(&refused.venueorderid, false, o);
    o.pending = pending;
    if done {
        return;
    }
    if refused.status != 0 {
        order::set_status(refused.status, o);
    } else {
        not_pending(o);
    }
}

// The alarm that a refusal raises: its status would set a short Filled.
#[tactic(auto, unfolding(machine::specs::Amend::refused_alarm), using(orders::specs::Laws::Choices::choices))]
fn refused_alarm(refused: &Refused, o: &Order) -> Option<Alarm>
    ensures { alarm_in result ≡ refused_alarm refused.now o.now }
{
    if order::is_done(o.state.status) {
        return None;
    }
    order::short_alarm(o.terms.qty, o.state.cumqty, refused.status)
}

// The change of a refusal: the request is answered, the order is left as it is given, and that alarm is
// raised.
#[tactic(auto, unfolding(machine::specs::Changes::alarming, machine::specs::Changes::answering, machine::specs::Changes::unchanged), using(orders::specs::Laws::Choices::choices))]
fn refused_change(known: &Known, refused: &Refused, left: &Order, change: &mut Change)
    ensures { change.new ≡ alarming (refused_alarm refused.now known.now.order) (answering known.now.link refused.now.outcome (unchanged known.now.findings.place left.now)) }
{
    let alarm = refused_alarm(refused, &known.order);
    change::raising_if(alarm, known.findings.place, left, change);
    change::answering(known.link, refused.outcome, change);
}

// What the client is told: the text that came, or that the venue rejected it; the venue's reason,
// or Other.
#[tactic(auto, unfolding(machine::specs::Amend::refused_note), using(orders::specs::Laws::Choices::choices))]
fn refused_note(note: &Note) -> Note
    ensures { result ≡ refused_note note.now }
{
    let mut out = *note;
    if note.text.len == 0 && note.fixedtext == 0 {
        out.fixedtext = texts::REJECTED;
    }
    if note.origin == 0 {
        out.reason = reasons::OTHER;
        out.origin = reasons::OURS;
    }
    out
}

// The message that tells the client of a refusal, with the status that the order is left at.
fn refused_message(request: &Request, status: u8, note: &Note, o: &Order) -> Record
    ensures { result ≡ cancel_reject o.now.client o.now.names.name status request.now.clordid request.now.origclordid request.now.kind (refused_note note.now) }
{
    message::cancel_reject(
        o.client,
        &o.names.name,
        status,
        &request.clordid,
        &request.origclordid,
        request.kind,
        &refused_note(note),
    )
}

#[tactic(auto, unfolding(machine::specs::Amend::refuse_request), using(orders::specs::Laws::Choices::choices))]
pub fn refuse_request(known: &Known, venue: u16, refused: &Refused, change: &mut Change)
    ensures { change.new ≡ refuse_request known.now.findings known.now.link known.now.request venue refused.now known.now.order }
{
    let o = &known.order;
    let request = &known.request;
    if change::is_first(request) || o.venue != venue || change::is_answered(request) {
        known.leaving(o, change);
        return;
    }
    let mut order = *o;
    refused_order(known.link, refused, &mut order);
    refused_change(known, refused, &order, change);
    if change::is_gateway(request) {
        if o.links.cancel == known.link {
            gateway_cancel::gateway_cancel_refused(&known.findings, &refused.note, change);
        }
        return;
    }
    let m = refused_message(request, order.state.status, &refused.note, o);
    change::telling(&m, change);
}

#[tactic(auto, unfolding(machine::specs::Amend::venue_note), using(orders::specs::Laws::Choices::choices))]
fn venue_note(e: &Record) -> Note
    ensures { result ≡ venue_note e.now }
{
    let origin = if has(e, bit::REASON) {
        reasons::VENUES
    } else {
        0
    };
    Note {
        text: e.text,
        reason: e.reason,
        origin,
        ..message::NO_NOTE
    }
}

// Of a request that the book knows.
#[tactic(auto, unfolding(machine::specs::Amend::venue_cancel_reject))]
pub fn venue_cancel_reject(known: &Known, e: &Record, change: &mut Change)
    ensures { change.new ≡ venue_cancel_reject known.now.findings known.now.link known.now.request known.now.order e.now }
{
    let r = Refused {
        status: e.exec.status,
        venueorderid: e.ids.venueorderid,
        note: venue_note(e),
        outcome: outcomes::REFUSED,
    };
    refuse_request(known, e.venue, &r, change);
    gateway_cancel::resume_gateway_cancel(&known.findings, change);
}

// The first send failed: the order is rejected, for a reason of ours.
#[tactic(auto, unfolding(machine::specs::Amend::first_failed))]
fn first_failed(known: &Known, outcome: u8, note: &Note, change: &mut Change)
    ensures { change.new ≡ first_failed known.now.findings known.now.link outcome note.now known.now.order }
{
    let mut order = known.order;
    order::set_status(codes::REJECTED, &mut order);
    order::next_exec(&mut order);
    let failed = Note {
        reason: reasons::OTHER,
        origin: reasons::OURS,
        ..*note
    };
    let m = message::report(
        &order,
        &order.names.clordid,
        &text::no_text(),
        codes::EXEC_REJECTED,
        0,
        &message::NO_PRICE,
        &failed,
    );
    change::settled(known.link, outcome, known.findings.place, &order, change);
    change::telling(&m, change);
}

#[tactic(auto, unfolding(machine::specs::Amend::send_failed, machine::specs::Changes::is_first, machine::specs::Changes::is_gateway), using(orders::specs::Laws::Choices::choices))]
pub fn send_failed(known: &Known, venue: u16, outcome: u8, note: &Note, change: &mut Change)
    ensures { change.new ≡ send_failed known.now.findings known.now.link known.now.request venue outcome note.now known.now.order }
{
    let o = &known.order;
    let place = known.findings.place;
    let answered = change::is_answered(&known.request);
    if o.venue != venue {
        known.leaving(o, change);
        return;
    }
    match known.request.kind {
        kinds::GATEWAY if answered => known.leaving(o, change),
        kinds::GATEWAY if !order::has_gateway(o) => change::settled(
            known.link, outcome, place, o, change,
        ),
        kinds::GATEWAY => {
            let mut order = *o;
            tries::fail(&mut order.gateway);
            change::settled(known.link, outcome, place, &order, change);
        }
        kinds::FIRST if answered || o.state.status != codes::PENDING_NEW => known.leaving(
            o, change,
        ),
        kinds::FIRST => first_failed(known, outcome, note, change),
        _ => {
            let r = Refused {
                status: o.state.status,
                venueorderid: text::no_text(),
                note: *note,
                outcome,
            };
            refuse_request(known, venue, &r, change);
        }
    }
}

#[tactic(auto, unfolding(machine::specs::Amend::resendable))]
fn resendable(request: &Request, venue: u16, o: &Order) -> bool
    ensures { result ≡ resendable request.now venue o.now }
{
    !change::is_answered(request) && !order::is_done(o.state.status) && o.venue == venue
}

// A request is sent again, or its send has failed.
#[tactic(auto, unfolding(machine::specs::Amend::unsent, machine::specs::Changes::is_first, machine::specs::Changes::is_replace, machine::specs::Changes::is_cancel), using(orders::specs::Laws::Choices::choices))]
pub fn unsent(known: &Known, venue: u16, change: &mut Change)
    ensures { change.new ≡ unsent known.now.findings known.now.link known.now.request venue known.now.order }
{
    let o = &known.order;
    let place = known.findings.place;
    let downstream = &known.request.downstream;
    if resendable(&known.request, venue, o) {
        match known.request.kind {
            kinds::FIRST if o.state.status == codes::PENDING_NEW => {
                change::saying(&message::new_order(o, downstream), place, o, change);
                return;
            }
            kinds::REPLACE if o.pending.request == known.link => {
                let m = message::replace_request(o, downstream, &order::pending_terms(o));
                change::saying(&m, place, o, change);
                return;
            }
            kinds::FIRST | kinds::REPLACE => {}
            _ => {
                change::saying(&message::cancel_request(o, downstream), place, o, change);
                return;
            }
        }
    }
    let n = Note {
        fixedtext: texts::NOT_SENT,
        ..message::NO_NOTE
    };
    send_failed(known, venue, outcomes::REFUSED, &n, change);
}
