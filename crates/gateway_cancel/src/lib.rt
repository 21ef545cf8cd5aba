// src/book/gateway_cancel.rs: the gateway cancelling an order itself, as functions over structs, which
// are lent. Each equals its definition in machine's GatewayCancel. Rests on orders.
#![tactic(auto)]

ghost use Rattle.std.specs.Prelude.{◌≡◌};
ghost use Rattle.machine.specs.GatewayCancel.{outstanding_cancel, gateway_cancel_in_flight, begun, given_up, send_gateway_cancel, cancel_order, gateway_cancel_waiting, resume_gateway_cancel, stuck, retry_gateway_cancel, says_gone, gateway_cancel_refused};

use machine::{Change, Findings, Note};
use orders::alarm::Alarm;
use orders::{MAX_GATEWAY_CANCEL_TRIES, change, message, order, reasons};
use store::{GatewayCancel, Order, kinds};

pub mod tries;

// The order's latest cancel is not answered.
#[tactic(auto, unfolding(machine::specs::GatewayCancel::outstanding_cancel))]
fn outstanding_cancel(findings: &Findings, o: &Order) -> bool
    ensures { result ≡ outstanding_cancel findings.now o.now }
{
    o.links.cancel != 0 && !change::is_answered(&findings.cancel)
}

#[tactic(auto, unfolding(machine::specs::GatewayCancel::gateway_cancel_in_flight))]
pub fn gateway_cancel_in_flight(findings: &Findings, o: &Order) -> bool
    ensures { result ≡ gateway_cancel_in_flight findings.now o.now }
{
    outstanding_cancel(findings, o) && change::is_gateway(&findings.cancel)
}

// The gateway's cancel as it begins: not yet sent.
#[tactic(auto, unfolding(machine::specs::GatewayCancel::begun))]
fn begun(o: &Order) -> GatewayCancel
    ensures { result ≡ begun o.now }
{
    GatewayCancel {
        unsent: true,
        origdownstream: o.links.current,
        ..store::NO_GATEWAY
    }
}

// The gateway's cancel once the gateway gives it up.
#[tactic(auto, unfolding(machine::specs::GatewayCancel::given_up))]
fn given_up(o: &Order) -> GatewayCancel
    ensures { result ≡ given_up o.now }
{
    GatewayCancel {
        stuck: true,
        ..o.gateway
    }
}

#[tactic(auto, unfolding(machine::specs::GatewayCancel::send_gateway_cancel, machine::specs::Changes::numbered_order), using(crate::specs::Laws::Tries::sent_is_try))]
fn send_gateway_cancel(findings: &Findings, change: &mut Change)
    ensures { change.new ≡ send_gateway_cancel findings.now change.old }
{
    let o = change.order;
    let mut order = o;
    change::numbered_order(findings, true, &mut order);
    tries::send(&mut order.gateway, o.links.current);
    let m = message::cancel_request(&order, &change::next_downstream(&o));
    let none = text::no_text();
    let request = change::next_request(findings, &o, kinds::GATEWAY, &none, &none);
    change::sending_on(&m, &request, &order, change);
}

// `start_gateway_cancel` and `cancel_order`: nothing for a done order or one whose gateway cancel
// is in flight; behind the client's cancel it waits.
#[tactic(auto, unfolding(machine::specs::GatewayCancel::cancel_order, machine::specs::Changes::unchanged), using(orders::specs::Laws::Choices::choices))]
pub fn cancel_order(findings: &Findings, o: &Order, change: &mut Change)
    ensures { change.new ≡ cancel_order findings.now o.now }
{
    change::unchanged(findings.place, o, change);
    if order::is_done(o.state.status) || gateway_cancel_in_flight(findings, o) {
        return;
    }
    change.order.gateway = begun(o);
    if outstanding_cancel(findings, o) {
        return;
    }
    send_gateway_cancel(findings, change);
}

// A gateway cancel waits, and nothing stands in its way once the change has answered its request.
#[tactic(auto, unfolding(machine::specs::GatewayCancel::gateway_cancel_waiting))]
fn gateway_cancel_waiting(findings: &Findings, change: &Change) -> bool
    ensures { result ≡ gateway_cancel_waiting findings.now change.now }
{
    let o = &change.order;
    let answered = change.requests.answered;
    let blocked = outstanding_cancel(findings, o) && o.links.cancel != answered;
    order::has_gateway(o) && o.gateway.unsent && !blocked
}

// A gateway cancel that waited goes now.
#[tactic(auto, unfolding(machine::specs::GatewayCancel::resume_gateway_cancel), using(orders::specs::Laws::Choices::choices))]
pub fn resume_gateway_cancel(findings: &Findings, change: &mut Change)
    ensures { change.new ≡ resume_gateway_cancel findings.now change.old }
{
    if gateway_cancel_waiting(findings, change) {
        send_gateway_cancel(findings, change);
    }
}

#[tactic(auto, unfolding(machine::specs::GatewayCancel::stuck))]
fn stuck(change: &mut Change)
    ensures { change.new ≡ stuck change.old }
{
    change.order.gateway = given_up(&change.order);
    change::alarming(Alarm::StuckCancel.number(), change);
}

#[tactic(auto, unfolding(machine::specs::GatewayCancel::retry_gateway_cancel), using(orders::specs::Laws::Choices::choices))]
fn retry_gateway_cancel(findings: &Findings, change: &mut Change)
    ensures { change.new ≡ retry_gateway_cancel findings.now change.old }
{
    if MAX_GATEWAY_CANCEL_TRIES <= change.order.gateway.tries {
        stuck(change);
    } else {
        send_gateway_cancel(findings, change);
    }
}

// The venue says that it is too late, or that it does not know the order.
#[tactic(auto, unfolding(machine::specs::GatewayCancel::says_gone))]
fn says_gone(note: &Note) -> bool
    ensures { result ≡ says_gone note.now }
{
    note.origin == reasons::VENUES && matches!(note.reason, reasons::TOO_LATE | reasons::UNKNOWN)
}

// A refusal's status may have made the order done, which ends the gateway cancel.
#[tactic(auto, unfolding(machine::specs::GatewayCancel::gateway_cancel_refused), using(orders::specs::Laws::Choices::choices))]
pub fn gateway_cancel_refused(findings: &Findings, note: &Note, change: &mut Change)
    ensures { change.new ≡ gateway_cancel_refused findings.now note.now change.old }
{
    let o = &change.order;
    if !order::has_gateway(o) {
        return;
    }
    if says_gone(note) && o.links.current == o.gateway.origdownstream {
        stuck(change);
    } else {
        retry_gateway_cancel(findings, change);
    }
}
