// A change, what an event does, and how one is put together: the places where src/book.rs writes
// to its book and its outputs, and `next_downstream`. Each function equals its definition in
// machine's Changes. Rests on order and message.
ghost use Rattle.std.specs.Prelude.{◌≡◌};
ghost use Rattle.machine.specs.Changes.{has, is_first, is_replace, is_gateway, is_cancel, is_answered, unchanged, with_order, answering, superseding, adding, telling, alarming, next_link, next_number, next_downstream, next_request, numbered_order};
ghost use Rattle.machine.specs.Machine.{nothing};
ghost use Rattle.orders.specs.Alarms.{alarm_in};

use crate::alarm::Alarm;
use machine::{Change, Findings, Output, Requests};
use prelude::Text;
use records::Record;
use records::zeros::NO_RECORD;
use store::{Order, Request, kinds};

// A bit of the event's map stands.
pub fn has(e: &Record, k: u32) -> bool
    ensures { result ≡ has e.now k }
{
    bits::has(e.map, k)
}

// This and the next two differ in a constant: each has the name of its definition in machine, and one
// function of a kind would be the comparison itself.
#[tactic(auto, unfolding(machine::specs::Changes::is_first))]
pub fn is_first(request: &Request) -> bool
    ensures { result ≡ is_first request.now }
{
    request.kind == kinds::FIRST
}

#[tactic(auto, unfolding(machine::specs::Changes::is_replace))]
pub fn is_replace(request: &Request) -> bool
    ensures { result ≡ is_replace request.now }
{
    request.kind == kinds::REPLACE
}

#[tactic(auto, unfolding(machine::specs::Changes::is_gateway))]
pub fn is_gateway(request: &Request) -> bool
    ensures { result ≡ is_gateway request.now }
{
    request.kind == kinds::GATEWAY
}

// The client's or the gateway's.
#[tactic(auto, unfolding(machine::specs::Changes::is_cancel))]
pub fn is_cancel(request: &Request) -> bool
    ensures { result ≡ is_cancel request.now }
{
    !is_first(request) && !is_replace(request)
}

#[tactic(auto, unfolding(machine::specs::Changes::is_answered))]
pub fn is_answered(request: &Request) -> bool
    ensures { result ≡ is_answered request.now }
{
    request.answered != 0
}

const NO_REQUESTS: Requests = Requests {
    answered: 0,
    superseded: 0,
    outcome: 0,
    added: 0,
    request: store::NO_REQUEST,
};

const SILENT: Output = Output {
    count: 0,
    first: NO_RECORD,
    second: NO_RECORD,
    alarm: 0,
    alarm2: 0,
};

// The change of nothing, in which a change is begun.
pub const NOTHING: Change = Change {
    refusal: 0,
    place: 0,
    order: store::NO_ORDER,
    requests: NO_REQUESTS,
    output: SILENT,
};

pub fn nothing(change: &mut Change)
    ensures { change.new ≡ nothing }
{
    unchanged(0, &store::NO_ORDER, change);
}

// The order is copied part by part: whole, it is so long that the compiler calls `memmove`, which the archive would
// ask of its host.
fn put_order(order: &mut Order, o: &Order)
    ensures { order.new ≡ o.now }
{
    order.client = o.client;
    order.venue = o.venue;
    order.names.name = o.names.name;
    order.names.clordid = o.names.clordid;
    order.names.downstream = o.names.downstream;
    order.names.symbol = o.names.symbol;
    order.names.venueorderid = o.names.venueorderid;
    order.terms = o.terms;
    order.state = o.state;
    order.links = o.links;
    order.pending = o.pending;
    order.gateway = o.gateway;
}

// Nothing changes: the order at a place stands as it is given. Place and order one by one, here and below, as machine's
// definitions take them: the order changes on the way, the place does not.
#[tactic(auto, unfolding(machine::specs::Changes::unchanged))]
pub fn unchanged(place: u16, o: &Order, change: &mut Change)
    ensures { change.new ≡ unchanged place o.now }
{
    change.refusal = 0;
    change.place = place;
    put_order(&mut change.order, o);
    change.requests = NO_REQUESTS;
    change.output = SILENT;
}

// The request of this link is answered, and comes to this outcome: a number, as in the book.
#[tactic(auto, unfolding(machine::specs::Changes::answering))]
pub fn answering(link: u16, outcome: u8, change: &mut Change)
    ensures { change.new ≡ answering link outcome change.old }
{
    change.requests.answered = link;
    change.requests.outcome = outcome;
}

// And so is the request that it supersedes, which comes to the same outcome.
#[tactic(auto, unfolding(machine::specs::Changes::superseding))]
pub fn superseding(link: u16, change: &mut Change)
    ensures { change.new ≡ superseding link change.old }
{
    change.requests.superseded = link;
}

// A request is added.
#[tactic(auto, unfolding(machine::specs::Changes::adding))]
pub fn adding(request: &Request, change: &mut Change)
    ensures { change.new ≡ adding request.now change.old }
{
    change.requests.added = 1;
    change.requests.request = *request;
}

// A message goes out, behind the first one if there is one.
#[tactic(auto, unfolding(machine::specs::Changes::telling), using(crate::specs::Laws::Choices::choices))]
pub fn telling(message: &Record, change: &mut Change)
    ensures { change.new ≡ telling message.now change.old }
{
    if change.output.count == 0 {
        change.output.count = 1;
        change.output.first = *message;
    } else {
        change.output.count = 2;
        change.output.second = *message;
    }
}

// A message goes out, and the order at a place stands as it is given. This, `settled` and `raising` are each
// one of machine's steps on `unchanged`: a function over them would take a closure to name the step.
pub fn saying(message: &Record, place: u16, o: &Order, change: &mut Change)
    ensures { change.new ≡ telling message.now (unchanged place o.now) }
{
    unchanged(place, o, change);
    telling(message, change);
}

// The request of this link is answered, with this outcome, and the order at a place stands as it is given.
pub fn settled(link: u16, outcome: u8, place: u16, o: &Order, change: &mut Change)
    ensures { change.new ≡ answering link outcome (unchanged place o.now) }
{
    unchanged(place, o, change);
    answering(link, outcome, change);
}

// On top of a change: a message goes out, a request is added, and the order is given anew.
pub fn sending_on(message: &Record, request: &Request, o: &Order, change: &mut Change)
    ensures { change.new ≡ telling message.now (adding request.now (with_order o.now change.old)) }
{
    put_order(&mut change.order, o);
    adding(request, change);
    telling(message, change);
}

// An alarm is raised, by its number, behind the first one if there is one. Any number, here and in `raising`: an
// `Alarm` would ask more of callers.
#[tactic(auto, unfolding(machine::specs::Changes::alarming), using(crate::specs::Laws::Choices::choices))]
pub fn alarming(alarm: u8, change: &mut Change)
    ensures { change.new ≡ alarming alarm change.old }
{
    if change.output.alarm == 0 {
        change.output.alarm = alarm;
    } else {
        change.output.alarm2 = alarm;
    }
}

// An alarm is raised, and the order at a place stands as it is given.
pub fn raising(alarm: u8, place: u16, o: &Order, change: &mut Change)
    ensures { change.new ≡ alarming alarm (unchanged place o.now) }
{
    unchanged(place, o, change);
    alarming(alarm, change);
}

// The same, if there may be no alarm.
#[tactic(auto, using(crate::specs::Laws::Alarms::no_alarm))]
pub fn raising_if(alarm: Option<Alarm>, place: u16, o: &Order, change: &mut Change)
    ensures { change.new ≡ alarming (alarm_in alarm) (unchanged place o.now) }
{
    match alarm {
        Some(alarm) => raising(alarm.number(), place, o, change),
        None => unchanged(place, o, change),
    }
}

// The link of a request that is added.
#[tactic(auto, unfolding(machine::specs::Changes::next_link), using(crate::specs::Laws::Counts::one_more_lem))]
pub fn next_link(findings: &Findings) -> u16
    ensures { result ≡ next_link findings.now }
{
    findings.requests.saturating_add(1)
}

#[tactic(auto, unfolding(machine::specs::Changes::next_number), using(crate::specs::Laws::Counts::one_more_lem))]
fn next_number(o: &Order) -> u16
    ensures { result ≡ next_number o.now }
{
    o.links.amendments.saturating_add(1)
}

// The order's next numbered downstream ClOrdID.
#[tactic(auto, unfolding(machine::specs::Changes::next_downstream))]
pub fn next_downstream(o: &Order) -> Text
    ensures { result ≡ next_downstream o.now }
{
    text::numbered(o.names.name, next_number(o))
}

// The request under it.
#[tactic(auto, unfolding(machine::specs::Changes::next_request))]
pub fn next_request(
    findings: &Findings,
    o: &Order,
    kind: u8,
    clordid: &Text,
    origclordid: &Text,
) -> Request
    ensures { result ≡ next_request findings.now o.now kind clordid.now origclordid.now }
{
    Request {
        order: findings.place.saturating_sub(1),
        kind,
        answered: 0,
        clordid: *clordid,
        origclordid: *origclordid,
        downstream: next_downstream(o),
        outcome: 0,
    }
}

// The order with that number taken. A cancel becomes the order's latest.
#[tactic(auto, unfolding(machine::specs::Changes::numbered_order), using(crate::specs::Laws::Choices::choices))]
pub fn numbered_order(findings: &Findings, cancels: bool, o: &mut Order)
    ensures { o.new ≡ numbered_order findings.now cancels o.old }
{
    o.links.amendments = next_number(o);
    if cancels {
        o.links.cancel = next_link(findings);
    }
}
