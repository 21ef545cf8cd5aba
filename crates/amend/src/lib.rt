// src/book/amend.rs, its first half: cancels and replaces, and what refuses them, as functions over
// structs. Each equals its definition in machine's Amend. Rests on gateway_cancel.
#![tactic(auto)]

ghost use Rattle.std.specs.Prelude.{◌≡◌, Some, IfOk, IfErr};
ghost use Rattle.machine.specs.Orders.{limit_price};
ghost use Rattle.orders.specs.Left.{left_by};
ghost use Rattle.machine.specs.Machine.{nothing};
ghost use Rattle.machine.specs.Changes.{has};
ghost use Rattle.machine.specs.Amend.{matches, amend_refusal, refuse, redelivered_report, already_taken, cancel_refusal, cancel_goes, cancel, or_own, price_of, check_replace, replace_refusal, new_terms, priced_right, new_pending, replace_goes, replace, number};
ghost use Rattle.machine.specs.declared.Reject.{Reject};
ghost use Rattle.amend.specs.Why.{reject_of, reject_or, reject_in};

use crate::why::Why;
use format::{bit, codes};
use machine::{Change, Findings, Note};
use orders::change::has;
use orders::{change, message, order, reasons};
use prelude::{Refusal, Terms};
use records::Record;
use store::{Order, Pending, kinds};

pub mod booking; // a new order is booked
pub mod rejects; // a request that the venue refused, and sends that failed
mod texts; // the fixed texts
mod why; // why a cancel or replace is refused

// What a client's cancel or replace finds: the order of its OrigClOrdID with what the handling needs
// beside it, the link of the order that the client already used the ClOrdID for, 0 for none, and
// whether the client has used as many ClOrdIDs as it may. A link and its 0 as the lookup's definition gives
// them. Contracts name each part, as `target.now.used`: machine's definitions take them one by one, and the
// theorems name those parameters.
#[derive(Clone, Copy)]
pub struct Target {
    pub findings: Findings,
    pub order: Order,
    pub used: u16,
    pub full: bool,
}

// The event names the order's side and symbol.
#[tactic(auto, unfolding(machine::specs::Amend::matches))]
fn matches(o: &Order, e: &Record) -> bool
    ensures { result ≡ matches o.now e.now }
{
    o.terms.side == e.terms.side && text::same_text(o.names.symbol, e.ids.symbol)
}

// The refusals that cancels and replaces share, in order.
#[tactic(auto, unfolding(machine::specs::Amend::amend_refusal), using(orders::specs::Laws::Choices::choices))]
fn check_shared(target: &Target, e: &Record) -> Result<(), Why>
    ensures { (own : Reject) → reject_or result own ≡ amend_refusal target.now.findings target.now.used target.now.full target.now.order e.now own }
{
    if target.used != 0 {
        return Err(Why::Duplicate);
    }
    if target.findings.place == 0 {
        return Err(Why::UnknownOrder);
    }
    if order::is_done(target.order.state.status) {
        return Err(Why::Done);
    }
    if target.full {
        return Err(Why::TooMany);
    }
    if !matches(&target.order, e) {
        return Err(Why::SideOrSymbol);
    }
    Ok(())
}

// A refusal of ours, told to the client. If there is no order the status told is Rejected.
fn refuse(target: &Target, responseto: u8, e: &Record, why: Why, change: &mut Change)
    ensures { change.new ≡ refuse target.now.findings responseto target.now.order e.now (reject_of why) }
{
    let place = target.findings.place;
    let status = if place == 0 {
        codes::REJECTED
    } else {
        target.order.state.status
    };
    let reject = why.reject();
    let n = Note {
        fixedtext: reject.fixedtext,
        reason: reject.reason,
        origin: reasons::OURS,
        ..message::NO_NOTE
    };
    let m = message::cancel_reject(
        e.client,
        &target.order.names.name,
        status,
        &e.ids.clordid,
        &e.ids.origclordid,
        responseto,
        &n,
    );
    change::saying(&m, place, &target.order, change);
}

// A request that was already taken, sent again: the order's state under the request's own ClOrdIDs.
fn redelivered_report(target: &Target, e: &Record, change: &mut Change)
    ensures { change.new ≡ redelivered_report target.now.findings target.now.order e.now }
{
    let mut order = target.order;
    order::next_exec(&mut order);
    let m = message::report(
        &order,
        &e.ids.clordid,
        &e.ids.origclordid,
        codes::EXEC_STATUS,
        0,
        &message::NO_PRICE,
        &message::NO_NOTE,
    );
    change::saying(&m, target.findings.place, &order, change);
}

// The event was redelivered, and its ClOrdID was used for this very order.
#[tactic(auto, unfolding(machine::specs::Amend::already_taken))]
fn already_taken(target: &Target, e: &Record) -> bool
    ensures { result ≡ already_taken target.now.findings target.now.used e.now }
{
    has(e, bit::REDELIVERED) && target.used != 0 && target.used == target.findings.place
}

#[tactic(auto, unfolding(machine::specs::Amend::cancel_refusal), using(orders::specs::Laws::Choices::choices))]
fn check_cancel(target: &Target, e: &Record) -> Result<(), Why>
    ensures { reject_in result ≡ amend_refusal target.now.findings target.now.used target.now.full target.now.order e.now (cancel_refusal target.now.findings target.now.order) }
{
    check_shared(target, e)?;
    if gateway_cancel::gateway_cancel_in_flight(&target.findings, &target.order) {
        return Err(Why::Cancelling);
    }
    Ok(())
}

// The request is recorded under the order's next numbered downstream ClOrdID, and the order is left
// as given.
fn number(target: &Target, kind: u8, e: &Record, left: &Order, change: &mut Change)
    ensures { change.new ≡ number target.now.findings kind target.now.order e.now left.now }
{
    let request = change::next_request(
        &target.findings,
        &target.order,
        kind,
        &e.ids.clordid,
        &e.ids.origclordid,
    );
    change::unchanged(target.findings.place, left, change);
    change::adding(&request, change);
}

// The cancel goes out to the venue.
#[tactic(auto, unfolding(machine::specs::Amend::cancel_goes))]
fn cancel_goes(target: &Target, e: &Record, change: &mut Change)
    ensures { change.new ≡ cancel_goes target.now.findings target.now.order e.now }
{
    let mut order = target.order;
    change::numbered_order(&target.findings, true, &mut order);
    let m = message::cancel_request(&order, &change::next_downstream(&target.order));
    number(target, kinds::CANCEL, e, &order, change);
    change::telling(&m, change);
}

#[tactic(auto, unfolding(machine::specs::Amend::cancel), using(orders::specs::Laws::Choices::choices, crate::specs::Laws::Why::told))]
pub fn cancel(target: &Target, e: &Record, change: &mut Change)
    ensures { change.new ≡ cancel target.now.findings target.now.used target.now.full target.now.order e.now }
{
    if already_taken(target, e) {
        redelivered_report(target, e, change);
        return;
    }
    match check_cancel(target, e) {
        Ok(()) => cancel_goes(target, e, change),
        Err(why) => refuse(target, kinds::CANCEL, e, why, change),
    }
}

// What the event does not name is the order's. 0 for what is not named, as the record has it and the
// definition takes it.
#[tactic(auto, unfolding(machine::specs::Amend::or_own), using(orders::specs::Laws::Choices::choices))]
fn or_own(given: u8, own: u8) -> u8
    ensures { result ≡ or_own given own }
{
    if given == 0 { own } else { given }
}

// `limit_price` of src/book.rs: a limit order's price; a market order has none, whatever is given.
#[tactic(auto, unfolding(machine::specs::Orders::limit_price), using(orders::specs::Laws::Choices::choices))]
fn limit_price(ordtype: u8, price: Option<u64>) -> Option<u64>
    ensures { result ≡ limit_price ordtype price }
{
    price.filter(|_| ordtype != codes::MARKET)
}

// The price that the event brings.
#[tactic(auto, unfolding(machine::specs::Amend::price_of), using(orders::specs::Laws::Choices::choices))]
fn price_of(e: &Record) -> Option<u64>
    ensures { result ≡ price_of e.now }
{
    has(e, bit::PRICE).then_some(e.terms.price)
}

// `check_replace` of src/book/amend.rs: the verdict that the event brings, passed over if no risk is
// added.
#[tactic(auto, unfolding(machine::specs::Amend::check_replace), using(orders::specs::Laws::Choices::choices))]
fn check_replace(o: &Order, e: &Record) -> Result<(), Why>
    ensures { reject_in result ≡ check_replace o.now e.now }
{
    let ordtype = or_own(e.terms.ordtype, o.terms.ordtype);
    let asked = limit_price(ordtype, price_of(e));
    let own = limit_price(o.terms.ordtype, Some(o.terms.price));
    if asked == own && e.terms.qty <= o.terms.qty {
        return Ok(());
    }
    match e.verdict {
        0 => Ok(()),
        v => Err(Why::Verdict(v)),
    }
}

// What refuses a replace beside what it shares with a cancel.
#[tactic(auto, unfolding(machine::specs::Amend::replace_refusal), using(orders::specs::Laws::Choices::choices))]
fn check_terms(target: &Target, e: &Record) -> Result<(), Why>
    ensures { reject_in result ≡ replace_refusal target.now.findings target.now.order e.now }
{
    if gateway_cancel::gateway_cancel_in_flight(&target.findings, &target.order) {
        return Err(Why::Cancelling);
    }
    if order::has_pending(&target.order) {
        return Err(Why::ReplacePending);
    }
    if e.terms.qty < target.order.state.cumqty {
        return Err(Why::BelowFilled);
    }
    if target.order.terms.qty < e.terms.qty && has(e, bit::BLOCKED) {
        return Err(Why::Blocked);
    }
    check_replace(&target.order, e)
}

// All that refuses a replace.
fn check_replace_request(target: &Target, e: &Record) -> Result<(), Why>
    ensures { reject_in result ≡ amend_refusal target.now.findings target.now.used target.now.full target.now.order e.now (replace_refusal target.now.findings target.now.order e.now) }
{
    check_shared(target, e)?;
    check_terms(target, e)
}

// The terms that the replace asks for.
#[tactic(auto, unfolding(machine::specs::Amend::new_terms))]
fn new_terms(o: &Order, e: &Record) -> Terms
    ensures { result ≡ new_terms o.now e.now }
{
    Terms {
        side: o.terms.side,
        ordtype: or_own(e.terms.ordtype, o.terms.ordtype),
        timeinforce: or_own(e.terms.timeinforce, o.terms.timeinforce),
        ..e.terms
    }
}

// Question 6: there is a price exactly if the type is limit.
#[tactic(auto, unfolding(machine::specs::Amend::priced_right), using(orders::specs::Laws::Choices::choices))]
pub fn priced_right(ordtype: u8, e: &Record) -> bool
    ensures { result ≡ priced_right ordtype e.now }
{
    has(e, bit::PRICE) == (ordtype == codes::LIMIT)
}

// The replace as the order keeps it. Field by field, as orders' `pending_terms` is on the way back: there
// it says why.
#[tactic(auto, unfolding(machine::specs::Amend::new_pending))]
fn new_pending(findings: &Findings, terms: &Terms) -> Pending
    ensures { result ≡ new_pending findings.now terms.now }
{
    Pending {
        request: change::next_link(findings),
        qty: terms.qty,
        price: terms.price,
        ordtype: terms.ordtype,
        timeinforce: terms.timeinforce,
    }
}

#[tactic(auto, unfolding(machine::specs::Amend::replace_goes))]
fn replace_goes(target: &Target, e: &Record, change: &mut Change)
    ensures { change.new ≡ replace_goes target.now.findings target.now.order e.now }
{
    let terms = new_terms(&target.order, e);
    let mut order = target.order;
    change::numbered_order(&target.findings, false, &mut order);
    order.pending = new_pending(&target.findings, &terms);
    let m = message::replace_request(&order, &change::next_downstream(&target.order), &terms);
    number(target, kinds::REPLACE, e, &order, change);
    change::telling(&m, change);
}

#[tactic(auto, unfolding(machine::specs::Amend::replace), using(orders::specs::Laws::Choices::choices, crate::specs::Laws::Why::told, crate::specs::Laws::Taken::amend_taken))]
pub fn replace(target: &Target, e: &Record, change: &mut Change) -> Result<(), Refusal>
    ensures is { left_by result change.new ≡ replace target.now.findings target.now.used target.now.full target.now.order e.now }
    ensures taken { IfOk result (λ done. change.new.refusal ≡ 0) }
    ensures refused { IfErr result (λ r. change.new ≡ nothing) }
{
    if already_taken(target, e) {
        redelivered_report(target, e, change);
        return Ok(());
    }
    if let Err(why) = check_replace_request(target, e) {
        refuse(target, kinds::REPLACE, e, why, change);
        return Ok(());
    }
    if !priced_right(or_own(e.terms.ordtype, target.order.terms.ordtype), e) {
        change::nothing(change);
        return Err(Refusal::WrongPrice);
    }
    replace_goes(target, e, change);
    Ok(())
}
