// An event's whole effect, as a change, on a book that keeps its rules: what the event finds in the book, the
// handling of its kind, and question 7. It writes nothing. A change of `Ok` says in each contract that its field
// `refusal` is 0: machine's definitions keep the reason there, which is an `Err` here. Rests on rules, report
// and loads.
ghost use Rattle.std.specs.Prelude.{◌≡◌, ◌<◌, IfOk, IfErr};
ghost use Rattle.store.specs.Book.{book_of};
ghost use Rattle.orders.specs.Left.{left_by};
ghost use Rattle.machine.specs.Machine.{order_of, unused, book_order, nothing, unknown_report, text_note, on_request, on_name, change_of, step_of};
ghost use Rattle.step.specs.Steps.{origin_asked, amended, handled, unknown_of, has_room_for};

use crate::{Asked, loads};
use amend::{Target, booking, rejects};
use format::codes;
use machine::{Change, Note};
use orders::alarm::Alarm;
use orders::{Known, change, message};
use prelude::Refusal;
use records::Record;
use rules::Kept;
use store::{layout, outcomes};

// The link of the request that the OrigClOrdID of a cancel or replace names, 0 for none.
#[tactic(auto, unfolding(crate::specs::Steps::origin_asked), using(crate::specs::Laws::Steps::origins))]
pub(crate) fn origin_asked(book: &Kept<'_>, e: &Record) -> u16
    ensures { result ≡ origin_asked (book_of book.now.bytes.now) e.now }
{
    match e.kind {
        codes::EVENT_CANCEL | codes::EVENT_REPLACE => {
            index::origin_of(book.bytes, e.client, e.ids.origclordid)
        }
        _ => 0,
    }
}

// Whether a booking's name and ClOrdID are both unused.
#[tactic(auto, using(crate::specs::Laws::Found::name_used, crate::specs::Laws::Found::name_unused))]
fn is_unused(book: &Kept<'_>, e: &Record) -> bool
    ensures { result ≡ unused (book_of book.now.bytes.now) e.now }
{
    store::find_name(book.bytes, e.ids.name).is_none()
        && loads::order_of(book, e.client, e.ids.clordid) == 0
}

// Event 1.
#[tactic(auto, using(store::specs::Laws::Stored::count_most, store::specs::Laws::Stored::length_orders, store::specs::Laws::Stored::length_requests))]
fn book_order(book: &Kept<'_>, e: &Record, change: &mut Change) -> Result<(), Refusal>
    ensures is { left_by result change.new ≡ book_order (book_of book.now.bytes.now) e.now }
    ensures taken { IfOk result (λ done. change.new.refusal ≡ 0) }
    ensures refused { IfErr result (λ r. change.new ≡ nothing) }
{
    let place = loads::link_of(store::order_count(book.bytes));
    let link = loads::link_of(store::request_count(book.bytes));
    let fresh = is_unused(book, e);
    booking::book_order(place, link, fresh, e, change)
}

// Events 2 and 3.
#[tactic(auto, unfolding(crate::specs::Steps::amended), using(orders::specs::Laws::Choices::choices, crate::specs::Laws::Steps::amends, crate::specs::Laws::Steps::order_found, crate::specs::Laws::Taken::cancel_taken))]
fn amend(asked: &Asked<'_, '_>, change: &mut Change) -> Result<(), Refusal>
    requires low { 1 < asked.now.event.now.kind }
    requires high { asked.now.event.now.kind < 4 }
    ensures is { left_by result change.new ≡ amended (book_of asked.now.book.bytes.now) asked.now.event.now }
    ensures taken { IfOk result (λ done. change.new.refusal ≡ 0) }
    ensures refused { IfErr result (λ r. change.new ≡ nothing) }
{
    let book = &asked.book;
    let e = asked.event;
    let place = loads::order_of_link(book, asked.origin);
    let order = loads::order_at_link(book.bytes, place);
    let findings = loads::findings_at(book.bytes, place, &order);
    let used = loads::order_of(book, e.client, e.ids.clordid);
    let full = loads::is_full(book.bytes, e.client);
    let target = Target {
        findings,
        order,
        used,
        full,
    };
    if e.kind == codes::EVENT_CANCEL {
        amend::cancel(&target, e, change);
        Ok(())
    } else {
        amend::replace(&target, e, change)
    }
}

// Events 4 to 8 if the venue's ClOrdID is no request's.
#[tactic(auto, unfolding(crate::specs::Steps::unknown_of), using(orders::specs::Laws::Choices::choices))]
fn unknown(e: &Record, change: &mut Change)
    ensures { change.new ≡ unknown_of e.now }
{
    change::nothing(change);
    if e.kind <= codes::EVENT_CANCEL_REJECT {
        change::alarming(Alarm::UnknownOrder.number(), change);
    }
}

fn text_note(e: &Record) -> Note
    ensures { result ≡ text_note e.now }
{
    Note {
        text: e.text,
        ..message::NO_NOTE
    }
}

// Events 4 to 8 on the request that they name.
#[tactic(auto, unfolding(crate::specs::Steps::handled), using(orders::specs::Laws::Choices::choices))]
fn handle(known: &Known, e: &Record, change: &mut Change)
    ensures { change.new ≡ handled e.now known.now.findings known.now.link known.now.request known.now.order }
{
    match e.kind {
        codes::EVENT_REPORT => report::on_report(known, e, change),
        codes::EVENT_UNKNOWN => report::unknown_at_venue(known, e, change),
        codes::EVENT_CANCEL_REJECT => rejects::venue_cancel_reject(known, e, change),
        codes::EVENT_SEND_FAILED => {
            rejects::send_failed(
                known,
                e.venue,
                outcomes::FAILED_TO_SEND,
                &text_note(e),
                change,
            );
        }
        _ => rejects::unsent(known, e.venue, change),
    }
}

// Events 4 to 8.
#[tactic(auto, unfolding(machine::specs::Machine::on_request), using(crate::specs::Laws::Found::order_few, prelude::specs::Laws::Cases::maybe_some, prelude::specs::Laws::Cases::maybe_none))]
fn on_request(book: &Kept<'_>, e: &Record, change: &mut Change)
    ensures { change.new ≡ on_request (unknown_of e.now) (handled e.now) (book_of book.now.bytes.now) e.now }
{
    match store::find_downstream(book.bytes, e.ids.downstream) {
        Some(k) => {
            let request = loads::request_in(book.bytes, k);
            let order = loads::order_in(book.bytes, usize::from(request.order));
            let findings = loads::findings_at(book.bytes, request.order + 1, &order);
            let link = loads::link_of(k);
            let known = Known {
                findings,
                link,
                request,
                order,
            };
            handle(&known, e, change);
        }
        None => unknown(e, change),
    }
}

// Event 9.
#[tactic(auto, unfolding(machine::specs::Machine::on_name), using(crate::specs::Laws::Found::name_few, prelude::specs::Laws::Cases::maybe_some, prelude::specs::Laws::Cases::maybe_none))]
fn on_name(book: &Kept<'_>, e: &Record, change: &mut Change)
    ensures { change.new ≡ on_name (book_of book.now.bytes.now) e.now }
{
    match store::find_name(book.bytes, e.ids.name) {
        Some(i) => {
            let o = loads::order_in(book.bytes, i);
            let f = loads::findings_at(book.bytes, loads::link_of(i), &o);
            gateway_cancel::cancel_order(&f, &o, change);
        }
        None => change::nothing(change),
    }
}

#[tactic(auto, using(crate::specs::Laws::Steps::kinds, crate::specs::Laws::Taken::request_taken, crate::specs::Laws::Taken::name_taken))]
fn change_of(asked: &Asked<'_, '_>, change: &mut Change) -> Result<(), Refusal>
    ensures is { left_by result change.new ≡ change_of (book_of asked.now.book.bytes.now) asked.now.event.now }
    ensures taken { IfOk result (λ done. change.new.refusal ≡ 0) }
    ensures refused { IfErr result (λ r. change.new ≡ nothing) }
{
    let book = &asked.book;
    let e = asked.event;
    match e.kind {
        codes::EVENT_BOOK => return book_order(book, e, change),
        codes::EVENT_CANCEL | codes::EVENT_REPLACE => return amend(asked, change),
        codes::EVENT_REPORT..=codes::EVENT_SEND_AGAIN => on_request(book, e, change),
        _ => on_name(book, e, change),
    }
    Ok(())
}

// Question 7: whether the order of link `place` and an added request have records.
#[tactic(auto, unfolding(crate::specs::Steps::has_room_for), using(orders::specs::Laws::Choices::choices, store::specs::Laws::Stored::length_orders, store::specs::Laws::Stored::length_requests))]
fn has_room(book: &[u8], place: u16, added: u8) -> bool
    ensures { result ≡ has_room_for (book_of book.now) place added }
{
    let n = store::order_count(book);
    let m = store::request_count(book);
    (usize::from(place) <= n || n < layout::MOST_ORDERS)
        && (added == 0 || m < layout::MOST_REQUESTS)
}

// The event's change, or why it is refused.
#[tactic(auto, using(crate::specs::Laws::Steps::stepped))]
pub(crate) fn step_of(asked: &Asked<'_, '_>, change: &mut Change) -> Result<(), Refusal>
    ensures is { left_by result change.new ≡ step_of (book_of asked.now.book.bytes.now) asked.now.event.now }
    ensures taken { IfOk result (λ done. change.new.refusal ≡ 0) }
    ensures refused { IfErr result (λ r. change.new ≡ nothing) }
{
    change_of(asked, change)?;
    if !has_room(asked.book.bytes, change.place, change.requests.added) {
        change::nothing(change);
        return Err(Refusal::FullBook);
    }
    Ok(())
}
