// `book_order` of src/book.rs: a new order is booked. It equals `book_at` of specs/Booking.antt, and the
// functions for its parts equal their definitions in machine's Machine. Rests on orders.
ghost use Rattle.std.specs.Prelude.{◌-◌, ◌≡◌, IfOk, IfErr};
ghost use Rattle.orders.specs.Left.{left_by};
ghost use Rattle.machine.specs.Machine.{booked_order, first_request, nothing};
ghost use Rattle.amend.specs.Booking.{book_at};

use crate::priced_right;
use format::codes;
use machine::Change;
use orders::change;
use prelude::Refusal;
use records::Record;
use store::{Links, Names, Order, Request, State, kinds};

#[tactic(auto, unfolding(machine::specs::Machine::booked_order))]
fn booked_order(link: u16, e: &Record) -> Order
    ensures { result ≡ booked_order link e.now }
{
    Order {
        client: e.client,
        venue: e.venue,
        names: Names {
            name: e.ids.name,
            clordid: e.ids.clordid,
            downstream: e.ids.name,
            symbol: e.ids.symbol,
            venueorderid: text::no_text(),
        },
        terms: e.terms,
        state: State {
            status: codes::PENDING_NEW,
            cumqty: 0,
            avgpx: 0,
            execseq: 0,
        },
        links: Links {
            amendments: 0,
            current: link,
            cancel: 0,
        },
        pending: store::no_pending(),
        gateway: store::no_gateway(),
    }
}

#[tactic(auto, unfolding(machine::specs::Machine::first_request))]
fn first_request(place: u16, e: &Record) -> Request
    ensures { result ≡ first_request (place - 1) e.now }
{
    Request {
        order: place.saturating_sub(1),
        kind: kinds::FIRST,
        answered: 0,
        clordid: e.ids.clordid,
        origclordid: text::no_text(),
        downstream: e.ids.name,
        outcome: 0,
    }
}

// The order goes to `place` and its request gets `link`, each one past those in use. `fresh` says
// that the name and the ClOrdID are unused.
#[tactic(auto, unfolding(crate::specs::Booking::book_at), using(orders::specs::Laws::Choices::choices, orders::specs::Laws::Taken::taken))]
pub fn book_order(
    place: u16,
    link: u16,
    fresh: bool,
    e: &Record,
    change: &mut Change,
) -> Result<(), Refusal>
    ensures is { left_by result change.new ≡ book_at place link fresh e.now }
    ensures taken { IfOk result (λ done. change.new.refusal ≡ 0) }
    ensures refused { IfErr result (λ r. change.new ≡ nothing) }
{
    if !fresh {
        change::nothing(change);
        return Err(Refusal::InUse);
    }
    if !priced_right(e.terms.ordtype, e) {
        change::nothing(change);
        return Err(Refusal::WrongPrice);
    }
    change::unchanged(place, &booked_order(link, e), change);
    change::adding(&first_request(place, e), change);
    Ok(())
}
