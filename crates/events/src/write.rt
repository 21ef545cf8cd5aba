// A change written into the book's bytes: into its tables, and then what is stored only to be found quickly.
// A link is a number, as the book has it: one more than the index, and 0 for none. Rests on store.
ghost use Rattle.std.specs.Prelude.{◌≡◌, eqb};
ghost use Rattle.prelude.specs.Cases.{if◌then◌otherwise◌};
ghost use Rattle.store.specs.Book.{store_open};
ghost use Rattle.step.specs.Entries.{place_order, mark_link, place_requests, place_origin};

use index::Word;
use machine::Requests;
use store::Order;

// The order goes to the record of its link, `place`: 0 is none, one past those in use is a new order.
#[tactic(auto, unfolding(step::specs::Entries::place_order), using(orders::specs::Laws::Choices::choices))]
pub(crate) fn place_order(book: &mut [u8], place: u16, o: &Order)
    ensures { book.new ≡ place_order book.old place o.now }
{
    if place == 0 {
        return;
    }
    if usize::from(place) <= store::order_count(book) {
        store::store_order(book, usize::from(place - 1), *o);
        return;
    }
    store::add_order(book, *o);
}

// The request of this link is marked as answered, with this outcome if it was not answered before; 0 is none.
#[tactic(auto, unfolding(step::specs::Entries::mark_link), using(orders::specs::Laws::Choices::choices))]
fn mark_link(book: &mut [u8], link: u16, outcome: u8)
    ensures { book.new ≡ mark_link book.old link outcome }
{
    if link == 0 {
        return;
    }
    store::mark_answered(book, usize::from(link - 1), outcome);
}

// The requests settled have the change's outcome, and one may be added.
#[tactic(auto, unfolding(step::specs::Entries::place_requests), using(orders::specs::Laws::Choices::choices))]
pub(crate) fn place_requests(book: &mut [u8], r: &Requests)
    ensures { book.new ≡ place_requests book.old r.now }
{
    mark_link(book, r.answered, r.outcome);
    mark_link(book, r.superseded, r.outcome);
    if r.added == 0 {
        return;
    }
    store::add_request(book, r.request);
}

// Request k has this origin, if one is added.
#[tactic(auto, unfolding(step::specs::Entries::place_origin), using(orders::specs::Laws::Choices::choices))]
fn place_origin(book: &mut [u8], added: u8, k: usize, origin: u16)
    ensures { book.new ≡ place_origin book.old added k origin }
{
    if added == 0 {
        return;
    }
    store::store_origin(book, k, origin);
}

// The open quantity of the client of the order at `place`, 0 for none, goes to its word.
#[tactic(auto, using(orders::specs::Laws::Choices::choices))]
fn place_open(book: &mut [u8], place: u16, opening: Word)
    ensures { book.new ≡ (if eqb place 0 then book.old otherwise store_open book.old opening.at opening.quantity) }
{
    if place == 0 {
        return;
    }
    store::store_open(book, opening.at, opening.quantity);
}

// What is stored only to be found quickly, and all of it: the origin of the request that is added, if one is,
// at k, and the open quantity of the client of the order at `place`.
pub(crate) fn place_index(
    book: &mut [u8],
    added: u8,
    k: usize,
    origin: u16,
    place: u16,
    opening: Word,
)
    ensures { book.new ≡ (if eqb place 0 then place_origin book.old added k origin otherwise store_open (place_origin book.old added k origin) opening.at opening.quantity) }
{
    place_origin(book, added, k, origin);
    place_open(book, place, opening);
}
