// An order and a request of a side as they stand behind what another book holds: the numbers that name a place
// are those of the new places, all else is as it was. Rests on side.
ghost use Rattle.std.specs.Prelude.{◌≡◌, ◌≤◌, ◌<◌};
ghost use Rattle.prelude.specs.Below.{first_below};
ghost use Rattle.store.specs.Layout.{most_orders, most_requests};
ghost use Rattle.store.specs.Book.{book_of, order_in, request_in, order_count, request_count};
ghost use Rattle.parts.specs.Parts.{own_cancel, named_along, moved_order, moved_request};
ghost use Rattle.retire.specs.Retire.{moved_origin};
ghost use Rattle.retire.specs.Laws.Side.{side};
ghost use Rattle.retire.specs.Laws.Moved.{own_at, Few};

use crate::side::{Side, order_of};
use rules::Kept;
use store::{GatewayCancel, Links, Order, Pending, Request, kinds, layout};

// Whether request j is a gateway's cancel of order i.
#[tactic(auto, using(store::specs::Laws::Stored::count_most, crate::specs::Laws::Moved::owned))]
fn is_own(book: &Kept<'_>, i: usize, j: usize) -> bool
    requires { j < request_count book.now.bytes.now }
    ensures { result ≡ own_at (book_of book.now.bytes.now) i j }
{
    let at = layout::REQUESTS + j * layout::REQUEST + layout::REQUEST_KIND;
    order_of(book, j) == i && book.bytes[at] == kinds::GATEWAY
}

// The first gateway's cancel of order i.
fn first_own(book: &Kept<'_>, i: usize) -> Option<usize>
    ensures { result ≡ first_below (own_at (book_of book.now.bytes.now) i) (request_count book.now.bytes.now) }
{
    (0..store::request_count(book.bytes)).find(|j| is_own(book, i, *j))
}

// Its link, or that of the order's current request.
#[tactic(auto, using(crate::specs::Laws::Moved::own))]
fn own_cancel(book: &Kept<'_>, i: usize, current: u16) -> u16
    requires { current ≡ (order_in (book_of book.now.bytes.now) i).links.current }
    ensures { result ≡ own_cancel (book_of book.now.bytes.now) i }
{
    match first_own(book, i) {
        // It is at most 256, so the cast by `as` is proved to lose nothing.
        Some(j) => (j + 1) as u16,
        None => current,
    }
}

// Order i, whose links are of requests in use.
#[tactic(auto, using(crate::specs::Laws::Moved::loaded))]
fn load(book: &Kept<'_>, i: usize) -> Order
    requires { i < order_count book.now.bytes.now }
    ensures { (result ≡ order_in (book_of book.now.bytes.now) i) × Few (request_count book.now.bytes.now) result }
{
    store::load_order(book.bytes, i)
}

impl Side<'_> {
    // What order i's gateway cancel names: only in a book that no events led to is it of an order that does
    // not go along.
    fn named(&self, i: usize, o: Order) -> u16
        requires { (i < order_count self.now.book.bytes.now) × (o ≡ order_in (book_of self.now.book.bytes.now) i) × Few (request_count self.now.book.bytes.now) o }
        ensures { (result ≡ named_along (side self.now.done (book_of self.now.book.bytes.now)) (book_of self.now.book.bytes.now) i) × (result ≤ request_count self.now.book.bytes.now) }
    {
        let link = o.gateway.origdownstream;
        if link == 0 {
            return 0;
        }
        if self.has_request(usize::from(link) - 1) {
            return link;
        }
        own_cancel(&self.book, i, o.links.current)
    }

    // Order i behind so many requests.
    #[tactic(auto, unfolding(parts::specs::Parts::moved_order))]
    pub(crate) fn order(&self, behind: u16, i: usize) -> Order
        requires { (behind ≤ most_requests) × (i < order_count self.now.book.bytes.now) }
        ensures { result ≡ moved_order (side self.now.done (book_of self.now.book.bytes.now)) behind (book_of self.now.book.bytes.now) i }
    {
        let o = load(&self.book, i);
        let named = self.named(i, o);
        Order {
            links: Links {
                current: self.link(behind, o.links.current),
                cancel: self.link(behind, o.links.cancel),
                ..o.links
            },
            pending: Pending {
                request: self.link(behind, o.pending.request),
                ..o.pending
            },
            gateway: GatewayCancel {
                origdownstream: self.link(behind, named),
                ..o.gateway
            },
            ..o
        }
    }

    // A request in use behind so many orders.
    #[tactic(auto, using(store::specs::Laws::Stored::count_most, crate::specs::Laws::Side::linking), unfolding(parts::specs::Parts::moved_request))]
    pub(crate) fn request(&self, behind: u16, q: Request) -> Request
        requires { (behind ≤ most_orders) × (q.order < order_count self.now.book.bytes.now) }
        ensures { result ≡ moved_request (side self.now.done (book_of self.now.book.bytes.now)) behind q }
    {
        Request {
            order: behind + self.orders[usize::from(q.order)],
            ..q
        }
    }

    // The link of the request that the OrigClOrdID of request j names, behind so many requests; 0 without one.
    #[tactic(auto, using(store::specs::Laws::Beside::load_origin_in, crate::specs::Laws::Moved::origin))]
    pub(crate) fn origin(&self, behind: u16, j: usize, q: Request) -> u16
        requires { (behind ≤ most_requests) × (j < request_count self.now.book.bytes.now) × (q ≡ request_in (book_of self.now.book.bytes.now) j) }
        ensures { result ≡ moved_origin (side self.now.done (book_of self.now.book.bytes.now)) self.now.book.bytes.now behind j }
    {
        if q.origclordid.len == 0 {
            return 0;
        }
        let link = store::load_origin(self.book.bytes, j);
        self.link(behind, link)
    }
}
