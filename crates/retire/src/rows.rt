// The rows of a side written behind those of a book, in order: the orders, then the requests. Rests on moving.
ghost use Rattle.std.specs.Prelude.{◌≡◌, ◌≤◌};
ghost use Rattle.store.specs.Layout.{most_orders, most_requests};
ghost use Rattle.store.specs.Book.{book_of, order_count, request_count};
ghost use Rattle.retire.specs.Retire.{orders_moved, add_linked, requests_moved, rows_moved};
ghost use Rattle.retire.specs.Laws.Side.{side};

use crate::side::Side;
use rules::Kept;
use store::Request;

// A request and, beside its fields, the link of the one that its OrigClOrdID names.
#[tactic(auto, unfolding(crate::specs::Retire::add_linked))]
fn add_linked(book: &mut [u8], q: Request, origin: u16)
    ensures { book.new ≡ add_linked book.old q origin }
{
    let n = store::request_count(book);
    store::add_request(book, q);
    store::store_origin(book, n, origin);
}

impl Side<'_> {
    // The orders of the side; `behind` is how many requests `into` has.
    #[tactic(auto, using(crate::specs::Laws::Rows::ordered))]
    fn move_orders(&self, behind: u16, into: &mut [u8])
        requires { behind ≤ most_requests }
        ensures { into.new ≡ orders_moved (side self.now.done (book_of self.now.book.bytes.now)) self.now.book.bytes.now behind into.old (order_count self.now.book.bytes.now) }
    {
        for i in 0..store::order_count(self.book.bytes) {
            if self.has_order(i) {
                let order = self.order(behind, i);
                store::add_order(into, order);
            }
        }
    }

    // Their requests; `into` had so many orders and requests.
    #[tactic(auto, using(crate::specs::Laws::Rows::requested))]
    fn move_requests(&self, orders: u16, requests: u16, into: &mut [u8])
        requires { (orders ≤ most_orders) × (requests ≤ most_requests) }
        ensures { into.new ≡ requests_moved (side self.now.done (book_of self.now.book.bytes.now)) self.now.book.bytes.now orders requests into.old (request_count self.now.book.bytes.now) }
    {
        for j in 0..store::request_count(self.book.bytes) {
            if self.has_request(j) {
                let q = store::load_request(self.book.bytes, j);
                let origin = self.origin(requests, j, q);
                let request = self.request(orders, q);
                add_linked(into, request, origin);
            }
        }
    }
}

// All of them: orders, then requests.
#[tactic(auto, using(store::specs::Laws::Stored::count_most), unfolding(crate::specs::Retire::rows_moved))]
pub(crate) fn move_rows(was: &Kept<'_>, done: bool, into: &mut [u8])
    ensures { into.new ≡ rows_moved (side done (book_of was.now.bytes.now)) was.now.bytes.now into.old }
{
    let side = Side::new(was, done);
    // At most 64 and 256: by `as`, which is proved to lose nothing.
    let orders = store::order_count(into) as u16;
    let requests = store::request_count(into) as u16;
    side.move_orders(requests, into);
    side.move_requests(orders, requests, into);
}
