// One side of a book that keeps its rules, its done orders or its live ones: which orders and requests go along,
// and how many do before each, so that a link is moved at once. Rests on rules, store and orders.
ghost use Rattle.std.specs.Prelude.{◌≡◌, ◌≤◌, ◌<◌};
ghost use Rattle.store.specs.Layout.{most_requests};
ghost use Rattle.store.specs.Book.{book_of, request_in, order_count, request_count};
ghost use Rattle.parts.specs.Parts.{done_at, of_passing, moved_link};
ghost use Rattle.retire.specs.Laws.Side.{side, Ranks, Ranked};

use orders::order;
use rules::Kept;
use store::layout;
use words::get16;

// Whether order i is done. Here and in `order_of` a field is read in the book's bytes, by the layout:
// `load_order` would read a whole record for one of them.
#[tactic(auto, using(store::specs::Laws::Stored::count_most, crate::specs::Laws::Side::read))]
pub(crate) fn done_at(book: &Kept<'_>, i: usize) -> bool
    requires { i < order_count book.now.bytes.now }
    ensures { result ≡ done_at (book_of book.now.bytes.now) i }
{
    order::is_done(book.bytes[layout::ORDERS + i * layout::ORDER + layout::STATUS])
}

// The order of request j.
#[tactic(auto, using(words::specs::Laws::Windows::window_16, store::specs::Laws::Stored::count_most, crate::specs::Laws::Side::read))]
pub(crate) fn order_of(book: &Kept<'_>, j: usize) -> usize
    requires { j < request_count book.now.bytes.now }
    ensures { (result ≡ (request_in (book_of book.now.bytes.now) j).order) × (result < order_count book.now.bytes.now) }
{
    let at = layout::REQUESTS + j * layout::REQUEST + layout::REQUEST_ORDER;
    usize::from(get16(&book.bytes[at..at + 2]))
}

// Whether order i is of the side.
#[tactic(auto, using(crate::specs::Laws::Side::sides))]
fn has_order(book: &Kept<'_>, done: bool, i: usize) -> bool
    requires { i < order_count book.now.bytes.now }
    ensures { result ≡ side done (book_of book.now.bytes.now) i }
{
    done_at(book, i) == done
}

// Whether request j is of one of its orders.
#[tactic(auto)]
fn has_request(book: &Kept<'_>, done: bool, j: usize) -> bool
    requires { j < request_count book.now.bytes.now }
    ensures { result ≡ of_passing (side done (book_of book.now.bytes.now)) (book_of book.now.bytes.now) j }
{
    let i = order_of(book, j);
    has_order(book, done, i)
}

// How many orders of the side stand before each order.
#[tactic(auto, using(store::specs::Laws::Stored::count_most, crate::specs::Laws::Side::ranking))]
fn order_ranks(book: &Kept<'_>, done: bool) -> [u16; layout::MOST_ORDERS]
    ensures { Ranks (side done (book_of book.now.bytes.now)) (order_count book.now.bytes.now) result }
{
    let mut ranks = [0u16; layout::MOST_ORDERS];
    let mut count = 0u16;
    for i in 0..store::order_count(book.bytes) {
        ranks[i] = count;
        if has_order(book, done, i) {
            count += 1;
        }
    }
    ranks
}

// How many requests of its orders stand before each request.
#[tactic(auto, using(store::specs::Laws::Stored::count_most, crate::specs::Laws::Side::ranking))]
fn request_ranks(book: &Kept<'_>, done: bool) -> [u16; layout::MOST_REQUESTS]
    ensures { Ranks (of_passing (side done (book_of book.now.bytes.now)) (book_of book.now.bytes.now)) (request_count book.now.bytes.now) result }
{
    let mut ranks = [0u16; layout::MOST_REQUESTS];
    let mut count = 0u16;
    for j in 0..store::request_count(book.bytes) {
        ranks[j] = count;
        if has_request(book, done, j) {
            count += 1;
        }
    }
    ranks
}

// The book, which side of it, and how many of the side stand before each order and each request.
#[derive(Drop)]
pub(crate) struct Side<'a> {
    pub book: Kept<'a>,
    pub done: bool,
    pub orders: [u16; layout::MOST_ORDERS],
    pub requests: [u16; layout::MOST_REQUESTS],
    pub ghost ranked: { Ranked done book.bytes.now orders requests },
}

impl<'a> Side<'a> {
    pub(crate) fn new(book: &Kept<'a>, done: bool) -> Side<'a>
        ensures { (result.book.bytes.now ≡ book.now.bytes.now) × (result.done ≡ done) }
    {
        let orders = order_ranks(book, done);
        let requests = request_ranks(book, done);
        Side {
            book: *book,
            done,
            orders,
            requests,
        }
    }
}

impl Side<'_> {
    // Whether order i goes along.
    pub(crate) fn has_order(&self, i: usize) -> bool
        requires { i < order_count self.now.book.bytes.now }
        ensures { result ≡ side self.now.done (book_of self.now.book.bytes.now) i }
    {
        has_order(&self.book, self.done, i)
    }

    // Whether request j does.
    pub(crate) fn has_request(&self, j: usize) -> bool
        requires { j < request_count self.now.book.bytes.now }
        ensures { result ≡ of_passing (side self.now.done (book_of self.now.book.bytes.now)) (book_of self.now.book.bytes.now) j }
    {
        has_request(&self.book, self.done, j)
    }

    // A link behind so many requests. It is as the book holds it, 0 for none: so it is no Option.
    #[tactic(auto, using(store::specs::Laws::Stored::count_most, crate::specs::Laws::Side::linking))]
    pub(crate) fn link(&self, behind: u16, link: u16) -> u16
        requires { (behind ≤ most_requests) × (link ≤ request_count self.now.book.bytes.now) }
        ensures { result ≡ moved_link (of_passing (side self.now.done (book_of self.now.book.bytes.now)) (book_of self.now.book.bytes.now)) behind link }
    {
        if link == 0 {
            return 0;
        }
        behind + self.requests[usize::from(link) - 1] + 1
    }
}
