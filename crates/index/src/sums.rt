// Each client's leaves summed up over its orders, and compared with the word of its first order. That
// order i is in the table stands in two contracts: a type for it would be made at each turn of a loop.
// Rests on store, words and orders.
ghost use Rattle.std.specs.Prelude.{◌≡◌, ◌+◌, ◌<◌, true};
ghost use Rattle.store.specs.Layout.{most_orders};
ghost use Rattle.store.specs.Book.{book_of, order_at, order_count};
ghost use Rattle.machine.specs.Orders.{leaves_qty};
ghost use Rattle.machine.specs.Exchange.{open_of};
ghost use Rattle.machine.specs.Rules.{rules};
ghost use Rattle.index.specs.Index.{opens_right};
ghost use Rattle.index.specs.Laws.Left.{left_to, right_first};

use orders::order;
use store::layout::{self, Bytes};
use words::{get16, get64};

// What order i has left, read in the book's bytes.
#[tactic(auto, using(words::specs::Laws::Windows::window_64, store::specs::Laws::Fields::terms_qty, store::specs::Laws::Fields::state_cumqty, store::specs::Laws::Fields::state_status), unfolding(machine::specs::Orders::leaves_qty))]
pub(crate) fn leaves_at(book: &Bytes, i: usize) -> u64
    requires { i < most_orders }
    ensures { result ≡ leaves_qty (order_at book.now i) }
{
    let at = layout::ORDERS + i * layout::ORDER;
    let qty = get64(&book[at + layout::QTY..at + layout::QTY + 8]);
    let cumqty = get64(&book[at + layout::CUMQTY..at + layout::CUMQTY + 8]);
    order::leaves_of(book[at + layout::STATUS], qty, cumqty)
}

// The client of order i, read in the book's bytes.
#[tactic(auto, using(words::specs::Laws::Windows::window_16, store::specs::Laws::Fields::order_client))]
fn client_of(book: &Bytes, i: usize) -> u16
    requires { i < most_orders }
    ensures { result ≡ (order_at book.now i).client }
{
    let at = layout::ORDERS + i * layout::ORDER + layout::CLIENT;
    get16(&book[at..at + 2])
}

// A book that keeps machine's rules, so that no sum is too large.
#[derive(Clone, Copy)]
pub struct Ruled<'a> {
    pub bytes: &'a Bytes,
    pub ghost ruled: { rules (book_of bytes.now) ≡ true },
}

impl Ruled<'_> {
    // What the orders of a client from order i on have left together: all of them, if order i is its first. It is a
    // loop, since `sum` of a chain asks beforehand that all of it fits, which here each step shows.
    #[tactic(auto, using(store::specs::Laws::Stored::count_most, crate::specs::Laws::Left::summed))]
    fn leaves_from(&self, i: usize, client: u16) -> u64
        requires { i < order_count self.now.bytes.now }
        ensures { result + left_to self.now.bytes.now client i ≡ open_of (book_of self.now.bytes.now) client }
    {
        let book = self.bytes;
        let mut sum = 0;
        for k in i..store::order_count(book) {
            if client_of(book, k) == client {
                sum += leaves_at(book, k);
            }
        }
        sum
    }

    // Whether order i is not its client's first, or what is stored there is the client's open quantity. A number that
    // is what the client has left from order i on is right either way, and is mostly a first order's: so it is asked
    // before the first order is looked for.
    #[tactic(auto, using(store::specs::Laws::Stored::count_most, crate::specs::Laws::Left::asked))]
    fn is_right(&self, i: usize) -> bool
        requires { i < order_count self.now.bytes.now }
        ensures { result ≡ right_first self.now.bytes.now i }
    {
        let book = self.bytes;
        let client = client_of(book, i);
        let stored = store::load_open(book, i);
        if stored != 0 && stored == self.leaves_from(i, client) {
            return true;
        }
        match store::find_client(book, client) {
            Some(first) if first == i => stored == self.leaves_from(i, client),
            _ => true,
        }
    }

    // Whether what is stored for each client is its open quantity.
    pub fn opens_right(&self) -> bool
        ensures { result ≡ opens_right self.now.bytes.now }
    {
        let book = self.bytes;
        (0..store::order_count(book)).all(|i| self.is_right(i))
    }
}
