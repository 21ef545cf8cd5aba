// The orders of one client in one symbol, read in place: whether there is one among the first, and what
// they bought and sold. Rests on format's codes, store's layout, words and text.
ghost use Rattle.std.specs.Prelude.{◌≡◌, true, ◌+◌, ◌≤◌, ◌<◌};
ghost use Rattle.store.specs.Book.{book_of, order_in, order_count};
ghost use Rattle.net.specs.Net.{of_pair, unseen, netted, twos, filled_in};
ghost use Rattle.net.specs.Laws.Pair.{InUse, IsSum};

use crate::Amounts;
use format::codes;
use prelude::Text;
use rules::Kept;
use store::layout;
use words::{get16, get64};

impl Amounts {
    // Bought less sold, in two's complement.
    pub(crate) fn net(self) -> u64
        ensures { result ≡ twos (netted self) }
    {
        self.bought.wrapping_sub(self.sold)
    }
}

// A client and a symbol.
#[derive(Clone, Copy)]
pub(crate) struct Pair {
    pub client: u16,
    pub symbol: Text,
}

impl Pair {
    // Whether order k is that client's in that symbol. Both are read in the book's bytes, by the layout:
    // `load_order` would read a whole record for two of its fields, for each pair of orders.
    #[tactic(auto, using(store::specs::Laws::Stored::count_most, crate::specs::Laws::Pair::used_long))]
    fn has(&self, book: &[u8], k: usize) -> bool
        requires { k < order_count book.now }
        ensures { result ≡ of_pair self.now.client self.now.symbol (order_in (book_of book.now) k) }
    {
        let base = layout::ORDERS + k * layout::ORDER;
        let at = base + layout::CLIENT;
        get16(&book[at..at + 2]) == self.client
            && text::text_is(book, base + layout::SYMBOL, self.symbol)
    }

    // Whether none of the first n orders is that client's in that symbol.
    pub(crate) fn unseen(&self, book: &[u8], n: usize) -> bool
        requires { n ≤ order_count book.now }
        ensures { result ≡ unseen (book_of book.now) self.now.client self.now.symbol n }
    {
        (0..n).all(|k| !self.has(book, k))
    }

    // The amounts with what order k bought or sold of it: two fields more, read as above.
    fn with(&self, book: &Kept<'_>, k: usize, a: Amounts) -> Amounts
        requires { InUse book.now.bytes.now k × IsSum (book_of book.now.bytes.now) self.now.client self.now.symbol k a }
        ensures { IsSum (book_of book.now.bytes.now) self.now.client self.now.symbol (k + 1) result }
    {
        if !self.has(book.bytes, k) {
            return a;
        }
        let base = layout::ORDERS + k * layout::ORDER;
        let at = base + layout::CUMQTY;
        let filled = get64(&book.bytes[at..at + 8]);
        if book.bytes[base + layout::SIDE] == codes::BUY {
            Amounts {
                bought: a.bought + filled,
                ..a
            }
        } else {
            Amounts {
                sold: a.sold + filled,
                ..a
            }
        }
    }

    // What all orders bought and sold of it, if none of the first n did.
    pub(crate) fn amounts(&self, book: &Kept<'_>, n: usize) -> Amounts
        requires { (n ≤ order_count book.now.bytes.now) × (unseen (book_of book.now.bytes.now) self.now.client self.now.symbol n ≡ true) }
        ensures { result ≡ filled_in (book_of book.now.bytes.now) self.now.client self.now.symbol }
    {
        let mut a = Amounts::default();
        for k in n..store::order_count(book.bytes) {
            a = self.with(book, k, a);
        }
        a
    }
}
