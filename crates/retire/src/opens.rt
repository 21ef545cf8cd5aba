// The open-quantity words of a book: each client's open quantity in the word of its first order, zero where a
// word means nothing. Rests on store and orders.
ghost use Rattle.std.specs.Prelude.{◌≡◌};
ghost use Rattle.store.specs.Layout.{most_orders};
ghost use Rattle.store.specs.Book.{order_count};
ghost use Rattle.retire.specs.Retire.{opens_settled};
ghost use Rattle.retire.specs.Laws.Opens.{Words};

use orders::order;
use store::layout;

// The word of each order: what comes together at its client's first. Sums wrap around, so that nothing is asked
// of the book; in one that keeps its rules none is too large.
#[tactic(auto, using(store::specs::Laws::Stored::count_most, crate::specs::Laws::Opens::summing))]
fn open_words(book: &[u8]) -> [u64; layout::MOST_ORDERS]
    ensures { Words book.now (order_count book.now) result }
{
    let mut words = [0u64; layout::MOST_ORDERS];
    for k in 0..store::order_count(book) {
        let o = store::load_order(book, k);
        let leaves = order::leaves_of(o.state.status, o.terms.qty, o.state.cumqty);
        if let Some(first) = store::find_client(book, o.client) {
            words[first] = words[first].wrapping_add(leaves);
        }
    }
    words
}

// Writes all words.
#[tactic(auto, using(crate::specs::Laws::Opens::settling))]
pub(crate) fn settle_opens(book: &mut [u8])
    ensures { book.new ≡ opens_settled book.old most_orders }
{
    let words = open_words(book);
    for i in 0..layout::MOST_ORDERS {
        store::store_open(book, i, words[i]);
    }
}
