// A book without rows: its setting stays, and all that stands behind the tables. Rests on store's layout.
ghost use Rattle.std.specs.Prelude.{◌≡◌, ◌+◌, ◌≤◌, length};
ghost use Rattle.prelude.specs.Bytes.{zeros};
ghost use Rattle.prelude.specs.Span.{splice};
ghost use Rattle.store.specs.Layout.{book_size};
ghost use Rattle.retire.specs.Retire.{emptied};

use store::layout;

// Clears n bytes from index at.
#[tactic(auto, using(prelude::specs::Laws::Span::part_splice))]
fn clear(s: &mut [u8], at: usize, n: usize)
    requires { at + n ≤ length s.old }
    ensures { s.new ≡ splice s.old at (zeros n) }
{
    s[at..at + n].fill(0);
}

// Clears the counts and the rows that are in use.
#[tactic(auto, using(store::specs::Laws::Stored::count_most), unfolding(crate::specs::Retire::emptied))]
pub(crate) fn empty(book: &mut [u8])
    requires { length book.old ≡ book_size }
    ensures { book.new ≡ emptied book.old }
{
    let orders = store::order_count(book) * layout::ORDER;
    let requests = store::request_count(book) * layout::REQUEST;
    clear(book, layout::ORDER_COUNT, 4);
    clear(book, layout::ORDERS, orders);
    clear(book, layout::REQUESTS, requests);
}
