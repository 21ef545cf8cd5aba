// Names are distinct, and ClOrdIDs within a client, in one pass over a local map, a bit for a cell:
// a thing whose cell is not noted is new, and another is compared with the earlier things of its cell
// alone. That a thing is placed stands in the contracts, since a type for it would be made at each turn of a
// loop; book, cells, thing and cell go through two functions, which a struct would be no shorter than.
// Rests on cells and bits.
ghost use Rattle.std.specs.Prelude.{◌≡◌, ℕ, ◌+◌, ◌<◌, ◌≤◌, Bool, true, false, slice_index};
ghost use Rattle.prelude.specs.Below.{all_below};
ghost use Rattle.prelude.specs.Texts.{text_at};
ghost use Rattle.store.specs.Layout.{book_size, most_requests};
ghost use Rattle.rules.specs.Laws.Things.{placed, position_of, client_in, lone_at, cell_of, same_with, clear_at};

use crate::cells::{cell_at, same_at, same_word, u16_at};
use store::layout::{self, Bytes};

// The words of the map: 32 cells in each, of 4,021.
const WORDS: usize = 128;

// The things that are to be distinct: each has a text and a client, and may be lone, the same as no other.
pub(crate) trait Things {
    // Whether they are the requests, else the orders.
    ghost keyed: { Bool };

    // Where the text of thing i stands.
    fn position(i: usize) -> usize
        requires { i < most_requests }
        ensures { result ≡ position_of keyed i };

    fn client(book: &Bytes, i: usize) -> u16
        requires { (i < most_requests) × (placed book.now keyed i ≡ true) }
        ensures { result ≡ client_in book.now keyed i };

    fn is_lone(book: &Bytes, i: usize) -> bool
        requires { i < most_requests }
        ensures { result ≡ lone_at book.now keyed i };
}

// The orders' names, which no client goes with.
pub(crate) struct Names;

impl Things for Names {
    ghost keyed = { false };

    #[tactic(auto, using(prelude::specs::Laws::Cases::if_true, prelude::specs::Laws::Cases::if_false), unfolding(crate::specs::Laws::Things::position_of))]
    fn position(i: usize) -> usize {
        layout::ORDERS + i * layout::ORDER + layout::NAME
    }

    #[tactic(auto, using(prelude::specs::Laws::Cases::if_true, prelude::specs::Laws::Cases::if_false), unfolding(crate::specs::Laws::Things::client_in))]
    fn client(_book: &Bytes, _i: usize) -> u16 {
        0
    }

    #[tactic(auto, unfolding(crate::specs::Laws::Things::lone_at))]
    fn is_lone(_book: &Bytes, _i: usize) -> bool {
        false
    }
}

// The requests' ClOrdIDs, each with the client of its order; a request without one is lone.
pub(crate) struct Keys;

impl Things for Keys {
    ghost keyed = { true };

    #[tactic(auto, using(prelude::specs::Laws::Cases::if_true, prelude::specs::Laws::Cases::if_false), unfolding(crate::specs::Laws::Things::position_of))]
    fn position(i: usize) -> usize {
        layout::REQUESTS + i * layout::REQUEST + layout::REQUEST_CLORDID
    }

    fn client(book: &Bytes, i: usize) -> u16 {
        let at = layout::REQUESTS + i * layout::REQUEST + layout::REQUEST_ORDER;
        let o = usize::from(u16_at(book, at));
        u16_at(book, layout::ORDERS + o * layout::ORDER + layout::CLIENT)
    }

    #[tactic(auto, using(store::specs::Laws::Fields::request_clordid_len), unfolding(crate::specs::Laws::Things::lone_at))]
    fn is_lone(book: &Bytes, i: usize) -> bool {
        book[layout::REQUESTS + i * layout::REQUEST + layout::REQUEST_CLORDID_LEN] == 0
    }
}

// The cell of a thing.
#[tactic(auto, using(crate::specs::Laws::Things::placed_most, crate::specs::Laws::Things::position_fits, crate::specs::Laws::Things::text_in_lem), unfolding(crate::specs::Laws::Things::cell_of))]
fn cell_of<T: Things>(book: &Bytes, i: usize) -> u16
    requires { placed book.now T.keyed i ≡ true }
    ensures { (result ≡ cell_of book.now T.keyed i) × (result < 4021) }
{
    cell_at(book, T::position(i), T::client(book, i))
}

// Whether thing j has this client, and the text at x; most differ in the first word.
#[tactic(auto, using(crate::specs::Laws::Places::other_word, crate::specs::Laws::Things::placed_most, crate::specs::Laws::Things::position_fits, crate::specs::Laws::Things::text_in_lem), unfolding(crate::specs::Laws::Things::same_with))]
fn same<T: Things>(book: &Bytes, client: u16, x: usize, j: usize) -> bool
    requires { (x + 33 ≤ book_size) × (placed book.now T.keyed j ≡ true) }
    ensures { result ≡ same_with book.now T.keyed client (text_at book.now x) j }
{
    let y = T::position(j);
    same_word(book, x, y) && same_at(book, x, y) && client == T::client(book, j)
}

// Whether thing i, which is not lone, differs from each before it. Only those in its cell are compared.
fn clear_in<T: Things>(book: &Bytes, cells: &[u16; layout::MOST_REQUESTS], i: usize, h: u16) -> bool
    requires { (i < most_requests) × (all_below (placed book.now T.keyed) (i + 1) ≡ true) × (h ≡ cell_of book.now T.keyed i) × ((j : ℕ) → j < i → slice_index cells.now j ≡ cell_of book.now T.keyed j) × (lone_at book.now T.keyed i ≡ false) }
    ensures { result ≡ clear_at book.now T.keyed i }
{
    let client = T::client(book, i);
    let at = T::position(i);
    (0..i).all(move |j| cells[j] != h || !same::<T>(book, client, at, j))
}

// Whether thing i differs from each before it; if its cell is not noted, it does.
#[tactic(auto, using(prelude::specs::Laws::Cases::clash, crate::specs::Laws::Things::clear_fresh, crate::specs::Laws::Things::clear_lone))]
fn clear_of<T: Things>(
    book: &Bytes,
    cells: &[u16; layout::MOST_REQUESTS],
    i: usize,
    h: u16,
    noted: bool,
) -> bool
    requires { (i < most_requests) × (all_below (placed book.now T.keyed) (i + 1) ≡ true) × (h ≡ cell_of book.now T.keyed i) × ((j : ℕ) → j < i → slice_index cells.now j ≡ cell_of book.now T.keyed j) × ((j : ℕ) → j < i → cell_of book.now T.keyed j ≡ h → noted ≡ true) }
    ensures { result ≡ clear_at book.now T.keyed i }
{
    !noted || T::is_lone(book, i) || clear_in::<T>(book, cells, i, h)
}

// Whether the first n things are distinct.
pub(crate) fn distinct<T: Things>(book: &Bytes, n: usize) -> bool
    requires { (n ≤ most_requests) × (all_below (placed book.now T.keyed) n ≡ true) }
    ensures { result ≡ all_below (clear_at book.now T.keyed) n }
{
    // Not of one length: a bit for each cell, and the cell of each thing.
    let mut seen = [0u32; WORDS];
    let mut cells = [0u16; layout::MOST_REQUESTS];
    for i in 0..n {
        let h = cell_of::<T>(book, i);
        let k = usize::from(h / 32);
        let b = u32::from(h % 32);
        if !clear_of::<T>(book, &cells, i, h, bits::has(seen[k], b)) {
            return false;
        }
        seen[k] = bits::with_bit(seen[k], b);
        cells[i] = h;
    }
    true
}
