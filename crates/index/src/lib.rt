// What the book's bytes store only so that it is found quickly, beside what they mean as a book: the link
// of the request that an OrigClOrdID names, and each client's open quantity, in the word of its first
// order. Definitions say when they are right; code decides it of the open quantities (`rules` decides it of
// the links, in its pass over the requests), and gives what an event makes of both, by value. Every public
// function is total and writes nothing. Rests on store, orders and words.
#![tactic(auto)]

ghost use Rattle.std.specs.Prelude.{◌≡◌};
ghost use Rattle.store.specs.Book.{book_of};
ghost use Rattle.machine.specs.Machine.{order_at_link};
ghost use Rattle.machine.specs.Orders.{leaves_qty};
ghost use Rattle.index.specs.Index.{origin_of, opening_of};

use prelude::Text;

mod sums; // each client's leaves summed up

pub use sums::Ruled;

// The index of the order whose word is written, in use or the one that is added, and the quantity that is
// written there.
#[derive(Clone, Copy)]
pub struct Word {
    pub at: usize,
    pub quantity: u64,
}

// The link of the request that an OrigClOrdID of a client names, 0 for none, as the book holds it: so it
// is no Option.
#[tactic(auto, using(prelude::specs::Laws::Cases::maybe_some, prelude::specs::Laws::Cases::maybe_none, crate::specs::Laws::Found::found_few, crate::specs::Laws::Found::origin_none), unfolding(crate::specs::Index::origin_of))]
pub fn origin_of(book: &[u8], client: u16, t: Text) -> u16
    ensures { result ≡ origin_of (book_of book.now) client t }
{
    // Most changes bring no OrigClOrdID, and an empty one is not looked up.
    if t.len == 0 {
        return 0;
    }
    match store::find_clordid(book, client, t) {
        // It is at most 256, so the cast by `as` is proved to lose nothing.
        Some(k) => (k + 1) as u16,
        None => 0,
    }
}

// What the order of a link has left, 0 if there is none. A link is as the book holds it, 0 for none: any two
// bytes may stand there, so it is no Option.
#[tactic(auto, using(store::specs::Laws::Stored::count_most, crate::specs::Laws::Moved::links))]
fn leaves_at_link(book: &[u8], place: u16) -> u64
    ensures { result ≡ leaves_qty (order_at_link (book_of book.now) place) }
{
    let Some(bytes) = book.as_array() else {
        return 0;
    };
    match usize::from(place).checked_sub(1) {
        Some(i) if i < store::order_count(bytes) => sums::leaves_at(bytes, i),
        _ => 0,
    }
}

// Where the client's open quantity stands and what it becomes, once the order of link `place`, which
// is the client's, has these leaves.
#[tactic(auto, using(crate::specs::Laws::Moved::by_found, crate::specs::Laws::Moved::by_none))]
pub fn opening(book: &[u8], place: u16, client: u16, leaves: u64) -> Word
    ensures { result ≡ opening_of book.now place client leaves }
{
    match store::find_client(book, client) {
        Some(at) => {
            let stored = store::load_open(book, at);
            let rest = stored.saturating_sub(leaves_at_link(book, place));
            let quantity = rest.wrapping_add(leaves);
            Word { at, quantity }
        }
        // The client has no order yet, so its first is the one that is added: its index.
        None => Word {
            at: store::order_count(book),
            quantity: leaves,
        },
    }
}
