// The chain of a client's ClOrdID back to the first, written into a lent buffer: 34 bytes for each
// request, from the one of that name on to the one that its OrigClOrdID names. What a chain and an entry
// are stands in specs/Chain.antt, and what holds of them in specs/Promise.antt. Rests on rules, store and
// counted.
#![tactic(auto)]

ghost use Rattle.std.specs.Prelude.{◌≡◌, ◌+◌, ◌*◌, ◌≤◌, ◌<◌, length};
ghost use Rattle.prelude.specs.Span.{splice};
ghost use Rattle.prelude.specs.Texts.{text_of};
ghost use Rattle.store.specs.Book.{book_of, request_count};
ghost use Rattle.prelude.specs.Counted.{counted_of};
ghost use Rattle.chain.specs.Chain.{called_by, entry_size, entries_of, chained, chain_call};
ghost use Rattle.chain.specs.Laws.Entries.{stored_entry};
ghost use Rattle.chain.specs.Laws.Walk.{earlier, walk};

use prelude::{Refusal, Text};
use rules::Kept;
use store::layout;

// An entry: a length, a name of 32 bytes, an outcome.
const ENTRY: usize = 34;

const NAME: usize = 32;

// A name as a text. Its length is cast by `as`, which is proved to lose nothing.
#[tactic(auto, unfolding(prelude::specs::Texts::text_of))]
fn text_of(name: &[u8]) -> Text
    requires { length name.now ≤ 32 }
    ensures { result ≡ text_of name.now }
{
    Text {
        bytes: words::padded(name),
        len: name.len() as u8,
    }
}

// The request in which that client used that name.
#[tactic(auto, using(crate::specs::Laws::Walk::named), unfolding(crate::specs::Chain::called_by))]
fn called_by(book: &[u8], client: u16, name: &[u8]) -> Option<usize>
    ensures { result ≡ called_by (book_of book.now) client name.now }
{
    if name.is_empty() || name.len() > NAME {
        return None;
    }
    store::find_clordid(book, client, text_of(name))
}

// A request in use, of a book that keeps its rules.
#[derive(Clone, Copy)]
struct Used<'a> {
    book: Kept<'a>,
    k: usize,
    ghost used: { k < request_count book.bytes.now },
}

impl Used<'_> {
    // The request that its OrigClOrdID names. Here and in `put_entry` fields are read in the book's bytes, by the
    // layout: `load_request` would read a whole record for two of them.
    #[tactic(auto, using(store::specs::Laws::Stored::count_most, store::specs::Laws::Beside::load_origin_in, crate::specs::Laws::Walk::linked))]
    fn earlier(&self) -> Option<usize>
        ensures { result ≡ earlier self.now.book.bytes.now self.now.k }
    {
        let book = self.book.bytes;
        let at = layout::REQUESTS + self.k * layout::REQUEST + layout::REQUEST_ORIGCLORDID;
        if book[at + NAME] == 0 {
            return None;
        }
        let link = usize::from(store::load_origin(book, self.k));
        Some(link - 1)
    }

    // Its entry as it is stored, from index at.
    #[tactic(auto, using(store::specs::Laws::Stored::count_most, crate::specs::Laws::Walk::kept_long))]
    fn put_entry(&self, list: &mut [u8], at: usize)
        requires { at + entry_size ≤ length list.old }
        ensures { list.new ≡ splice list.old at (stored_entry self.now.book.bytes.now self.now.k) }
    {
        let book = self.book.bytes;
        let from = layout::REQUESTS + self.k * layout::REQUEST;
        let name = from + layout::REQUEST_CLORDID;
        list[at] = book[from + layout::REQUEST_CLORDID_LEN];
        list[at + 1..at + 1 + NAME].copy_from_slice(&book[name..name + NAME]);
        list[at + 1 + NAME] = book[from + layout::REQUEST_OUTCOME];
    }
}

// How many entries the chain of request k has. Each step goes to a request numbered lower. The walk is a recursion
// here and in `put`, as docs/SCOPE.md asks: `successors` says nothing of how long it runs, so a `count` of it is not
// proved. The number comes by itself, and not in a `Used` that is lent: the compiler then makes a loop of it, which takes no
// more stack for a longer chain.
#[tactic(auto, using(store::specs::Laws::Stored::count_most, crate::specs::Laws::Walk::walked))]
fn count(book: &Kept<'_>, k: usize) -> usize
    requires { k < request_count book.now.bytes.now }
    ensures { result ≡ length (walk book.now.bytes.now k) }
{
    match (Used { book: *book, k }).earlier() {
        Some(next) => {
            let rest = count(book, next);
            rest + 1
        }
        None => 1,
    }
}

// The entries of the chain of request k, from index at.
#[tactic(auto, using(crate::specs::Laws::Walk::step_back, crate::specs::Laws::Entries::put))]
fn put(book: &Kept<'_>, k: usize, list: &mut [u8], at: usize)
    requires used { k < request_count book.now.bytes.now }
    requires room { at + entry_size * length (walk book.now.bytes.now k) ≤ length list.old }
    ensures { list.new ≡ splice list.old at (entries_of book.now.bytes.now (walk book.now.bytes.now k)) }
{
    let used = Used { book: *book, k };
    used.put_entry(list, at);
    if let Some(next) = used.earlier() {
        put(book, next, list, at + ENTRY);
    }
}

// Writes the chain of a client's ClOrdID to the front of `list`; the number is the count of entries, 0
// for a name that the client never used. Refuses a book that does not keep its rules, then a `list` that
// cannot hold the whole chain.
#[tactic(auto, using(store::specs::Laws::Stored::count_most, crate::specs::Laws::Walk::walk_most, crate::specs::Laws::Walk::chain_walk, crate::specs::Laws::Call::calls))]
pub fn chain(book: &[u8], client: u16, name: &[u8], list: &mut [u8]) -> Result<u32, Refusal>
    ensures { chained (counted_of result) list.new ≡ chain_call book.now client name.now list.old }
{
    let book = Kept::new(book)?;
    let Some(k) = called_by(book.bytes, client, name) else {
        return Ok(0);
    };
    let n = count(&book, k);
    if list.len() < ENTRY * n {
        return Err(Refusal::ShortList);
    }
    put(&book, k, list, 0);
    // The cast by `as` is proved to lose nothing.
    Ok(n as u32)
}
