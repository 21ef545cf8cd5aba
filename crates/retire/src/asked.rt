// What is asked before a retirement: whether both books keep their rules, whether no name and no ClOrdID of a
// done order stands in the archive, and whether it has room. Rests on rules, store and side.
ghost use Rattle.std.specs.Prelude.{◌≡◌, ◌<◌, IfOk, IfErr};
ghost use Rattle.prelude.specs.Below.{all_below};
ghost use Rattle.prelude.specs.Refusal.{number_of};
ghost use Rattle.prelude.specs.Counted.{refusing};
ghost use Rattle.store.specs.Book.{book_of, order_count, request_count};
ghost use Rattle.parts.specs.Parts.{orders_gone, requests_gone};
ghost use Rattle.retire.specs.Retire.{name_free, clordid_free, all_free, has_room, retired, retire_of};
ghost use Rattle.retire.specs.Laws.Asked.{Asked};

use crate::side::{done_at, order_of};
use prelude::Refusal;
use rules::Kept;
use store::layout;

// Whether order i stays, or its name does not stand in the archive.
fn name_free(book: &Kept<'_>, archive: &[u8], i: usize) -> bool
    requires { i < order_count book.now.bytes.now }
    ensures { result ≡ name_free (book_of archive.now) (book_of book.now.bytes.now) i }
{
    if !done_at(book, i) {
        return true;
    }
    let o = store::load_order(book.bytes, i);
    store::find_name(archive, o.names.name).is_none()
}

// Whether request j stays, or its client has not used its ClOrdID in the archive.
fn clordid_free(book: &Kept<'_>, archive: &[u8], j: usize) -> bool
    requires { j < request_count book.now.bytes.now }
    ensures { result ≡ clordid_free (book_of archive.now) (book_of book.now.bytes.now) j }
{
    let i = order_of(book, j);
    if !done_at(book, i) {
        return true;
    }
    let o = store::load_order(book.bytes, i);
    let q = store::load_request(book.bytes, j);
    store::find_clordid(archive, o.client, q.clordid).is_none()
}

// Whether all orders are free so.
fn names_free(book: &Kept<'_>, archive: &[u8]) -> bool
    ensures { result ≡ all_below (name_free (book_of archive.now) (book_of book.now.bytes.now)) (order_count book.now.bytes.now) }
{
    (0..store::order_count(book.bytes)).all(|i| name_free(book, archive, i))
}

// Whether all requests are.
fn clordids_free(book: &Kept<'_>, archive: &[u8]) -> bool
    ensures { result ≡ all_below (clordid_free (book_of archive.now) (book_of book.now.bytes.now)) (request_count book.now.bytes.now) }
{
    (0..store::request_count(book.bytes)).all(|j| clordid_free(book, archive, j))
}

// Whether both.
#[tactic(auto, using(store::specs::Laws::Stored::length_orders, store::specs::Laws::Stored::length_requests), unfolding(crate::specs::Retire::all_free))]
fn all_free(book: &Kept<'_>, archive: &[u8]) -> bool
    ensures { result ≡ all_free (book_of archive.now) (book_of book.now.bytes.now) }
{
    names_free(book, archive) && clordids_free(book, archive)
}

// How many orders are done.
#[tactic(auto, using(store::specs::Laws::Stored::count_most, crate::specs::Laws::Asked::counting_gone))]
fn orders_gone(book: &Kept<'_>) -> usize
    ensures { result ≡ orders_gone (book_of book.now.bytes.now) }
{
    let mut count = 0usize;
    for i in 0..store::order_count(book.bytes) {
        if done_at(book, i) {
            count += 1;
        }
    }
    count
}

// How many requests are of done orders.
#[tactic(auto, using(store::specs::Laws::Stored::count_most, crate::specs::Laws::Asked::counting_gone))]
fn requests_gone(book: &Kept<'_>) -> usize
    ensures { result ≡ requests_gone (book_of book.now.bytes.now) }
{
    let mut count = 0usize;
    for j in 0..store::request_count(book.bytes) {
        if done_at(book, order_of(book, j)) {
            count += 1;
        }
    }
    count
}

// Whether the archive has room for so many orders, and for their requests.
#[tactic(auto, using(store::specs::Laws::Stored::count_most, store::specs::Laws::Stored::length_orders, store::specs::Laws::Stored::length_requests, crate::specs::Laws::Asked::gone_few), unfolding(crate::specs::Retire::has_room))]
fn has_room(book: &Kept<'_>, archive: &[u8], gone: usize) -> bool
    requires { gone ≡ orders_gone (book_of book.now.bytes.now) }
    ensures { result ≡ has_room (book_of archive.now) (book_of book.now.bytes.now) }
{
    store::order_count(archive) + gone <= layout::MOST_ORDERS
        && store::request_count(archive) + requests_gone(book) <= layout::MOST_REQUESTS
}

// All questions; gives how many orders are done.
#[tactic(auto, using(crate::specs::Laws::Asked::asking))]
pub(crate) fn ask(book: &[u8], archive: &[u8]) -> Result<u32, Refusal>
    ensures ok { IfOk result (λ gone. Asked book.now archive.now gone) }
    ensures err { IfErr result (λ refusal. retired (refusing (number_of refusal)) book.now archive.now ≡ retire_of book.now archive.now) }
{
    let kept = Kept::new(book)?;
    if !rules::keeps(archive) {
        return Err(Refusal::BadArchive);
    }
    if !all_free(&kept, archive) {
        return Err(Refusal::InArchive);
    }
    let gone = orders_gone(&kept);
    if !has_room(&kept, archive, gone) {
        return Err(Refusal::FullArchive);
    }
    // At most 64: by `as`, which is proved to lose nothing.
    Ok(gone as u32)
}
