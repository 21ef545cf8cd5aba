// The places of a buffer: their names compared, the place of a mark found, and a mark written or read.
// Places go by their index, as in specs/Marks.antt, and that place i is there stands in the contracts: a mark
// is written by the index, since `as_chunks_mut` says nothing of what the slice ends as, and looking through the
// places by `as_chunks` would be a second form beside it. Rests on rules and store's layout.
ghost use Rattle.std.specs.Prelude.{◌≡◌, ◌&&◌, ◌++◌, ◌+◌, ◌≤◌, ◌<◌, length};
ghost use Rattle.prelude.specs.Below.{first_below};
ghost use Rattle.prelude.specs.Span.{splice};
ghost use Rattle.store.specs.Layout.{book_size};
ghost use Rattle.rules.specs.Keeps.{keeps_of};
ghost use Rattle.marks.specs.Marks.{place_base, place_count, image_at, name_bytes, has_name, set_place, return_place};

use crate::name::{NAME, Name};
use rules::Kept;
use store::layout;

// A place: the name, then the image.
const PLACE: usize = NAME + layout::BOOK;

// Whether place i has these bytes for its name.
#[tactic(auto, using(prelude::specs::Laws::Span::part_span, crate::proofs::Laws::Places::name_same), unfolding(crate::specs::Marks::name_at))]
fn has_name(places: &[u8], i: usize, bytes: &[u8; NAME]) -> bool
    requires { i < place_count places.now }
    ensures { result ≡ has_name places.now bytes.now i }
{
    let at = i * PLACE;
    &places[at..at + NAME] == bytes.as_slice()
}

// The first place that has these bytes for its name.
fn find(places: &[u8], bytes: &[u8; NAME]) -> Option<usize>
    ensures { result ≡ first_below (has_name places.now bytes.now) (place_count places.now) }
{
    (0..places.len() / PLACE).find(|i| has_name(places, *i, bytes))
}

// The place to which a mark of that name goes.
pub(crate) fn set_place(places: &[u8], name: &Name<'_>) -> Option<usize>
    ensures { result ≡ set_place places.now name.now.letters.now }
{
    find(places, &name.bytes()).or_else(|| find(places, &[0; NAME]))
}

// Whether place i has these bytes for its name, and an image that keeps the book's rules.
#[tactic(auto, using(prelude::specs::Laws::Span::part_span), unfolding(crate::specs::Marks::image_at))]
fn is_mark(places: &[u8], i: usize, bytes: &[u8; NAME]) -> bool
    requires { i < place_count places.now }
    ensures { result ≡ has_name places.now bytes.now i && keeps_of (image_at places.now i) }
{
    let at = i * PLACE + NAME;
    has_name(places, i, bytes) && rules::keeps(&places[at..at + layout::BOOK])
}

// The place that a return to that name takes.
pub(crate) fn return_place(places: &[u8], name: &Name<'_>) -> Option<usize>
    ensures { result ≡ return_place places.now name.now.letters.now }
{
    let bytes = name.bytes();
    (0..places.len() / PLACE).find(|i| is_mark(places, *i, &bytes))
}

// Writes bytes at an index, one by one: for `copy_from_slice` of two slices the compiler calls `memmove`, which the
// archive would ask of its host.
#[tactic(auto, using(prelude::specs::Laws::Span::copy_all))]
fn put(s: &mut [u8], at: usize, bytes: &[u8])
    requires { at + length bytes.now ≤ length s.old }
    ensures { s.new ≡ splice s.old at bytes.now }
{
    for (i, byte) in bytes.iter().enumerate() {
        s[at + i] = *byte;
    }
}

// Name and book over all of place i.
#[tactic(auto, using(crate::proofs::Laws::Stands::book_long))]
pub(crate) fn put_place(places: &mut [u8], i: usize, name: &Name<'_>, book: &Kept<'_>)
    requires { i < place_count places.old }
    ensures { places.new ≡ splice places.old (place_base i) (name_bytes name.now.letters.now ++ book.now.bytes.now) }
{
    let at = i * PLACE;
    put(places, at, &name.bytes());
    put(places, at + NAME, book.bytes);
}

// The image of place i over all of the book.
#[tactic(auto, using(prelude::specs::Laws::Span::part_span, prelude::specs::Laws::Span::splice_whole), unfolding(crate::specs::Marks::image_at))]
pub(crate) fn take_image(book: &mut [u8], places: &[u8], i: usize)
    requires { (i < place_count places.now) × (length book.old ≡ book_size) }
    ensures { book.new ≡ image_at places.now i }
{
    let at = i * PLACE + NAME;
    put(book, 0, &places[at..at + layout::BOOK]);
}
