// Words and texts at an index of a book, by words and parts: two texts compared, the zeros behind
// one, and its cell. A type for an index with 33 bytes behind it would have to be made at each call, and
// taken apart for each byte: the fact stands in the contracts. Rests on words and text.
ghost use Rattle.std.specs.Prelude.{◌≡◌, ◌+◌, ◌<◌, ◌≤◌, ◌==◌, length};
ghost use Rattle.prelude.specs.Below.{all_below};
ghost use Rattle.prelude.specs.Number.{word16, word32, word64};
ghost use Rattle.prelude.specs.Texts.{text_at, same_text, is_text};
ghost use Rattle.store.specs.Layout.{book_size};
ghost use Rattle.machine.specs.Ranges.{text_within};
ghost use Rattle.rules.specs.Laws.Places.{cell, zero_at};

use store::layout::{Bytes, TEXT_LEN};

// How many cells the texts are spread over.
const CELLS: u64 = 4021;

// The numbers of 2, 4 and 8 bytes at an index, each through a window of its own bytes. Here, and not words',
// since a public function asks nothing of its callers, and a total one cost 16 % of an event
// (docs/SPEED.md, step 4).
#[tactic(auto, using(words::specs::Laws::Windows::window_16))]
pub(crate) fn u16_at(s: &[u8], at: usize) -> u16
    requires { at + 2 ≤ length s.now }
    ensures { result ≡ word16 s.now at }
{
    words::get16(&s[at..at + 2])
}

#[tactic(auto, using(words::specs::Laws::Windows::window_32))]
pub(crate) fn u32_at(s: &[u8], at: usize) -> u32
    requires { at + 4 ≤ length s.now }
    ensures { result ≡ word32 s.now at }
{
    words::get32(&s[at..at + 4])
}

#[tactic(auto, using(words::specs::Laws::Windows::window_64))]
pub(crate) fn u64_at(s: &[u8], at: usize) -> u64
    requires { at + 8 ≤ length s.now }
    ensures { result ≡ word64 s.now at }
{
    words::get64(&s[at..at + 8])
}

// Whether a word stands at x and at y.
pub(crate) fn same_word(book: &Bytes, x: usize, y: usize) -> bool
    requires { (x + 8 ≤ book_size) × (y + 8 ≤ book_size) }
    ensures { result ≡ (word64 book.now x == word64 book.now y) }
{
    u64_at(book, x) == u64_at(book, y)
}

// In which bits the words at x and at y differ. Differences are gathered by OR, so that there is one branch for
// many parts (docs/SPEED.md, step 10).
#[tactic(auto, using(crate::specs::Laws::Gathered::xor_clear))]
pub(crate) fn word_diff(book: &Bytes, x: usize, y: usize) -> u64
    requires { (x + 8 ≤ book_size) × (y + 8 ≤ book_size) }
    ensures { (result == 0) ≡ (word64 book.now x == word64 book.now y) }
{
    u64_at(book, x) ^ u64_at(book, y)
}

// Something else than 0 exactly if the texts at x and y differ. text's `text_is` takes a Text, which would be
// copied out of the book for each comparison.
pub(crate) fn text_diff(book: &Bytes, x: usize, y: usize) -> u64
    requires { (x + 33 ≤ book_size) × (y + 33 ≤ book_size) }
    ensures { (result == 0) ≡ same_text (text_at book.now x) (text_at book.now y) }
{
    let start = word_diff(book, x, y) | word_diff(book, x + 8, y + 8);
    let end = word_diff(book, x + 16, y + 16) | word_diff(book, x + 24, y + 24);
    u64::from(book[x + TEXT_LEN] ^ book[y + TEXT_LEN]) | (start | end)
}

// Whether the texts at x and y are the same.
pub(crate) fn same_at(book: &Bytes, x: usize, y: usize) -> bool
    requires { (x + 33 ≤ book_size) × (y + 33 ≤ book_size) }
    ensures { result ≡ same_text (text_at book.now x) (text_at book.now y) }
{
    text_diff(book, x, y) == 0
}

// 0 exactly if the 16 bytes from an index are zeros.
#[tactic(auto, using(crate::specs::Laws::Places::zero_words, crate::specs::Laws::Gathered::or_clear))]
fn rest(book: &Bytes, at: usize) -> u64
    requires { at + 16 ≤ book_size }
    ensures { (result == 0) ≡ all_below (zero_at book.now at) 16 }
{
    u64_at(book, at) | u64_at(book, at + 8)
}

// Whether they are: a test of its own, which is one instruction where it stands alone.
#[tactic(auto, using(crate::specs::Laws::Places::zero_words))]
fn zeros(book: &Bytes, at: usize) -> bool
    requires { at + 16 ≤ book_size }
    ensures { result ≡ all_below (zero_at book.now at) 16 }
{
    (u64_at(book, at) == 0) & (u64_at(book, at + 8) == 0)
}

// Whether an empty text stands at an index.
#[tactic(auto, using(crate::specs::Laws::Kinds::zero_text))]
pub(crate) fn empty(book: &Bytes, at: usize) -> bool
    requires { at + 33 ≤ book_size }
    ensures { result ≡ text_within 0 0 (text_at book.now at) }
{
    (book[at + TEXT_LEN] == 0) & zeros(book, at) & zeros(book, at + 16)
}

// 0 exactly if a text of at most 16 bytes as it is stored stands at an index: zeros after it, by two parts
// that overlap.
#[tactic(auto, using(crate::specs::Laws::Places::filled_parts, crate::specs::Laws::Gathered::or_clear))]
pub(crate) fn short_diff(book: &Bytes, at: usize) -> u64
    requires { (at + 33 ≤ book_size) × ((text_at book.now at).len ≤ 16) }
    ensures { (result == 0) ≡ is_text (text_at book.now at) }
{
    rest(book, at + usize::from(book[at + TEXT_LEN])) | rest(book, at + 16)
}

// 0 exactly if a text as it is stored stands at an index. text's `text_fine` is a call; the rest is compiled into
// its callers (docs/SPEED.md, step 7).
#[tactic(auto, using(text::specs::Laws::InPlace::text_fine_here, crate::specs::Laws::Gathered::fault_clear))]
pub(crate) fn filled_diff(book: &Bytes, at: usize) -> u64
    requires { at + 33 ≤ book_size }
    ensures { (result == 0) ≡ is_text (text_at book.now at) }
{
    if book[at + TEXT_LEN] > 16 {
        return u64::from(!text::text_fine(book, at));
    }
    short_diff(book, at)
}

// Whether a text as it is stored stands at an index.
#[tactic(auto, using(text::specs::Laws::InPlace::text_fine_here, crate::specs::Laws::Places::filled_parts))]
pub(crate) fn filled(book: &Bytes, at: usize) -> bool
    requires { at + 33 ≤ book_size }
    ensures { result ≡ is_text (text_at book.now at) }
{
    let n = usize::from(book[at + TEXT_LEN]);
    if n > 16 {
        return text::text_fine(book, at);
    }
    zeros(book, at + n) & zeros(book, at + 16)
}

// Whether a text of 1 to 32 bytes as it is stored stands at an index.
pub(crate) fn present(book: &Bytes, at: usize) -> bool
    requires { at + 33 ≤ book_size }
    ensures { result ≡ text_within 1 32 (text_at book.now at) }
{
    book[at + TEXT_LEN] != 0 && filled(book, at)
}

// The cell of the text at an index and a client.
#[tactic(auto, using(crate::specs::Laws::Places::cell_here))]
pub(crate) fn cell_at(book: &Bytes, at: usize, client: u16) -> u16
    requires { at + 33 ≤ book_size }
    ensures { (result ≡ cell client (text_at book.now at)) × (result < 4021) }
{
    let sum = u64_at(book, at)
        .wrapping_add(u64_at(book, at + 8))
        .wrapping_add(u64_at(book, at + 16).wrapping_add(u64_at(book, at + 24)))
        .wrapping_add(u64::from(client));
    // Below 4,021: by `as`, which is proved to lose nothing.
    (sum % CELLS) as u16
}
