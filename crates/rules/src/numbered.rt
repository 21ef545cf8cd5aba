// Whether a text is a name with a number, in place: the name by words that overlap, the dash and the
// digits as one word, and zeros after them. Rests on cells.
ghost use Rattle.std.specs.Prelude.{◌≡◌, ◌+◌, ◌<◌, ◌≤◌, ◌==◌, true};
ghost use Rattle.prelude.specs.Below.{all_below};
ghost use Rattle.prelude.specs.Texts.{text_at, same_text};
ghost use Rattle.store.specs.Layout.{book_size};
ghost use Rattle.text.specs.Numbered.{numbered_text};
ghost use Rattle.machine.specs.Ranges.{name_range};
ghost use Rattle.rules.specs.Laws.Suffix.{IsSuffix, alike_at};

use crate::cells::{filled_diff, u32_at, u64_at, word_diff};
use store::layout::{Bytes, TEXT_LEN};

// The dash and the digits as a word, and how many they are: a word and no buffer, since they are compared by
// one load.
#[derive(Clone, Copy)]
struct Suffix {
    word: u64,
    len: usize,
}

// The dash and the digits of a number below 1,000, as a word. `decimal` writes its digits into a buffer, from
// which a word would have to be read again.
#[tactic(auto, using(crate::specs::Laws::Suffix::suffix_1, crate::specs::Laws::Suffix::suffix_2, crate::specs::Laws::Suffix::suffix_hundreds))]
fn suffix_of(k: u16) -> Suffix
    requires { k < 1000 }
    ensures { IsSuffix k result.word result.len }
{
    let dash = u64::from(b'-');
    let zero = u64::from(b'0');
    let n = u64::from(k);
    match k {
        0..=9 => Suffix {
            word: dash + 256 * (zero + n),
            len: 2,
        },
        10..=99 => Suffix {
            word: dash + 256 * ((zero + n / 10) + 256 * (zero + n % 10)),
            len: 3,
        },
        _ => Suffix {
            word: dash
                + 256 * ((zero + n / 100) + 256 * ((zero + n / 10 % 10) + 256 * (zero + n % 10))),
            len: 4,
        },
    }
}

// Whether the first n bytes at x and y are the same, as `alike_at` says it, by index: `==` of the two slices would
// need a law that turns slices of a book back into its indices.
fn same_few(book: &Bytes, x: usize, y: usize, n: usize) -> bool
    requires { (x + 33 ≤ book_size) × (y + 33 ≤ book_size) × (n ≤ 20) }
    ensures { result ≡ all_below (alike_at book.now x y) n }
{
    (0..n).all(|p| book[x + p] == book[y + p])
}

// 0 exactly if they are: from 8 bytes on by three words that overlap, from 4 by two halves.
#[tactic(auto, using(crate::specs::Laws::Suffix::start_words, crate::specs::Laws::Gathered::start_halves, crate::specs::Laws::Gathered::or_clear, crate::specs::Laws::Gathered::xor_clear, crate::specs::Laws::Gathered::fault_clear))]
fn start_diff(book: &Bytes, x: usize, y: usize, n: usize) -> u64
    requires { (x + 33 ≤ book_size) × (y + 33 ≤ book_size) × (n ≤ 20) }
    ensures { (result == 0) ≡ all_below (alike_at book.now x y) n }
{
    if n < 4 {
        return u64::from(!same_few(book, x, y, n));
    }
    if n < 8 {
        let last = n - 4;
        let first = u32_at(book, x) ^ u32_at(book, y);
        return u64::from(first | (u32_at(book, x + last) ^ u32_at(book, y + last)));
    }
    let last = n - 8;
    let mid = last / 2;
    word_diff(book, x, y) | word_diff(book, x + mid, y + mid) | word_diff(book, x + last, y + last)
}

// Whether the text at an index is the name at another, a dash and k.
pub(crate) fn numbered(book: &Bytes, at: usize, from: usize, k: u16) -> bool
    requires { (at + 33 ≤ book_size) × (from + 33 ≤ book_size) × (name_range (text_at book.now from) ≡ true) × (k < 1000) }
    ensures { result ≡ same_text (text_at book.now at) (numbered_text (text_at book.now from) k) }
{
    let n = usize::from(book[from + TEXT_LEN]);
    let tail = suffix_of(k);
    if usize::from(book[at + TEXT_LEN]) != n + tail.len {
        return false;
    }
    let start = start_diff(book, at, from, n);
    let end = u64_at(book, at + n) ^ tail.word;
    (start | end | filled_diff(book, at)) == 0
}
