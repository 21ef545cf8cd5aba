// Texts: the empty one, comparison, range, and numbered names. Rests on prelude, words and decimal. Every
// public function is total: an index past the end of a slice has a stated answer.
#![tactic(auto)]

ghost use Rattle.std.specs.Prelude.{◌≡◌, ◌+◌, ◌≤◌, length};
ghost use Rattle.prelude.specs.Number.{word64};
ghost use Rattle.prelude.specs.Texts.{text_at, same_text, is_text};
ghost use Rattle.text.specs.Stored.{no_text, holds, text_is, text_fine};
ghost use Rattle.text.specs.Numbered.{numbered_text};

use prelude::Text;

// The empty text.
pub fn no_text() -> Text
    ensures { result ≡ no_text }
{
    Text {
        bytes: [0u8; 32],
        len: 0,
    }
}

// Whether a and b are the same text.
#[tactic(auto, using(crate::specs::Laws::ByWords::bytes_agree), unfolding(prelude::specs::Texts::same_text))]
pub fn same_text(a: Text, b: Text) -> bool
    ensures { result ≡ same_text a b }
{
    a == b
}

// Whether a text stands at an index: the slice does not end before it.
fn holds(s: &[u8], at: usize) -> bool
    ensures { result ≡ holds s.now at }
{
    s.len() >= 33 && at <= s.len() - 33
}

// The number of 8 bytes at an index, through a window of its own bytes. Here, and not words', since a public
// function asks nothing of its callers, and a total one cost 16 % of an event (docs/SPEED.md, step 4).
#[tactic(auto, using(words::specs::Laws::Windows::window_64))]
fn u64_at(s: &[u8], at: usize) -> u64
    requires { at + 8 ≤ length s.now }
    ensures { result ≡ word64 s.now at }
{
    words::get64(&s[at..at + 8])
}

// Its length and its four words, by `&` so that there is no branch: short enough to be compiled into the
// loop of a lookup. `==` of slices was tried: texts that begin alike take three times as long.
fn same_here(s: &[u8], at: usize, t: Text) -> bool
    requires { at + 33 ≤ length s.now }
    ensures { result ≡ same_text (text_at s.now at) t }
{
    let b = t.bytes;
    let w0 = u64_at(s, at) == u64_at(&b, 0);
    let w1 = u64_at(s, at + 8) == u64_at(&b, 8);
    let w2 = u64_at(s, at + 16) == u64_at(&b, 16);
    let w3 = u64_at(s, at + 24) == u64_at(&b, 24);
    (s[at + 32] == t.len) & (w0 & w1 & w2 & w3)
}

// Whether the text at an index is t; false if the slice ends before it.
#[tactic(auto, unfolding(crate::specs::Stored::text_is))]
pub fn text_is(s: &[u8], at: usize, t: Text) -> bool
    ensures { result ≡ text_is s.now at t }
{
    holds(s, at) && same_here(s, at, t)
}

// Whether 32 bytes and a length are a text as it is stored: at most 32 long, zeros after it. The bytes
// after it are gathered by OR: `all(|x| *x == 0)` was tried, and takes three times as long.
fn stored(bytes: &[u8], len: u8) -> bool
    requires { length bytes.now ≡ 32 }
    ensures { result ≡ is_text (record { bytes = bytes.now; len = len }) }
{
    let n = usize::from(len);
    n <= 32 && bytes[n..].iter().fold(0, |all, x| all | *x) == 0
}

// Whether a text is as it is stored. Nothing here calls it, but as a public function it keeps its promise.
pub fn text_ok(t: Text) -> bool
    ensures { result ≡ is_text t }
{
    stored(&t.bytes, t.len)
}

// Whether a text as it is stored stands at an index; false if the slice ends before it.
#[tactic(auto, using(prelude::specs::Laws::Span::part_span), unfolding(crate::specs::Stored::text_fine))]
pub fn text_fine(s: &[u8], at: usize) -> bool
    ensures { result ≡ text_fine s.now at }
{
    holds(s, at) && stored(&s[at..at + 32], s[at + 32])
}

// The name, a dash and k in decimal, or the empty text if that does not fit: no Option, since the
// function could not fail before, and its definition gives a text.
pub fn numbered(name: Text, k: u16) -> Text
    ensures { result ≡ numbered_text name k }
{
    let n = usize::from(name.len);
    let number = u64::from(k);
    let long = n + 1 + decimal::decimal_length(number, 0);
    if long > 32 {
        return no_text();
    }
    let mut bytes = words::padded::<32>(&name.bytes[..n]);
    bytes[n] = b'-';
    decimal::put_decimal(&mut bytes, n + 1, number, 0);
    Text {
        bytes,
        len: long as u8, // at most 32, so it loses nothing
    }
}
