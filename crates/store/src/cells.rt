// Texts and numbers at an index of a slice, read and written. Rests on prelude's spans and words.
ghost use Rattle.std.specs.Prelude.{◌≡◌, ◌+◌, ◌≤◌, ◌<◌, length, MatchOption};
ghost use Rattle.prelude.specs.Span.{span, splice};
ghost use Rattle.prelude.specs.Number.{bytes_of, word16, word32, word64};
ghost use Rattle.prelude.specs.Texts.{text_at, WholeText};
ghost use Rattle.store.specs.Cells.{text_bytes};

use crate::layout::TEXT_LEN;
use prelude::Text;

// The numbers of 2, 4 and 8 bytes at an index, each through a window of its own bytes. Here, and not words',
// since a public function asks nothing of its callers, and a total one cost 16 % of an event
// (docs/SPEED.md, step 4).
#[tactic(auto, using(words::specs::Laws::Windows::window_16))]
pub(crate) fn u16_at(s: &[u8], at: usize) -> u16
    requires { at + 2 ≤ length s.now }
    ensures { result ≡ word16 s.now at }
{
    words::get16(&s[at..at + 2])
}

#[tactic(auto, using(words::specs::Laws::Windows::window_32))]
pub(crate) fn u32_at(s: &[u8], at: usize) -> u32
    requires { at + 4 ≤ length s.now }
    ensures { result ≡ word32 s.now at }
{
    words::get32(&s[at..at + 4])
}

#[tactic(auto, using(words::specs::Laws::Windows::window_64))]
pub(crate) fn u64_at(s: &[u8], at: usize) -> u64
    requires { at + 8 ≤ length s.now }
    ensures { result ≡ word64 s.now at }
{
    words::get64(&s[at..at + 8])
}

#[tactic(auto, using(prelude::specs::Laws::Span::part_span))]
pub(crate) fn get_text(s: &[u8], at: usize) -> Text
    requires { at + 33 ≤ length s.now }
    ensures { result ≡ text_at s.now at }
{
    let mut bytes = [0u8; 32];
    bytes.copy_from_slice(&s[at..at + 32]);
    Text {
        bytes,
        len: s[at + TEXT_LEN],
    }
}

// Writes w into s from index at.
#[tactic(auto, using(prelude::specs::Laws::Span::part_splice))]
pub(crate) fn put(s: &mut [u8], at: usize, w: &[u8])
    requires { at + length w.now ≤ length s.old }
    ensures { s.new ≡ splice s.old at w.now }
{
    s[at..at + w.len()].copy_from_slice(w);
}

// A number written at an index, a line for each width: std has no trait for `to_le_bytes`, and num_traits'
// gives the bytes by a ghost function that each field's proof would have to turn into `bytes_of`.
pub(crate) fn put16(s: &mut [u8], at: usize, v: u16)
    requires { at + 2 ≤ length s.old }
    ensures { s.new ≡ splice s.old at (bytes_of 2 v) }
{
    put(s, at, &v.to_le_bytes());
}

pub(crate) fn put32(s: &mut [u8], at: usize, v: u32)
    requires { at + 4 ≤ length s.old }
    ensures { s.new ≡ splice s.old at (bytes_of 4 v) }
{
    put(s, at, &v.to_le_bytes());
}

pub(crate) fn put64(s: &mut [u8], at: usize, v: u64)
    requires { at + 8 ≤ length s.old }
    ensures { s.new ≡ splice s.old at (bytes_of 8 v) }
{
    put(s, at, &v.to_le_bytes());
}

// Writes a text, and says of it what every value of the type has.
pub(crate) fn put_text(s: &mut [u8], at: usize, t: Text)
    requires { at + 33 ≤ length s.old }
    ensures { (s.new ≡ splice s.old at (text_bytes t)) × WholeText t }
{
    put(s, at, &t.bytes);
    put(s, at + TEXT_LEN, &[t.len]);
}

// The N bytes of s from index at as an array, if s has as many.
#[tactic(auto, unfolding(prelude::specs::Span::span))]
pub(crate) fn part<const N: usize>(s: &[u8], at: usize) -> Option<&[u8; N]>
    requires { at ≤ length s.now }
    ensures { MatchOption result (length s.now < at + N) (λ bytes. bytes.now ≡ span s.now at N) }
{
    s[at..].first_chunk()
}
