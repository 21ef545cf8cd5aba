// A reader over a record: the bytes, and how far it has read. It is one of the forms that docs/SCOPE.md
// names, so it stands although the walk would do without it. Each function over it takes it apart and calls
// the core, which has slice and number apart (`walk`). `next_at` and `left_at` stand above
// them: their parameters are plain, so no caller sees a reader. That a position is below 131,072 stands in
// the contracts, since no ghost field of the reader could say it: a reader that has read past a field may
// stand up to 256 further on, and how far it has come is for the loop of `walk` to say.
ghost use Rattle.std.specs.Prelude.{◌≡◌, ◌<◌, ◌+◌, ◌-◌, ◌≤◌, length};
ghost use Rattle.format.specs.Places.{next};

use crate::walk::{after, rest};

#[derive(Clone, Copy)]
pub(crate) struct Reader<'a> {
    bytes: &'a [u8],
    at: usize,
}

impl<'a> Reader<'a> {
    // A reader that has come to a position.
    fn new(bytes: &'a [u8], at: usize) -> Reader<'a>
        ensures { (result.bytes ≡ bytes.entry) × (result.at ≡ at) }
    {
        Reader { bytes, at }
    }

    // It reads past field b.
    fn next(self, map: u32, b: u8) -> Reader<'a>
        requires { self.at < 131072 }
        ensures { (result.bytes ≡ self.entry.bytes) × (result.at ≡ next self.entry.bytes.now map b self.entry.at) × (result.at ≤ self.entry.at + 256) }
    {
        let at = after(self.bytes, map, b, self.at);
        Reader {
            bytes: self.bytes,
            at,
        }
    }

    // How many bytes are left.
    fn left(self) -> usize
        ensures { result ≡ length self.entry.bytes.now - self.entry.at }
    {
        rest(self.bytes, self.at)
    }
}

// The position after field b, which starts at `at`.
pub(crate) fn next_at(s: &[u8], map: u32, b: u8, at: usize) -> usize
    requires { at < 131072 }
    ensures { (result ≡ next s.now map b at) × (result ≤ at + 256) }
{
    let r = Reader::new(s, at).next(map, b);
    r.at
}

// How many bytes stand from a position on.
pub(crate) fn left_at(s: &[u8], at: usize) -> usize
    ensures { result ≡ length s.now - at }
{
    Reader::new(s, at).left()
}
