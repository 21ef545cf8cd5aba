// The fields of a message found one behind the other: tag, '=', value, SOH.
ghost use Rattle.std.specs.Prelude.{◌≡◌, ◌≤◌, [], length};
ghost use Rattle.fix_reader.specs.Laws.Pieces.{Digit, Tagged, Ends, Pieced};
ghost use Rattle.fix_reader.specs.Laws.Split.{Splits};
ghost use Rattle.fix_claims.specs.Reading.{tabled};

use fix_claims::FixFields;
use prelude::Refusal;

// A tag, and where its value starts.
#[derive(Clone, Copy)]
struct Tag {
    pub tag: u32,
    pub at: usize,
}

// A field: its tag, where its value starts, and where it ends. The three and no `Tag` with an end: it
// would be `g.tag.tag`, and `split` copies the numbers one by one.
#[derive(Clone, Copy)]
struct Piece {
    pub tag: u32,
    pub at: usize,
    pub end: usize,
}

// A byte as a digit, if it is one.
fn digit(c: u8) -> Option<u32>
    ensures { Digit c result }
{
    c.is_ascii_digit().then(|| u32::from(c - b'0'))
}

// The tag at the front, of at most three digits.
#[tactic(auto, using(crate::specs::Laws::Pieces::no_tag, crate::specs::Laws::Pieces::no_equals))]
fn tag_here(t: &[u8]) -> Option<Tag>
    ensures { Tagged t.now result }
{
    match t {
        [b'0', ..] => None,
        [a, b'=', ..] => {
            let tag = digit(*a)?;
            Some(Tag { tag, at: 2 })
        }
        [a, b, b'=', ..] => {
            let tag = digit(*a)? * 10 + digit(*b)?;
            Some(Tag { tag, at: 3 })
        }
        [a, b, c, b'=', ..] => {
            let tag = (digit(*a)? * 10 + digit(*b)?) * 10 + digit(*c)?;
            Some(Tag { tag, at: 4 })
        }
        _ => None,
    }
}

// Where the printing bytes from an index on end.
fn end_of(t: &[u8], from: usize) -> usize
    requires { from ≤ length t.now }
    ensures { Ends t.now from result }
{
    // A `for`: with `position` in the bytes from there on, the proof did not close.
    for i in from..t.len() {
        if t[i] < b' ' {
            return i;
        }
    }
    t.len()
}

// The field at the front.
#[tactic(auto, using(crate::specs::Laws::Pieces::untagged, crate::specs::Laws::Pieces::tag_within, crate::specs::Laws::Pieces::soh_at, crate::specs::Laws::Pieces::piece_here))]
fn piece_here(t: &[u8]) -> Option<Piece>
    ensures { Pieced t.now result }
{
    let g = tag_here(t)?;
    let end = end_of(t, g.at);
    if t.get(end) != Some(&1) {
        return None;
    }
    Some(Piece {
        tag: g.tag,
        at: g.at,
        end,
    })
}

// No fields, with the refusal.
pub(crate) fn nothing() -> FixFields
    ensures { result ≡ tabled 3 [] }
{
    FixFields {
        refusal: Refusal::BadRecord.number(),
        count: 0,
        tag: [0; 32],
        at: [0; 32],
        length: [0; 32],
    }
}

// All fields of a message, if they are at most 32.
pub(crate) fn split(m: &[u8]) -> Option<FixFields>
    ensures { Splits m.now result }
{
    let mut tag = [0u32; 32];
    let mut at = [0u64; 32];
    let mut length = [0u64; 32];
    let mut n: usize = 0;
    let mut p: usize = 0;
    // A `while`: each field says where the next one begins, so a `for` is no plainer.
    while p < m.len() {
        if n == 32 {
            return None;
        }
        let g = piece_here(&m[p..])?;
        tag[n] = g.tag;
        // By `as`, here and for the count, which is proved to lose nothing: the C structure has u64 and u32, for
        // which std has no `From` of a size.
        at[n] = (p + g.at) as u64;
        length[n] = (g.end - g.at) as u64;
        n += 1;
        p += g.end + 1;
    }
    Some(FixFields {
        refusal: 0,
        count: n as u32,
        tag,
        at,
        length,
    })
}
