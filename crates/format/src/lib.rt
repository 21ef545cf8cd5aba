// The format of records, as far as no buffer is needed: code lists, order names, and the bits of each
// kind. Rests on prelude and bits.
#![tactic(auto)]

ghost use Rattle.std.specs.Prelude.{◌≡◌, ◌+◌};
ghost use Rattle.std.specs.List.{list_all};
ghost use Rattle.format.specs.Codes.{is_side, is_ordtype, is_timeinforce, is_status, is_exectype, is_alnum, is_none, is_name};
ghost use Rattle.format.specs.Format.{required, allowed, is_kind, joined, bits_right};

use prelude::Text;

pub mod bit;
pub mod codes;

// FIX's lists of codes, by their characters, as its tables and the definitions have them. Those of which code asks
// more than whether they are on the list have a name in `codes`.
#[tactic(auto, unfolding(crate::specs::Codes::is_side, crate::specs::Codes::sides))]
pub fn is_side(code: u8) -> bool
    ensures { result ≡ is_side code }
{
    matches!(code, b'1' | b'2' | b'5')
}

#[tactic(auto, unfolding(crate::specs::Codes::is_ordtype, crate::specs::Codes::ordtypes))]
pub fn is_ordtype(code: u8) -> bool
    ensures { result ≡ is_ordtype code }
{
    matches!(code, codes::MARKET | codes::LIMIT)
}

#[tactic(auto, unfolding(crate::specs::Codes::is_timeinforce, crate::specs::Codes::timesinforce))]
pub fn is_timeinforce(code: u8) -> bool
    ensures { result ≡ is_timeinforce code }
{
    matches!(code, b'0' | b'1' | b'3' | b'4')
}

#[tactic(auto, unfolding(crate::specs::Codes::is_status, crate::specs::Codes::statuses))]
pub fn is_status(code: u8) -> bool
    ensures { result ≡ is_status code }
{
    matches!(code, b'0'..=b'4' | b'6' | b'8' | b'A' | b'C' | b'E')
}

#[tactic(auto, unfolding(crate::specs::Codes::is_exectype, crate::specs::Codes::exectypes))]
pub fn is_exectype(code: u8) -> bool
    ensures { result ≡ is_exectype code }
{
    matches!(code, b'0' | b'3'..=b'6' | b'8' | b'A' | b'C'..=b'F' | b'I')
}

// Whether a byte is a digit, a capital or a small letter.
#[tactic(auto, unfolding(crate::specs::Codes::is_alnum))]
pub fn is_alnum(c: u8) -> bool
    ensures { result ≡ is_alnum c }
{
    c.is_ascii_alphanumeric()
}

// Whether all bytes are digits or letters.
pub fn alnums(bytes: &[u8]) -> bool
    ensures { result ≡ list_all is_alnum bytes.now }
{
    bytes.iter().all(|c| is_alnum(*c))
}

#[tactic(auto, unfolding(crate::specs::Codes::is_none))]
fn is_none(t: Text) -> bool
    ensures { result ≡ is_none t }
{
    t.len == 4 && t.bytes.starts_with(b"NONE")
}

// Whether a text is an order name: 1 to 20 letters and digits, and not NONE.
pub fn name_ok(name: Text) -> bool
    ensures { result ≡ is_name name }
{
    let n = usize::from(name.len);
    if !(1..=20).contains(&n) {
        return false;
    }
    alnums(&name.bytes[..n]) && !is_none(name)
}

// The presence maps of a kind: the bits that it must have, and these with the bits that it may have.
#[derive(Clone, Copy)]
struct Maps {
    required: u32,
    permitted: u32,
}

const NO_KIND: Maps = Maps {
    required: 0,
    permitted: 0,
};

macro_rules! maps {
    ($required:expr, $permitted:expr) => {
        Maps {
            required: $required,
            permitted: $permitted,
        }
    };
}

// The maps of each kind, at the place of the kind's number. A static: a constant would be built on the stack at
// each access.
static MAPS: [Maps; 21] = [
    NO_KIND,
    maps!(975, 4047),
    maps!(217, 2097369),
    maps!(8389337, 14684121),
    maps!(249890, 2093090),
    maps!(34, 34),
    maps!(34, 1843234),
    maps!(1048610, 1048610),
    maps!(34, 34),
    maps!(4, 4),
    NO_KIND,
    NO_KIND,
    NO_KIND,
    NO_KIND,
    NO_KIND,
    NO_KIND,
    maps!(2265150413, 2669379549),
    maps!(805838873, 941105181),
    maps!(994, 4066),
    maps!(1073742818, 1074008034),
    maps!(1073742818, 1074008034),
];

// A kind's maps: none if there is no such kind.
fn maps_of(kind: u8) -> Maps
    ensures required { result.required ≡ required kind }
    ensures permitted { result.permitted ≡ required kind + allowed kind }
{
    MAPS.get(usize::from(kind)).copied().unwrap_or(NO_KIND)
}

// The bits that a kind must have.
pub fn required_of(kind: u8) -> u32
    ensures { result ≡ required kind }
{
    maps_of(kind).required
}

#[tactic(auto, unfolding(crate::specs::Format::is_kind))]
fn is_kind(kind: u8) -> bool
    ensures { result ≡ is_kind kind }
{
    matches!(
        kind,
        codes::EVENT_BOOK..=codes::EVENT_GATEWAY_CANCEL | codes::REPORT..=codes::REPLACE_REQUEST
    )
}

#[tactic(auto, using(prelude::specs::Laws::Cases::if_true, prelude::specs::Laws::Cases::if_false), unfolding(crate::specs::Format::joined))]
fn is_joined(kind: u8, map: u32) -> bool
    ensures { result ≡ joined kind map }
{
    let text = bits::has(map, bit::TEXT);
    let fixed = bits::has(map, bit::FIXEDTEXT);
    match kind {
        codes::REPORT => {
            bits::has(map, bit::REASON) == bits::has(map, bit::ORIGIN) && !(text && fixed)
        }
        codes::CANCEL_REJECT => text != fixed,
        _ => true,
    }
}

// Whether a map has the bits of its kind.
#[tactic(auto, unfolding(crate::specs::Format::bits_right))]
pub fn bits_right(kind: u8, map: u32) -> bool
    ensures { result ≡ bits_right kind map }
{
    let maps = maps_of(kind);
    is_kind(kind)
        && map & maps.required == maps.required
        && maps.permitted & map == map
        && is_joined(kind, map)
}
