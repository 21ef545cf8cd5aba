// What the value of a field is: a text, a code, a number spelled as the writer spells, a name, or a
// fixed text. Rests on decimal, places and fix_table's `spoken`.
ghost use Rattle.std.specs.Prelude.{◌≡◌, true, ◌&&◌, length, ◌==◌, ◌≢◌, nat_le, nat_lt, slice_index};
ghost use Rattle.prelude.specs.Cases.{if◌then◌otherwise◌};
ghost use Rattle.prelude.specs.Number.{bound};
ghost use Rattle.decimal.specs.Decimal.{is_digit, decimal, number_in};
ghost use Rattle.format.specs.Codes.{within, is_alnum};
ghost use Rattle.format.specs.Format.{in_range, range, size};
ghost use Rattle.fix_words.specs.Lists.{every, is_print, same};
ghost use Rattle.fix_words.specs.Values.{none_text, fixed_text_number};
ghost use Rattle.fix_words.specs.Message.{is_text};
ghost use Rattle.fix_reader.specs.Laws.Numbers.{Steps, Parses};
ghost use Rattle.fix_reader.specs.Laws.Checks.{is_number};
ghost use Rattle.fix_reader.specs.Laws.Decimals.{is_whole};

use decimal::digits::Digits;
use fix_table::spoken;
use format::codes;

// One byte more of a number.
#[tactic(auto, using(crate::specs::Laws::Numbers::step_more, crate::specs::Laws::Numbers::step_other))]
fn step(n: u64, c: u8) -> Option<u64>
    ensures { Steps n c result }
{
    if !c.is_ascii_digit() {
        return Some(n);
    }
    n.checked_mul(10)?.checked_add(u64::from(c - b'0'))
}

// The number that a value's digits are, if it is below 2^64. It stops once it is not; `price::wrapped`
// goes on, and each says so in its contract, so one reading of both would be no plainer.
#[tactic(auto, using(crate::specs::Laws::Numbers::read_more, crate::specs::Laws::Numbers::read_all, crate::specs::Laws::Numbers::read_least))]
fn number(v: &[u8]) -> Option<u64>
    ensures { Parses v.now result }
{
    let mut n: u64 = 0;
    for c in v {
        n = step(n, *c)?;
    }
    Some(n)
}

// Whether a value is a number's decimal.
#[tactic(auto, using(crate::specs::Laws::Numbers::same_long, crate::specs::Laws::Numbers::written_taken, fix_words::specs::Laws::Lists::same_list))]
pub(crate) fn spelled<N: Digits>(v: &[u8], n: N, places: u8) -> bool
    ensures { result ≡ same (decimal places (N.number n)) v.now }
{
    if decimal::decimal_length(n, places) != v.len() {
        return false;
    }
    let mut out = [0u8; 320];
    let end = decimal::put_decimal(&mut out, 0, n, places);
    &out[..end] == v
}

// Whether a text that prints fits bit b.
pub(crate) fn text_fits(b: usize, v: &[u8]) -> bool
    requires { every is_print v.now ≡ true }
    ensures { result ≡ (in_range (range b) (length v.now) && is_text v.now) }
{
    // By `as`: std has no `From<usize>` for u64.
    places::may_hold(b, v.len() as u64) && !v.is_empty()
}

// Whether a value is a code of bit b.
pub(crate) fn code_fits(b: usize, v: &[u8]) -> bool
    ensures { result ≡ (length v.now == 1 && in_range (range b) (slice_index v.now 0)) }
{
    match v {
        [code] => places::may_hold(b, u64::from(*code)),
        _ => false,
    }
}

// Whether a number is below 2^(8 s).
fn below(n: u64, s: usize) -> bool
    requires { (s ≢ 8) → (s ≢ 4) → s ≡ 1 }
    ensures { result ≡ nat_lt n (bound s) }
{
    match s {
        8 => true,
        4 => n <= u64::from(u32::MAX),
        _ => n <= u64::from(u8::MAX),
    }
}

// Whether all bytes are digits.
fn all_digits(v: &[u8]) -> bool
    ensures { result ≡ every is_digit v.now }
{
    v.iter().all(|c| c.is_ascii_digit())
}

// Whether a value is digits, with no zero before another.
#[tactic(auto, using(crate::specs::Laws::Decimals::whole_none), unfolding(crate::specs::Laws::Decimals::is_whole))]
fn is_whole(v: &[u8]) -> bool
    ensures { result ≡ is_whole v.now }
{
    !v.is_empty() && all_digits(v) && (v.len() == 1 || b'0' < v[0])
}

// Whether a value is the decimal of the number that it is.
#[tactic(auto, using(crate::specs::Laws::Decimals::pointed_is, crate::specs::Laws::Decimals::pointed_parts, crate::specs::Laws::Decimals::pointed_short, crate::specs::Laws::Decimals::whole_is), unfolding(decimal::specs::Decimal::decimal))]
fn is_decimal(v: &[u8], places: u8) -> bool
    ensures { result ≡ same (decimal places (number_in v.now)) v.now }
{
    if places == 0 {
        return is_whole(v);
    }
    let point = v.len().saturating_sub(usize::from(places) + 1);
    match v.split_at(point) {
        (whole, [b'.', rest @ ..]) => is_whole(whole) && all_digits(rest),
        _ => false,
    }
}

// Whether a value is a number of bit b, spelled with so many decimals.
pub(crate) fn number_fits(b: usize, places: u8, v: &[u8]) -> bool
    requires { (size b ≢ 8) → (size b ≢ 4) → size b ≡ 1 }
    ensures { result ≡ (nat_lt (number_in v.now) (bound (size b)) && (same (decimal places (number_in v.now)) v.now && in_range (range b) (number_in v.now))) }
{
    is_decimal(v, places)
        && number(v).is_some_and(|n| below(n, places::size_of(b)) && places::may_hold(b, n))
}

// Whether a value is a number of one word.
#[tactic(auto, using(crate::specs::Laws::Numbers::parsed, crate::specs::Laws::Decimals::whole_is))]
pub(crate) fn is_number(v: &[u8]) -> bool
    ensures { result ≡ is_number v.now }
{
    is_whole(v) && number(v).is_some()
}

// Whether a value is an order's name; in a reject it may be NONE. Of bytes of any length, where format's
// `name_ok` has a `Text`.
#[tactic(auto, using(fix_words::specs::Laws::Lists::same_list, fix_words::specs::Laws::Lists::every_list, prelude::specs::Laws::Cases::if_true, prelude::specs::Laws::Cases::if_false))]
pub(crate) fn name_fits(kind: u8, v: &[u8]) -> bool
    ensures { result ≡ (if same v.now none_text then (kind == 17) otherwise (within 1 20 (length v.now) && every is_alnum v.now)) }
{
    if v == b"NONE".as_slice() {
        return kind == codes::CANCEL_REJECT;
    }
    (1..=20).contains(&v.len()) && format::alnums(v)
}

// Whether a value is one of the fixed texts.
#[tactic(auto, using(crate::specs::Laws::Special::fixed_empty, crate::specs::Laws::Special::fixed_start, crate::specs::Laws::Special::fixed_found, crate::specs::Laws::Special::fixed_missing, crate::specs::Laws::Special::spoken_fixed, crate::specs::Laws::Ending::same_turned, fix_words::specs::Laws::Lists::same_list, prelude::specs::Laws::Below::first_more))]
pub(crate) fn fixed_fits(v: &[u8]) -> bool
    ensures { result ≡ nat_le 1 (fixed_text_number v.now) }
{
    !v.is_empty() && (1..spoken::NONE).any(|n| v == spoken::fixed_text(n))
}
