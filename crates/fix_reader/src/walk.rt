// The rows of a kind walked over the fields behind the header: each takes the field that is next, if it
// has its tag and the value is one that the writer yields. Rests on fix_table and `values`.
ghost use Rattle.std.specs.Prelude.{◌≡◌, true, List, ◌∷◌};
ghost use Rattle.format.specs.Codes.{within};
ghost use Rattle.fix_words.specs.Lists.{every, is_print};
ghost use Rattle.fix_words.specs.Rows.{Row, in_rows};
ghost use Rattle.fix_words.specs.Spelling.{fields_in};
ghost use Rattle.fix_words.specs.Values.{rows};
ghost use Rattle.fix_words.specs.Message.{value_at};
ghost use Rattle.fix_table.specs.Table.{as_row};
ghost use Rattle.fix_reader.specs.Laws.Fits.{fits, asked_by};
ghost use Rattle.fix_reader.specs.Laws.Taking.{walk_on, walk_all, left_from};

use crate::fields::Fields;
use crate::{exec, price, values};
use fix_table::{Form, bit};

// The kind of a message, one of the five that have rows. A number and no enum: fix_table's public tables
// take any byte, so an enum would be turned back at each call.
#[derive(Clone, Copy)]
pub(crate) struct MessageKind {
    pub number: u8,
    pub ghost known: { within 16 20 number ≡ true },
}

// How far the rows have taken the fields, and whether the venue's text stood.
#[derive(Clone, Copy)]
pub(crate) struct Taken {
    pub next: usize,
    pub seen: bool,
}

// Whether a value is one that the writer yields for bit b, if 37 has the value `name`. That the kind has
// a row of this bit is asked down to here from `take_row`: it joins two numbers, and a type for the pair
// would be no plainer, since `Row` holds the one and `MessageKind` the other.
#[tactic(auto, using(crate::specs::Laws::Classes::text_fits, crate::specs::Laws::Classes::code_fits, crate::specs::Laws::Classes::number_fits, crate::specs::Laws::Classes::name_fits, crate::specs::Laws::Special::exec_fits, crate::specs::Laws::Special::price_fits, crate::specs::Laws::Special::fixed_fits, crate::specs::Laws::Bits::may_stand, crate::specs::Laws::Bits::name_must, crate::specs::Laws::Bits::text_bit, crate::specs::Laws::Bits::code_bit, crate::specs::Laws::Bits::number_bit, crate::specs::Laws::End::bytes_all, fix_words::proofs::Laws::Kinds::row_small))]
fn value_fits(kind: MessageKind, b: usize, v: &[u8], name: &[u8]) -> bool
    requires { (in_rows (rows kind.number) b ≡ true) × (every is_print v.now ≡ true) }
    ensures { result ≡ fits kind.number name.now b v.now }
{
    match b {
        bit::NAME => values::name_fits(kind.number, v),
        bit::EXEC => exec::exec_fits(name, v),
        bit::FILLPRICE => price::price_fits(v),
        bit::FIXEDTEXT => values::fixed_fits(v),
        _ => match fix_table::form_of(b) {
            Form::Text => values::text_fits(b, v),
            Form::Code => values::code_fits(b, v),
            Form::Number(places) => values::number_fits(b, places, v),
        },
    }
}

// The same of the field that is next; behind a venue's text no fixed text stands.
fn asked(f: &Fields, kind: MessageKind, b: usize, t: Taken) -> bool
    requires { in_rows (rows kind.number) b ≡ true }
    ensures { result ≡ asked_by kind.number (value_at (fields_in f.now.message.now) 7) t.seen b (value_at (fields_in f.now.message.now) t.next) }
{
    value_fits(kind, b, f.value(t.next), f.value(7)) && !(t.seen && b == bit::FIXEDTEXT)
}

// One row.
#[tactic(auto, using(crate::specs::Laws::Taking::row_taken, crate::specs::Laws::Taking::row_refused, crate::specs::Laws::Taking::row_missing, crate::specs::Laws::Taking::row_passed))]
fn take_row(f: &Fields, kind: MessageKind, row: &fix_table::Row, t: Taken) -> Option<Taken>
    requires { in_rows (rows kind.number) row.now.bit ≡ true }
    ensures { (rs : List Row) → walk_on (fields_in f.now.message.now) kind.number result rs ≡ walk_on (fields_in f.now.message.now) kind.number (Some t) (as_row row.now ∷ rs) }
{
    if !f.leads(t.next, row.tag) {
        return if row.must { None } else { Some(t) };
    }
    if !asked(f, kind, row.bit, t) {
        return None;
    }
    Some(Taken {
        next: t.next + 1,
        seen: t.seen || row.bit == bit::TEXT,
    })
}

// All rows, from the field behind the header on: which field is next.
#[tactic(auto, using(crate::specs::Laws::Taking::row_in, crate::specs::Laws::Taking::walked_all, fix_table::specs::Laws::Rows::row_is, fix_table::specs::Laws::Rows::rows_next))]
pub(crate) fn walk(f: &Fields, kind: MessageKind) -> Option<usize>
    ensures { left_from (fields_in f.now.message.now) result ≡ walk_all (fields_in f.now.message.now) kind.number }
{
    let mut t = Taken {
        next: 7,
        seen: false,
    };
    for row in fix_table::rows(kind.number) {
        t = take_row(f, kind, row, t)?;
    }
    Some(t.next)
}
