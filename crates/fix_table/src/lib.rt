// The tables of FIX messages in code, for the writer and the reader: the rows of each kind (`rows`), the
// message types, how each bit is written, the fixed texts (`spoken`) and the checksum (`sum`). Each
// function is total and equals a definition of specs/Table or of fix_words, or says its number itself.
// Tables are statics: a constant would be built on the stack at each access. Rests on fix_words and format.
#![tactic(auto)]

ghost use Rattle.std.specs.Prelude.{◌≡◌, map, nat_le};
ghost use Rattle.fix_words.specs.Values.{rows, type_of};
ghost use Rattle.fix_table.specs.Table.{as_row, form_of, kind_for};

use format::codes;

pub mod bit;
pub mod spoken;
pub mod sum;
mod tables;

// A row: a field's tag, its bit in the record, and whether it must stand.
#[derive(Clone, Copy)]
pub struct Row {
    pub tag: u64,
    pub bit: usize,
    pub must: bool,
}

// How a bit is written: as a text, as a code, or as a number with so many decimals.
#[derive(Clone, Copy)]
pub enum Form {
    Text,
    Code,
    Number(u8),
}

const TEXT: Form = Form::Text;

const CODE: Form = Form::Code;

const WHOLE: Form = Form::Number(0);

const QUANTITY: Form = Form::Number(4);

const PRICE: Form = Form::Number(8);

static FORMS: [Form; 32] = [
    WHOLE, WHOLE, TEXT, TEXT, TEXT, TEXT, TEXT, CODE, CODE, QUANTITY, PRICE, CODE, CODE, CODE,
    QUANTITY, PRICE, QUANTITY, PRICE, TEXT, WHOLE, TEXT, WHOLE, WHOLE, WHOLE, QUANTITY, WHOLE,
    PRICE, WHOLE, WHOLE, WHOLE, TEXT, WHOLE,
];

// The rows of a kind, in their order: below the first kind a report's, past the last none.
#[tactic(auto, using(crate::specs::Laws::Rows::low, crate::specs::Laws::Rows::past), unfolding(fix_words::specs::Values::rows, fix_words::specs::Values::tables))]
pub fn rows(kind: u8) -> &'static [Row]
    ensures { map as_row result.now ≡ rows kind }
{
    match kind {
        0..=codes::REPORT => &tables::REPORT,
        codes::CANCEL_REJECT => &tables::REJECT,
        codes::NEW_ORDER => &tables::ORDER,
        codes::CANCEL_REQUEST => &tables::CANCEL,
        codes::REPLACE_REQUEST => &tables::REPLACE,
        _ => &[],
    }
}

// MsgType: below the first kind a report's, past the last 0. No Option: that is what it promises, and a message
// has one byte there.
#[tactic(auto, using(crate::specs::Laws::Rows::low, crate::specs::Laws::Rows::past), unfolding(fix_words::specs::Values::type_of, fix_words::specs::Values::types))]
pub fn type_of(kind: u8) -> u8
    ensures { result ≡ type_of kind }
{
    match kind {
        0..=codes::REPORT => b'8',
        codes::CANCEL_REJECT => b'9',
        codes::NEW_ORDER => b'D',
        codes::CANCEL_REQUEST => b'F',
        codes::REPLACE_REQUEST => b'G',
        _ => 0,
    }
}

// The kind of a MsgType.
#[tactic(auto, using(crate::specs::Laws::Choices::choices), unfolding(crate::specs::Table::kind_for, fix_words::specs::Values::kind_of))]
pub fn kind_of(letter: u8) -> Option<u8>
    ensures { result ≡ kind_for letter }
{
    match letter {
        b'8' => Some(codes::REPORT),
        b'9' => Some(codes::CANCEL_REJECT),
        b'D' => Some(codes::NEW_ORDER),
        b'F' => Some(codes::CANCEL_REQUEST),
        b'G' => Some(codes::REPLACE_REQUEST),
        _ => None,
    }
}

// Whether a message of this kind has 60, the time: those that go to the venue do.
pub fn has_stamp(kind: u8) -> bool
    ensures { result ≡ nat_le 18 kind }
{
    codes::NEW_ORDER <= kind
}

// How a bit is written; past the last as a whole number.
pub fn form_of(b: usize) -> Form
    ensures { result ≡ form_of b }
{
    FORMS.get(b).copied().unwrap_or(WHOLE)
}
