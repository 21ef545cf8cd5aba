// The parts of a record, taken from the bytes of its fields. Their numbers fit (`Narrow`), and so do the
// lengths of texts: by `as`, which is proved to lose nothing. Rests on words and `shape`.
ghost use Rattle.std.specs.Prelude.{◌≡◌, ◌+◌, ◌<◌, ◌≤◌, ◌++◌, length, take, drop, replicate};
ghost use Rattle.prelude.specs.Number.{number};
ghost use Rattle.prelude.specs.Texts.{text_of};
ghost use Rattle.format.specs.Places.{kind_at};
ghost use Rattle.records.specs.Fields.{long_of, ids_of, record_from};
ghost use Rattle.records.specs.Laws.Seen.{Short, Narrow, tail_at, built_from};

use crate::shape::Shape;
use crate::{Exec, Ids, LongText, Record, Told};
use format::bit;
use prelude::{Terms, Text};

// The bytes behind a field's length byte, with zeros behind them, and how many they are; an absent field
// holds none.
fn filled<const N: usize>(field: &[u8]) -> ([u8; N], u8)
    requires { (length field.now ≤ N + 1) × (N < 256) }
    ensures { (result.0 ≡ take N (drop 1 field.now ++ replicate N 0)) × (result.1 ≡ length (drop 1 field.now)) }
{
    let text = &field[field.len().min(1)..];
    let mut bytes = [0u8; N];
    bytes[..text.len()].copy_from_slice(text);
    (bytes, text.len() as u8)
}

// The text in a field; `long_in` is its twin, since `LongText` is that of `Text`. What both do is `filled`.
pub(crate) fn text_in(field: &[u8]) -> Text
    requires { length field.now ≤ 33 }
    ensures { result ≡ text_of (drop 1 field.now) }
{
    let (bytes, len) = filled(field);
    Text { bytes, len }
}

fn long_in(field: &[u8]) -> LongText
    requires { length field.now ≤ 65 }
    ensures { result ≡ long_of (drop 1 field.now) }
{
    let (bytes, len) = filled(field);
    LongText { bytes, len }
}

// The second word of a number.
pub(crate) fn high_in(field: &[u8]) -> u64
    requires { length field.now ≤ 16 }
    ensures { result ≡ number (drop 8 field.now) }
{
    words::get64(&field[field.len().min(8)..])
}

fn put_ids(shape: &Shape<'_>, ids: &mut Ids)
    requires { Short shape.now.at }
    ensures { ids.new ≡ ids_of (tail_at shape.now.bytes.now shape.now.at) }
{
    ids.name = text_in(shape.field(bit::NAME));
    ids.clordid = text_in(shape.field(bit::CLORDID));
    ids.origclordid = text_in(shape.field(bit::ORIGCLORDID));
    ids.downstream = text_in(shape.field(bit::DOWNSTREAM));
    ids.symbol = text_in(shape.field(bit::SYMBOL));
    ids.venueorderid = text_in(shape.field(bit::VENUEORDERID));
    ids.origdownstream = text_in(shape.field(bit::ORIGDOWNSTREAM));
}

// The numbers by index, as the definition `record_from` has them: field by field, since bits have no order that
// a derive follows.
fn put_numbers(kind: u8, map: u32, n: &[u64; 32], high: u64, record: &mut Record)
    requires { Narrow n.now }
    ensures { «record».new ≡ record_from kind map n.now high «record».old.ids «record».old.text }
{
    record.kind = kind;
    record.map = map;
    record.client = n[0] as u16;
    record.venue = n[1] as u16;
    record.reason = n[19] as u32;
    record.verdict = n[23] as u8;
    record.terms = Terms {
        side: n[7] as u8,
        ordtype: n[8] as u8,
        timeinforce: n[11] as u8,
        qty: n[9],
        price: n[10],
    };
    record.exec = Exec {
        exectype: n[12] as u8,
        status: n[13] as u8,
        lastqty: n[14],
        lastpx: n[15],
        cumqty: n[16],
        avgpx: n[17],
    };
    record.told = Told {
        leavesqty: n[24],
        execseq: n[25],
        fillprice: [n[26], high],
        fixedtext: n[27] as u8,
        origin: n[28] as u8,
        responseto: n[29] as u8,
        source: n[31] as u8,
    };
}

// Puts the record that has this shape and these numbers where it is lent: field by field, since a record is large.
pub(crate) fn put_built(shape: &Shape<'_>, n: &[u64; 32], record: &mut Record)
    requires { Short shape.now.at × Narrow n.now }
    ensures { «record».new ≡ built_from shape.now.bytes.now (kind_at shape.now.bytes.now shape.now.start) shape.now.map shape.now.at n.now }
{
    put_ids(shape, &mut record.ids);
    record.text = long_in(shape.field(bit::TEXT));
    let high = high_in(shape.field(bit::FILLPRICE));
    put_numbers(shape.kind(), shape.map, n, high, record);
}
