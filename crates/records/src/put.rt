// The fields of a record, written one behind the other. Rests on fields and format.
ghost use Rattle.std.specs.Prelude.{◌≡◌, ◌∷◌, ◌<◌, ◌+◌, ◌≤◌, length, take};
ghost use Rattle.prelude.specs.Span.{splice};
ghost use Rattle.format.specs.Wire.{field_bytes, body};
ghost use Rattle.records.specs.Fields.{numbers_of, text_by, held};

use crate::fields::{put_number, put_text};
use crate::{Ids, Record};
use format::bit;
use prelude::Text;

// The number of each bit, field by field: bits have no order that a derive follows.
fn numbers_of(r: &Record) -> [u64; 32]
    ensures { result ≡ numbers_of r.now }
{
    [
        u64::from(r.client),
        u64::from(r.venue),
        u64::from(r.ids.name.len),
        u64::from(r.ids.clordid.len),
        u64::from(r.ids.origclordid.len),
        u64::from(r.ids.downstream.len),
        u64::from(r.ids.symbol.len),
        u64::from(r.terms.side),
        u64::from(r.terms.ordtype),
        r.terms.qty,
        r.terms.price,
        u64::from(r.terms.timeinforce),
        u64::from(r.exec.exectype),
        u64::from(r.exec.status),
        r.exec.lastqty,
        r.exec.lastpx,
        r.exec.cumqty,
        r.exec.avgpx,
        u64::from(r.ids.venueorderid.len),
        u64::from(r.reason),
        u64::from(r.text.len),
        0,
        0,
        u64::from(r.verdict),
        r.told.leavesqty,
        r.told.execseq,
        r.told.fillprice[0],
        u64::from(r.told.fixedtext),
        u64::from(r.told.origin),
        u64::from(r.told.responseto),
        u64::from(r.ids.origdownstream.len),
        u64::from(r.told.source),
    ]
}

// The text of a bit.
fn text_of(ids: &Ids, b: u32) -> &Text
    ensures { result.now ≡ text_by ids.now b }
{
    match b {
        bit::NAME => &ids.name,
        bit::CLORDID => &ids.clordid,
        bit::ORIGCLORDID => &ids.origclordid,
        bit::DOWNSTREAM => &ids.downstream,
        bit::SYMBOL => &ids.symbol,
        bit::VENUEORDERID => &ids.venueorderid,
        _ => &ids.origdownstream,
    }
}

// Writes the text that stands at the front of these bytes, and no more than all of them.
fn put_front(dst: &mut [u8], at: usize, bytes: &[u8], len: u8) -> usize
    requires { at + 1 + length (take len bytes.now) ≤ length dst.old }
    ensures { (result ≡ at + 1 + length (take len bytes.now)) × (dst.new ≡ splice dst.old at (length (take len bytes.now) ∷ take len bytes.now)) }
{
    let n = usize::from(len).min(bytes.len());
    put_text(dst, at, &bytes[..n])
}

// Writes field b, if its bit stands, and returns the position after it.
fn put_field(dst: &mut [u8], at: usize, r: &Record, numbers: &[u64; 32], b: u8) -> usize
    requires { (b < 32) × (numbers.now ≡ numbers_of r.now) × (at + length (field_bytes r.now.map (held r.now) b) ≤ length dst.old) }
    ensures { (result ≡ at + length (field_bytes r.now.map (held r.now) b)) × (dst.new ≡ splice dst.old at (field_bytes r.now.map (held r.now) b)) }
{
    let field = u32::from(b);
    if !bits::has(r.map, field) {
        return at;
    }
    let k = usize::from(b);
    if places::is_text(k) {
        if field == bit::TEXT {
            return put_front(dst, at, &r.text.bytes, r.text.len);
        }
        let text = text_of(&r.ids, field);
        return put_front(dst, at, &text.bytes, text.len);
    }
    let v = numbers[k];
    let n = places::size_of(k);
    if n <= 8 {
        return put_number(dst, at, v, n);
    }
    let p = put_number(dst, at, v, 8);
    put_number(dst, p, r.told.fillprice[1], n - 8)
}

// Writes the fields whose bit stands, and returns the position after them.
pub(crate) fn put_fields(dst: &mut [u8], start: usize, r: &Record) -> usize
    requires { start + length (body r.now.map (held r.now) 32) ≤ length dst.old }
    ensures { (result ≡ start + length (body r.now.map (held r.now) 32)) × (dst.new ≡ splice dst.old start (body r.now.map (held r.now) 32)) }
{
    let numbers = numbers_of(r);
    let mut at = start;
    for b in 0..32u8 {
        at = put_field(dst, at, r, &numbers, b);
    }
    at
}
