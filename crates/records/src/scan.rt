// The numbers in a record's fields, and whether they are in range. Rests on places and words.
ghost use Rattle.std.specs.Prelude.{◌≡◌, true, false, IfOk, IfErr};
ghost use Rattle.prelude.specs.Below.{all_below};
ghost use Rattle.prelude.specs.declared.Refusal.TheVariants.{OutOfRange};
ghost use Rattle.format.specs.Places.{strip, value};
ghost use Rattle.format.specs.Laws.Seen.{right_in};
ghost use Rattle.records.specs.Laws.Seen.{Scanned, held_field, right_field};

use crate::shape::Shape;
use places::{is_text, may_hold};
use prelude::Refusal;

// The number in the bytes of field b; of a text its length.
fn value_of(b: u8, field: &[u8]) -> u64
    ensures { result ≡ value b (strip b field.now) }
{
    if is_text(usize::from(b)) {
        // By `as`, which is proved to lose nothing: std has no `From<usize>` for u64.
        return field.len().saturating_sub(1) as u64;
    }
    words::get64(field)
}

// The number in field b, if it is in range; 0 if its bit does not stand. A Result and no Option, of one
// refusal, here and for those above: each hands it on by `?`, and would have to name it instead.
fn checked(map: u32, b: u8, field: &[u8]) -> Result<u64, Refusal>
    ensures ok { IfOk result (λ v. (right_field map b field.now ≡ true) × (v ≡ held_field map b field.now)) }
    ensures err { IfErr result (λ r. (right_field map b field.now ≡ false) × (r ≡ OutOfRange)) }
{
    if !bits::has(map, u32::from(b)) {
        return Ok(0);
    }
    let v = value_of(b, field);
    if may_hold(usize::from(b), v) {
        Ok(v)
    } else {
        Err(Refusal::OutOfRange)
    }
}

// The numbers of all fields, of a text its length, if all are in range. By a bit's number as
// a u8: std has `From` of it for the u32 that bits takes and for a size, and of the index of `enumerate` none for
// u32.
pub(crate) fn values(shape: &Shape<'_>, numbers: &mut [u64; 32]) -> Result<(), Refusal>
    ensures ok { IfOk result (λ done. Scanned shape.now.bytes.now shape.now.map shape.now.at numbers.new) }
    ensures err { IfErr result (λ r. (all_below (right_in shape.now.bytes.now shape.now.map shape.now.at) 32 ≡ false) × (r ≡ OutOfRange)) }
{
    *numbers = [0u64; 32];
    for b in 0..32u8 {
        numbers[usize::from(b)] = checked(shape.map, b, shape.field(u32::from(b)))?;
    }
    Ok(())
}
