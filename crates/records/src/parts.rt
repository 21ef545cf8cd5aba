// A message in place: where its fields stand, and the numbers in them, with no copy of its texts. Rests
// on `take`, `shape` and `scan`.
ghost use Rattle.records.specs.Parts.{PartsOf, parts_refusal};
ghost use Rattle.prelude.specs.Refusal.{number_of};
ghost use Rattle.std.specs.Prelude.{◌≡◌, IfOk, IfErr};

use crate::shape::Shape;
use crate::take;
use format::bit;
use prelude::Refusal;

// A message's map, where its fields start (and at 32 where it ends), the number of each field (of a
// text its length), and the upper word of the fill price. Two arrays by field, not one of structs: `at`
// has one entry more, and is the record's shape as it was found. And no methods by field: fix's contracts
// speak of the arrays, and a method would say of the same index what the array says.
#[derive(Clone, Copy)]
pub struct Parts {
    pub map: u32,
    pub at: [usize; 33],
    pub numbers: [u64; 32],
    pub high: u64,
}

// A message, from a slice that is one whole record.
pub fn message_parts(s: &[u8]) -> Result<Parts, Refusal>
    ensures ok { IfOk result (PartsOf s.now) }
    ensures err { IfErr result (λ r. number_of r ≡ parts_refusal s.now) }
{
    let shape = Shape::of_message(s, 0)?;
    if shape.end() != s.len() {
        return Err(Refusal::BadRecord);
    }
    let mut numbers = [0u64; 32];
    crate::numbers_in(&shape, &mut numbers)?;
    let high = take::high_in(shape.field(bit::FILLPRICE));
    Ok(Parts {
        map: shape.map,
        at: shape.at,
        numbers,
        high,
    })
}
