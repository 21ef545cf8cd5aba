// The shape of a record: where it stands, its map, and where its fields start. Rests on format and places.
ghost use Rattle.std.specs.Prelude.{◌≡◌, ◌<◌, true, false, IfOk, IfErr};
ghost use Rattle.prelude.specs.Number.{Bytes};
ghost use Rattle.format.specs.Places.{kind_at, end_of, shaped};
ghost use Rattle.format.specs.Refusal.{message_shaped};
ghost use Rattle.format.specs.Laws.Seen.{between};
ghost use Rattle.records.specs.Laws.Seen.{Shapes};

use format::codes;
use prelude::Refusal;

// The bytes that the record stands in, where it starts, its map, and where its fields start (and at 32
// where it ends). That bytes are below 256 is stated too: of a slice in a struct it is not known.
#[derive(Clone, Copy)]
pub(crate) struct Shape<'a> {
    pub bytes: &'a [u8],
    pub start: usize,
    pub map: u32,
    pub at: [usize; 33],
    pub ghost small: { Bytes bytes.now },
    pub ghost stands: { Shapes bytes.now start map at },
}

impl<'a> Shape<'a> {
    ghost use Rattle.prelude.specs.declared.Refusal.TheVariants.{BadRecord};

    // The shape of the record that starts at o, if it has one. That o is below 65,536 stands in the contract,
    // as past that `places` has no places: a type for it would be made and taken apart at each call.
    pub(crate) fn new(bytes: &'a [u8], o: usize) -> Result<Shape<'a>, Refusal>
        requires { o < 65536 }
        ensures ok { IfOk result (λ shape. (shape.bytes.now ≡ bytes.now) × (shape.start ≡ o)) }
        ensures err { IfErr result (λ r. (shaped bytes.now o ≡ false) × (r ≡ BadRecord)) }
    {
        if places::left_at(bytes, o) < 5 {
            return Err(Refusal::BadRecord);
        }
        let p = o + 1;
        let map = words::get32(&bytes[p..p + 4]);
        if !format::bits_right(bytes[o], map) {
            return Err(Refusal::BadRecord);
        }
        let at = places::starts(bytes, map, o);
        if bytes.len() < at[32] {
            return Err(Refusal::BadRecord);
        }
        Ok(Shape {
            bytes,
            start: o,
            map,
            at,
        })
    }

    // The same of a message.
    pub(crate) fn of_message(bytes: &'a [u8], o: usize) -> Result<Shape<'a>, Refusal>
        requires { o < 65536 }
        ensures ok { IfOk result (λ shape. (shape.bytes.now ≡ bytes.now) × (shape.start ≡ o) × (message_shaped bytes.now o ≡ true)) }
        ensures err { IfErr result (λ r. (message_shaped bytes.now o ≡ false) × (r ≡ BadRecord)) }
    {
        let shape = Shape::new(bytes, o)?;
        if shape.kind() < codes::REPORT {
            return Err(Refusal::BadRecord);
        }
        Ok(shape)
    }

    // The record's kind.
    pub(crate) fn kind(&self) -> u8
        ensures { result ≡ kind_at self.now.bytes.now self.now.start }
    {
        self.bytes[self.start]
    }

    // Where the record ends.
    pub(crate) fn end(&self) -> usize
        ensures { result ≡ end_of self.now.bytes.now self.now.start }
    {
        self.at[32]
    }

    // The bytes of field b, none if its bit does not stand. By `as`: std has no `From<u32>` for usize.
    pub(crate) fn field(&self, b: u32) -> &'a [u8]
        requires { b < 32 }
        ensures { result.now ≡ between self.now.bytes.now self.now.at b }
    {
        let k = b as usize;
        &self.bytes[self.at[k]..self.at[k + 1]]
    }
}
