// A book that is known to keep its rules. Rests on `keeps`.
ghost use Rattle.std.specs.Prelude.{◌≡◌, true, false, IfOk, IfErr};
ghost use Rattle.rules.specs.Keeps.{keeps_of};

use prelude::Refusal;

// The bytes of a book that keeps its rules.
#[derive(Clone, Copy)]
pub struct Kept<'a> {
    pub bytes: &'a [u8],
    pub ghost kept: { keeps_of bytes.now ≡ true },
}

impl<'a> Kept<'a> {
    ghost use Rattle.prelude.specs.declared.Refusal.TheVariants.{BadBook};

    // The book, if it keeps its rules. No `TryFrom`: every rule is judged here, which is more than a
    // conversion, and `Kept::new(book)?` is as long.
    pub fn new(book: &'a [u8]) -> Result<Kept<'a>, Refusal>
        ensures ok { IfOk result (λ kept. kept.bytes.now ≡ book.now) }
        ensures err { IfErr result (λ refusal. (refusal ≡ BadBook) × (keeps_of book.now ≡ false)) }
    {
        if crate::keeps(book) {
            Ok(Kept { bytes: book })
        } else {
            Err(Refusal::BadBook)
        }
    }
}
