// A mark's name: what it may be, and how a place has it. Rests on format's letters and digits.
ghost use Rattle.std.specs.Prelude.{◌≡◌, true, false, IfOk, IfErr};
ghost use Rattle.marks.specs.Marks.{is_mark_name, name_bytes};

use prelude::Refusal;

// The most letters and digits of a name.
const LONGEST: usize = 16;

// The bytes of a name in a place.
pub(crate) const NAME: usize = 32;

// Whether a mark may bear that name.
#[tactic(auto, using(crate::proofs::Laws::Places::sizes), unfolding(crate::specs::Marks::is_mark_name))]
fn name_ok(name: &[u8]) -> bool
    ensures { result ≡ is_mark_name name.now }
{
    if name.is_empty() || name.len() > LONGEST {
        return false;
    }
    name.iter().all(|c| format::is_alnum(*c))
}

// A name that a mark may bear.
#[derive(Clone, Copy)]
pub(crate) struct Name<'a> {
    pub letters: &'a [u8],
    pub ghost right: { is_mark_name letters.now ≡ true },
}

impl<'a> Name<'a> {
    ghost use Rattle.prelude.specs.declared.Refusal.TheVariants.{BadName};

    // The name, if a mark may bear it.
    pub(crate) fn new(letters: &'a [u8]) -> Result<Name<'a>, Refusal>
        ensures ok { IfOk result (λ name. name.letters.now ≡ letters.now) }
        ensures err { IfErr result (λ refusal. (refusal ≡ BadName) × (is_mark_name letters.now ≡ false)) }
    {
        if name_ok(letters) {
            Ok(Name { letters })
        } else {
            Err(Refusal::BadName)
        }
    }

    // The name, and zeros after it.
    #[tactic(auto, unfolding(crate::specs::Marks::name_bytes))]
    pub(crate) fn bytes(&self) -> [u8; NAME]
        ensures { result ≡ name_bytes self.now.letters.now }
    {
        words::padded(self.letters)
    }
}
