// The call that gives a client's open quantity, which the book stores in the word of the client's first
// order (`index`). It writes nothing. Rests on rules and store.
#![tactic(auto)]

ghost use Rattle.std.specs.Prelude.{◌≡◌};
ghost use Rattle.opens.specs.Opens.{opened_of, open_call};

use prelude::Refusal;
use rules::Kept;

// The refusal, or 0 and the client's open quantity. With a refusal the quantity is 0. The C structure
// has both fields.
#[repr(C)]
#[derive(Clone, Copy)]
pub struct Opened {
    pub refusal: u32,
    pub quantity: u64,
}

impl From<Result<u64, Refusal>> for Opened {
    fn from(answer: Result<u64, Refusal>) -> Opened
        ensures { result ≡ opened_of answer }
    {
        match answer {
            Ok(quantity) => Opened {
                refusal: 0,
                quantity,
            },
            Err(refusal) => Opened {
                refusal: refusal.number(),
                quantity: 0,
            },
        }
    }
}

// The open quantity of a client, 0 for one without orders. Refuses a book that does not keep its rules.
#[tactic(auto, using(crate::specs::Laws::Calls::calls))]
pub fn open_quantity(book: &[u8], client: u16) -> Result<u64, Refusal>
    ensures { opened_of result ≡ open_call book.now client }
{
    let book = Kept::new(book)?;
    match store::find_client(book.bytes, client) {
        Some(i) => Ok(store::load_open(book.bytes, i)),
        None => Ok(0),
    }
}
