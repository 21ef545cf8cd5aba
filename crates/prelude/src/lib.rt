// The words of the definitions: specs and laws that every crate cites, the types that records
// and book share, why a call is refused, and what it returns to a host. Rests on the kit's library alone.
#![tactic(auto)]

ghost use Rattle.std.specs.Prelude.{◌≡◌};
ghost use Rattle.prelude.specs.Refusal.{number_of};
ghost use Rattle.prelude.specs.Counted.{counted_of, refusal_of};

// A text of at most 32 bytes: the bytes, zeros after the text, and its length, the form of docs/SCOPE.md.
#[derive(Clone, Copy, Debug, PartialEq, Eq)]
pub struct Text {
    pub bytes: [u8; 32],
    pub len: u8,
}

// What is ordered. A limit order has a price; a market order's is 0. A time in force that is not
// given is 0. In a replace event a type that is not given is 0. The fields are bytes as records and books
// hold them: any byte may stand in them, so they are numbers and no enum.
#[derive(Clone, Copy, Debug, PartialEq, Eq)]
pub struct Terms {
    pub side: u8,
    pub ordtype: u8,
    pub timeinforce: u8,
    pub qty: u64,
    pub price: u64,
}

// Why a call is refused (docs/SCOPE.md). The C functions return its number.
#[derive(Clone, Copy, Debug, PartialEq, Eq)]
pub enum Refusal {
    BadBook = 1, // the book has another length or does not keep its rules
    ShortAnswer = 2, // the answer buffer is too short
    BadRecord = 3, // the record does not read whole
    OutOfRange = 4, // a field is out of its range, or a code is not listed
    InUse = 5, // a booking's order name or ClOrdID is in use
    WrongPrice = 6, // a price without a limit, or a limit without a price
    FullBook = 7, // no free order or request record
    ShortPage = 8, // the page's buffer is too short
    BadText = 9, // a text of a FIX message is empty or has a byte below 32
    NoRoom = 10, // the buffer cannot hold the FIX message
    ShortNet = 11, // the net position's buffers are too short
    ShortList = 12, // the list cannot hold the chain
    BadName = 13, // a mark's name is malformed
    NoMark = 14, // no mark of that name
    NoPlace = 15, // no place is free for a mark
    BadArchive = 16, // the archive has another length or does not keep its rules
    InArchive = 17, // a name or ClOrdID of a done order stands in the archive
    FullArchive = 18, // the archive has no room for all done orders and their requests
}

impl Refusal {
    // A method and no `From<Refusal> for u32`: where it is called, its name says which number it is.
    pub fn number(self) -> u32
        ensures { result ≡ number_of self }
    {
        // By `as`: std has nothing else that gives the number of a variant.
        self as u32
    }
}

// What calls return to a host is a number beside a refusal, or the refusal alone. Inside, both are a `Result`.

// The refusal, or 0 and the number that was asked for. With a refusal the number is 0. The C structure
// has both fields, and the host's header names them: `opens` has a type of its own, with a quantity.
#[repr(C)]
#[derive(Clone, Copy)]
pub struct Counted {
    pub refusal: u32,
    pub number: u32,
}

impl From<Result<u32, Refusal>> for Counted {
    fn from(answer: Result<u32, Refusal>) -> Counted
        ensures { result ≡ counted_of answer }
    {
        match answer {
            Ok(number) => Counted { refusal: 0, number },
            Err(refusal) => Counted {
                refusal: refusal.number(),
                number: 0,
            },
        }
    }
}

// The number of the refusal, or 0. Written by way of `Counted::from`, which needs an answer with a number, it
// would be no plainer.
pub fn refusal_of(answer: Result<(), Refusal>) -> u32
    ensures { result ≡ refusal_of answer }
{
    match answer {
        Ok(()) => 0,
        Err(refusal) => refusal.number(),
    }
}
