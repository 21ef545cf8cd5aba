// The fixed texts that refusals are told with. Numbers and no enum: bytes of messages, in which any may
// stand. Rests on nothing.

pub(crate) const CANCELLING: u8 = 1;

pub(crate) const REPLACE_PENDING: u8 = 2;

pub(crate) const BELOW_FILLED: u8 = 3;

pub(crate) const BLOCKED: u8 = 4;

pub(crate) const DUPLICATE: u8 = 5;

pub(crate) const UNKNOWN_ORDER: u8 = 6;

pub(crate) const DONE: u8 = 7;

pub(crate) const TOO_MANY: u8 = 8;

pub(crate) const SIDE_OR_SYMBOL: u8 = 9;

pub(crate) const REJECTED: u8 = 10;

pub(crate) const NOT_SENT: u8 = 11;

// The verdicts' texts follow, from verdict 1 on.
pub(crate) const BEFORE_VERDICTS: u8 = NOT_SENT;
