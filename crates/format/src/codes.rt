// The numbers of the record format, by name, once for all crates: FIX 4.4's codes that the handling
// names, and the kinds of records (docs/SCOPE.md). Any byte may stand in a record, so they are numbers
// and no enum. Rests on nothing.

// Side(54): a purchase. Every other is a sale.
pub const BUY: u8 = b'1';

// OrdStatus(39).
pub const PENDING_NEW: u8 = b'A';

pub const NEW: u8 = b'0';

pub const PARTIALLY_FILLED: u8 = b'1';

pub const FILLED: u8 = b'2';

pub const PENDING_CANCEL: u8 = b'6';

pub const PENDING_REPLACE: u8 = b'E';

pub const CANCELED: u8 = b'4';

pub const EXPIRED: u8 = b'C';

pub const REJECTED: u8 = b'8';

pub const DONE_FOR_DAY: u8 = b'3';

// OrdType(40).
pub const MARKET: u8 = b'1';

pub const LIMIT: u8 = b'2';

// ExecType(150): those that the handling names.
pub const EXEC_TRADE: u8 = b'F';

pub const EXEC_REPLACED: u8 = b'5';

pub const EXEC_REJECTED: u8 = b'8';

pub const EXEC_RESTATED: u8 = b'D';

pub const EXEC_DONE_FOR_DAY: u8 = b'3';

pub const EXEC_STATUS: u8 = b'I';

// The kinds of events, the first and the last among them.
pub const EVENT_BOOK: u8 = 1;

pub const EVENT_CANCEL: u8 = 2;

pub const EVENT_REPLACE: u8 = 3;

pub const EVENT_REPORT: u8 = 4;

pub const EVENT_UNKNOWN: u8 = 5;

pub const EVENT_CANCEL_REJECT: u8 = 6;

pub const EVENT_SEND_FAILED: u8 = 7;

pub const EVENT_SEND_AGAIN: u8 = 8;

pub const EVENT_GATEWAY_CANCEL: u8 = 9;

// The kinds of messages.
pub const REPORT: u8 = 16;

pub const CANCEL_REJECT: u8 = 17;

pub const NEW_ORDER: u8 = 18;

pub const CANCEL_REQUEST: u8 = 19;

pub const REPLACE_REQUEST: u8 = 20;

// The most that a quantity may be, a count of 1/10,000, and a price, a count of 10^-8.
pub const MOST_QTY: u64 = 1000000000000;

pub const MOST_PRICE: u64 = 100000000000000;
