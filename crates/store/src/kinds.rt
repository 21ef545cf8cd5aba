// The kinds of requests: an order's first, a client's cancel and replace, and the gateway's own cancel,
// which is the last. Numbers and no enum, since any byte may stand in a book. Rests on nothing.

pub const FIRST: u8 = 0;

pub const CANCEL: u8 = 1;

pub const REPLACE: u8 = 2;

pub const GATEWAY: u8 = 3;
