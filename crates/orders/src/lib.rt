// Orders, the messages about them, and changes: the words in which the handling is written.
// Every public function is total and equals a definition of machine. Rests on machine, format and bits.
#![tactic(auto)]

ghost use Rattle.std.specs.Prelude.{◌≡◌};
ghost use Rattle.machine.specs.Changes.{unchanged};

use machine::{Change, Findings};
use store::{Order, Request};

pub mod alarm;
pub mod change;
pub mod message;
pub mod order;
pub mod reasons;

// How many times the gateway sends its cancel of an order before it gives up; `rules` holds a book to it.
pub const MAX_GATEWAY_CANCEL_TRIES: u8 = 3;

// A request that the book knows: its link, the request, its order, and what the handling needs
// beside them. Contracts name each part, as `known.now.link`: machine's definitions take them one by one, and
// the theorems name those parameters. It is lent, and so are an event's record beside it and the change that is
// written: each is large, and what is passed by value is copied.
#[derive(Clone, Copy)]
pub struct Known {
    pub findings: Findings,
    pub link: u16,
    pub request: Request,
    pub order: Order,
}

impl Known {
    // The order as it is left, at its place, and nothing else.
    pub fn leaving(&self, left: &Order, change: &mut Change)
        ensures { change.new ≡ unchanged self.now.findings.place left.now }
    {
        change::unchanged(self.findings.place, left, change);
    }
}
