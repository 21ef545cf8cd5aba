// The alarms that an event raises. An answer has their numbers.
ghost use Rattle.std.specs.Prelude.{◌≡◌};
ghost use Rattle.orders.specs.Alarms.{alarm_number};

#[derive(Clone, Copy)]
pub enum Alarm {
    StuckCancel = 1, // the gateway cannot cancel the order
    Overfill = 2, // a report goes above the order's quantity
    UnknownOrder = 3, // a venue's event names no request
    UnknownAtVenue = 4, // the venue does not know a live order
    FillOnDoneOrder = 5, // a report fills an order that is done
    FilledShort = 6, // a Filled below the quantity
}

impl Alarm {
    pub fn number(self) -> u8
        ensures { result ≡ alarm_number self }
    {
        // By `as`: std has nothing else that gives the number of a variant. A `From<Alarm> for u8` would
        // be this line again, under a name that says less at the call.
        self as u8
    }
}
