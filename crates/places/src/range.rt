// What a field may hold: of a number its value, of a text its length. Rests on format.
ghost use Rattle.std.specs.Prelude.{◌≡◌};
ghost use Rattle.places.specs.Ranges.{on_list, holds};

// The lists of codes.
#[derive(Clone, Copy)]
pub(crate) enum List {
    Side,
    OrdType,
    TimeInForce,
    ExecType,
    Status,
}

impl List {
    // Whether a number is on the list: a code is a byte.
    #[tactic(auto, using(crate::proofs::Ranges::above))]
    fn has(self, v: u64) -> bool
        ensures { result ≡ on_list self v }
    {
        let Ok(code) = u8::try_from(v) else {
            return false;
        };
        match self {
            List::Side => format::is_side(code),
            List::OrdType => format::is_ordtype(code),
            List::TimeInForce => format::is_timeinforce(code),
            List::ExecType => format::is_exectype(code),
            List::Status => format::is_status(code),
        }
    }
}

#[derive(Clone, Copy)]
pub(crate) enum Range {
    Any,
    UpTo(u64),
    Between(u64, u64),
    Code(List),
}

impl Range {
    pub(crate) fn has(self, v: u64) -> bool
        ensures { result ≡ holds self v }
    {
        match self {
            Range::Any => true,
            Range::UpTo(most) => v <= most,
            Range::Between(least, most) => (least..=most).contains(&v),
            Range::Code(list) => list.has(v),
        }
    }
}
