// Why a client's cancel or replace is refused.
ghost use Rattle.std.specs.Prelude.{◌≡◌};
ghost use Rattle.amend.specs.Why.{reject_of};

use crate::texts;
use machine::Reject;
use orders::reasons;

#[derive(Clone, Copy)]
pub(crate) enum Why {
    Cancelling, // the gateway is cancelling the order
    ReplacePending, // a replace of the order waits for its answer
    BelowFilled, // the quantity is below what is filled
    Blocked, // a risk block stands
    Duplicate, // the client already used the ClOrdID
    UnknownOrder, // no order of the OrigClOrdID
    Done, // the order is done
    TooMany, // the client has used as many ClOrdIDs as it may
    SideOrSymbol, // the order has another side or symbol
    Verdict(u8), // the verdict that the event brings
}

impl Why {
    // Its reason, and the number of its text: a byte of messages.
    #[tactic(auto, using(crate::specs::Laws::Why::verdict_lem))]
    pub(crate) fn reject(self) -> Reject
        ensures { result ≡ reject_of self }
    {
        let (reason, fixedtext) = match self {
            Why::Cancelling => (reasons::ALREADY_PENDING, texts::CANCELLING),
            Why::ReplacePending => (reasons::ALREADY_PENDING, texts::REPLACE_PENDING),
            Why::BelowFilled => (reasons::OTHER, texts::BELOW_FILLED),
            Why::Blocked => (reasons::OTHER, texts::BLOCKED),
            Why::Duplicate => (reasons::DUPLICATE, texts::DUPLICATE),
            Why::UnknownOrder => (reasons::UNKNOWN, texts::UNKNOWN_ORDER),
            Why::Done => (reasons::TOO_LATE, texts::DONE),
            Why::TooMany => (reasons::OTHER, texts::TOO_MANY),
            Why::SideOrSymbol => (reasons::OTHER, texts::SIDE_OR_SYMBOL),
            Why::Verdict(v) => (reasons::OTHER, v.saturating_add(texts::BEFORE_VERDICTS)),
        };
        Reject { reason, fixedtext }
    }
}
