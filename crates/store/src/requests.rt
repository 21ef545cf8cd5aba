// A request's record: 128 bytes, of which 104 are its fields and 2 stand beside them. Rests on cells.
ghost use Rattle.std.specs.Prelude.{◌≡◌, eqb, get_or};
ghost use Rattle.prelude.specs.Cases.{if◌then◌otherwise◌};
ghost use Rattle.store.specs.Layout.{request·answered, request·outcome};
ghost use Rattle.store.specs.Requests.{WholeRequest, decode_request, encode_request};

use crate::Request;
use crate::cells::{get_text, put, put_text, put16, u16_at};
use crate::layout::{self, REQUEST};

// The request in a record's bytes.
pub(crate) fn decode(s: &[u8; REQUEST]) -> Request
    ensures { result ≡ decode_request s.now }
{
    Request {
        order: u16_at(s, layout::REQUEST_ORDER),
        kind: s[layout::REQUEST_KIND],
        answered: s[layout::REQUEST_ANSWERED],
        clordid: get_text(s, layout::REQUEST_CLORDID),
        origclordid: get_text(s, layout::REQUEST_ORIGCLORDID),
        downstream: get_text(s, layout::REQUEST_DOWNSTREAM),
        outcome: s[layout::REQUEST_OUTCOME],
    }
}

// The bytes of a request's record, with zeros behind its fields. Numbers fit their widths, and texts have
// 32 bytes.
#[tactic(auto, using(crate::specs::Laws::Requests::write_request))]
pub(crate) fn encode(r: Request) -> [u8; REQUEST]
    ensures { (result ≡ encode_request r) × WholeRequest r }
{
    let mut s = [0u8; REQUEST];
    put16(&mut s, layout::REQUEST_ORDER, r.order);
    put(&mut s, layout::REQUEST_KIND, &[r.kind]);
    put(&mut s, layout::REQUEST_ANSWERED, &[r.answered]);
    put_text(&mut s, layout::REQUEST_CLORDID, r.clordid);
    put_text(&mut s, layout::REQUEST_ORIGCLORDID, r.origclordid);
    put_text(&mut s, layout::REQUEST_DOWNSTREAM, r.downstream);
    put(&mut s, layout::REQUEST_OUTCOME, &[r.outcome]);
    put(&mut s, layout::REQUEST_ORIGIN, &[0u8; 24]);
    s
}

// The outcome that is given, if the request is not answered yet, else the one that it has.
#[tactic(auto, using(prelude::specs::Laws::Cases::if_true, prelude::specs::Laws::Cases::if_false))]
pub(crate) fn settled_as(s: &[u8; REQUEST], outcome: u8) -> u8
    ensures { result ≡ (if eqb (get_or s.now request·answered 0) 0 then outcome otherwise get_or s.now request·outcome 0) }
{
    if s[layout::REQUEST_ANSWERED] == 0 {
        outcome
    } else {
        s[layout::REQUEST_OUTCOME]
    }
}
