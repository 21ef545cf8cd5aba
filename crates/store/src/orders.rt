// An order's record: 256 bytes, of which 247 are used; a pair of functions for each group of fields. A trait
// with ghost members for what each reads, its widths and its pieces would be longer than the six pairs.
// Rests on cells.
ghost use Rattle.std.specs.Prelude.{◌≡◌, [], ◌∷◌, ◌++◌, replicate};
ghost use Rattle.store.specs.Layout.{names·name, terms·side, state·status, links·amendments, pending·request, gateway·stage};
ghost use Rattle.prelude.specs.Pieces.{writes};
ghost use Rattle.store.specs.Orders.{malformed, unsent_of, stuck_of, stage_of, IsNames, FitsNames, widths_names, pieces_names, IsTerms, FitsTerms, widths_terms, pieces_terms, IsState, FitsState, widths_state, pieces_state, IsLinks, FitsLinks, widths_links, pieces_links, IsPending, FitsPending, widths_pending, pieces_pending, IsGateway, FitsGateway, widths_gateway, pieces_gateway, decode_order, FitsOrder, encode_order};

use crate::cells::{get_text, put, put_text, put16, put32, put64, u16_at, u32_at, u64_at};
use crate::layout::{self, ORDER};
use crate::{GatewayCancel, Links, Names, Order, Pending, State};
use prelude::Terms;

// The stages of a gateway cancel; 0 if there is none. They are numbers and no enum: any byte may stand there.
const UNSENT: u8 = 1;

const SENT: u8 = 2;

const STUCK: u8 = 3;

// Whether a stage and the link beside it do not go together.
#[tactic(auto, using(prelude::specs::Laws::Cases::if_true, prelude::specs::Laws::Cases::if_false), unfolding(crate::specs::Orders::malformed))]
fn malformed_pair(stage: u8, link: u16) -> bool
    ensures { result ≡ malformed stage link }
{
    if link == 0 {
        stage != 0
    } else {
        (stage == 0) | (stage > STUCK)
    }
}

// Whether a stage and its link show a cancel that is not sent. A malformed pair shows both flags.
#[tactic(auto, unfolding(crate::specs::Orders::unsent_of))]
pub fn unsent_of(stage: u8, link: u16) -> bool
    ensures { result ≡ unsent_of stage link }
{
    malformed_pair(stage, link) | (stage == UNSENT)
}

// Whether they show a stuck one.
#[tactic(auto, unfolding(crate::specs::Orders::stuck_of))]
pub fn stuck_of(stage: u8, link: u16) -> bool
    ensures { result ≡ stuck_of stage link }
{
    malformed_pair(stage, link) | (stage == STUCK)
}

#[tactic(auto, using(prelude::specs::Laws::Cases::if_true, prelude::specs::Laws::Cases::if_false), unfolding(crate::specs::Orders::stage_of))]
fn stage_of(g: GatewayCancel) -> u8
    ensures { result ≡ stage_of g }
{
    match (g.origdownstream, g.unsent, g.stuck) {
        (0, _, _) => 0,
        (_, true, _) => UNSENT,
        (_, _, true) => STUCK,
        _ => SENT,
    }
}

fn decode_names(s: &[u8; ORDER]) -> Names
    ensures { IsNames s.now result }
{
    Names {
        name: get_text(s, layout::NAME),
        clordid: get_text(s, layout::CLORDID),
        downstream: get_text(s, layout::DOWNSTREAM),
        symbol: get_text(s, layout::SYMBOL),
        venueorderid: get_text(s, layout::VENUEORDERID),
    }
}

fn encode_names(s: &mut [u8; ORDER], x: Names)
    ensures { (s.new ≡ writes s.old names·name widths_names (pieces_names x)) × FitsNames x }
{
    put_text(s, layout::NAME, x.name);
    put_text(s, layout::CLORDID, x.clordid);
    put_text(s, layout::DOWNSTREAM, x.downstream);
    put_text(s, layout::SYMBOL, x.symbol);
    put_text(s, layout::VENUEORDERID, x.venueorderid);
}

fn decode_terms(s: &[u8; ORDER]) -> Terms
    ensures { IsTerms s.now result }
{
    Terms {
        side: s[layout::SIDE],
        ordtype: s[layout::ORDTYPE],
        timeinforce: s[layout::TIMEINFORCE],
        qty: u64_at(s, layout::QTY),
        price: u64_at(s, layout::PRICE),
    }
}

fn encode_terms(s: &mut [u8; ORDER], x: Terms)
    ensures { (s.new ≡ writes s.old terms·side widths_terms (pieces_terms x)) × FitsTerms x }
{
    put(s, layout::SIDE, &[x.side]);
    put(s, layout::ORDTYPE, &[x.ordtype]);
    put(s, layout::TIMEINFORCE, &[x.timeinforce]);
    put64(s, layout::QTY, x.qty);
    put64(s, layout::PRICE, x.price);
}

fn decode_state(s: &[u8; ORDER]) -> State
    ensures { IsState s.now result }
{
    State {
        status: s[layout::STATUS],
        cumqty: u64_at(s, layout::CUMQTY),
        avgpx: u64_at(s, layout::AVGPX),
        execseq: u64_at(s, layout::EXECSEQ),
    }
}

fn encode_state(s: &mut [u8; ORDER], x: State)
    ensures { (s.new ≡ writes s.old state·status widths_state (pieces_state x)) × FitsState x }
{
    put(s, layout::STATUS, &[x.status]);
    put64(s, layout::CUMQTY, x.cumqty);
    put64(s, layout::AVGPX, x.avgpx);
    put64(s, layout::EXECSEQ, x.execseq);
}

fn decode_links(s: &[u8; ORDER]) -> Links
    ensures { IsLinks s.now result }
{
    Links {
        amendments: u16_at(s, layout::AMENDMENTS),
        current: u16_at(s, layout::CURRENT),
        cancel: u16_at(s, layout::CANCEL),
    }
}

fn encode_links(s: &mut [u8; ORDER], x: Links)
    ensures { (s.new ≡ writes s.old links·amendments widths_links (pieces_links x)) × FitsLinks x }
{
    put16(s, layout::AMENDMENTS, x.amendments);
    put16(s, layout::CURRENT, x.current);
    put16(s, layout::CANCEL, x.cancel);
}

fn decode_pending(s: &[u8; ORDER]) -> Pending
    ensures { IsPending s.now result }
{
    Pending {
        request: u16_at(s, layout::PENDING_REQUEST),
        qty: u64_at(s, layout::PENDING_QTY),
        price: u64_at(s, layout::PENDING_PRICE),
        ordtype: s[layout::PENDING_ORDTYPE],
        timeinforce: s[layout::PENDING_TIMEINFORCE],
    }
}

fn encode_pending(s: &mut [u8; ORDER], x: Pending)
    ensures { (s.new ≡ writes s.old pending·request widths_pending (pieces_pending x)) × FitsPending x }
{
    put16(s, layout::PENDING_REQUEST, x.request);
    put64(s, layout::PENDING_QTY, x.qty);
    put64(s, layout::PENDING_PRICE, x.price);
    put(s, layout::PENDING_ORDTYPE, &[x.ordtype]);
    put(s, layout::PENDING_TIMEINFORCE, &[x.timeinforce]);
}

fn decode_gateway(s: &[u8; ORDER]) -> GatewayCancel
    ensures { IsGateway s.now result }
{
    let stage = s[layout::STAGE];
    let origdownstream = u16_at(s, layout::ORIGDOWNSTREAM);
    GatewayCancel {
        tries: s[layout::TRIES],
        unsent: unsent_of(stage, origdownstream),
        stuck: stuck_of(stage, origdownstream),
        origdownstream,
        refusedsends: u32_at(s, layout::REFUSEDSENDS),
    }
}

// The last group, and zeros in the spare bytes behind it.
fn encode_gateway(s: &mut [u8; ORDER], x: GatewayCancel)
    ensures { (s.new ≡ writes s.old gateway·stage (widths_gateway ++ 9 ∷ []) (pieces_gateway x ++ replicate 9 0 ∷ [])) × FitsGateway x }
{
    put(s, layout::STAGE, &[stage_of(x)]);
    put(s, layout::TRIES, &[x.tries]);
    put16(s, layout::ORIGDOWNSTREAM, x.origdownstream);
    put32(s, layout::REFUSEDSENDS, x.refusedsends);
    put(s, layout::SPARE, &[0u8; 9]);
}

// The order in a record's bytes.
pub(crate) fn decode(s: &[u8; ORDER]) -> Order
    ensures { result ≡ decode_order s.now }
{
    Order {
        client: u16_at(s, layout::CLIENT),
        venue: u16_at(s, layout::VENUE),
        names: decode_names(s),
        terms: decode_terms(s),
        state: decode_state(s),
        links: decode_links(s),
        pending: decode_pending(s),
        gateway: decode_gateway(s),
    }
}

// The bytes of an order's record. Numbers fit their widths, and texts have 32 bytes.
#[tactic(auto, using(crate::specs::Laws::Orders::write_order))]
pub(crate) fn encode(o: Order) -> [u8; ORDER]
    ensures { (result ≡ encode_order o) × FitsOrder o }
{
    let mut s = [0u8; ORDER];
    put16(&mut s, layout::CLIENT, o.client);
    put16(&mut s, layout::VENUE, o.venue);
    encode_names(&mut s, o.names);
    encode_terms(&mut s, o.terms);
    encode_state(&mut s, o.state);
    encode_links(&mut s, o.links);
    encode_pending(&mut s, o.pending);
    encode_gateway(&mut s, o.gateway);
    s
}
