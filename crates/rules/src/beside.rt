// One request's OrigClOrdID, in place, with the link that stands beside it. A struct of request and order
// would be made and taken apart again for each request, as in `numbers`. Rests on cells.
ghost use Rattle.std.specs.Prelude.{◌≡◌, ℕ, ◌<◌, true, ◌&&◌, ◌||◌};
ghost use Rattle.prelude.specs.Texts.{is_text};
ghost use Rattle.store.specs.Layout.{most_requests};
ghost use Rattle.store.specs.Book.{request_at, origin_at};
ghost use Rattle.machine.specs.Orders.{is_empty};
ghost use Rattle.machine.specs.Ranges.{text_within};
ghost use Rattle.rules.specs.Laws.Beside.{link_at};

use crate::cells::{same_at, u16_at};
use store::layout::{self, Bytes};

// The link of request k of order o, which has an OrigClOrdID.
#[tactic(auto, using(crate::proofs::Fields::request_fields), unfolding(crate::specs::Laws::Beside::link_at))]
fn link_ok(book: &Bytes, k: usize, o: usize, link: u16) -> bool
    requires { (k < most_requests) × ((request_at book.now k).order ≡ o) }
    ensures { result ≡ link_at book.now k link }
{
    let Some(j) = usize::from(link).checked_sub(1) else {
        return false;
    };
    if k <= j {
        return false;
    }
    let at = layout::REQUESTS + k * layout::REQUEST;
    let to = layout::REQUESTS + j * layout::REQUEST;
    let other = usize::from(u16_at(book, to + layout::REQUEST_ORDER));
    other == o
        && same_at(
            book,
            to + layout::REQUEST_CLORDID,
            at + layout::REQUEST_ORIGCLORDID,
        )
}

// The OrigClOrdID of request k of order o, which is a client's cancel or replace. It equals a ClOrdID before
// it, which is in range: so its own zeros need no look.
#[tactic(auto, using(crate::proofs::Fields::request_fields))]
pub(crate) fn origin_ok(book: &Bytes, k: usize, o: usize) -> bool
    requires { (k < most_requests) × ((request_at book.now k).order ≡ o) × ((i : ℕ) → i < k → is_text (request_at book.now i).clordid ≡ true) }
    ensures { result ≡ text_within 1 32 (request_at book.now k).origclordid && (is_empty (request_at book.now k).origclordid || link_at book.now k (origin_at book.now k)) }
{
    let at = layout::REQUESTS + k * layout::REQUEST;
    book[at + layout::REQUEST_ORIGCLORDID + layout::TEXT_LEN] != 0
        && link_ok(book, k, o, u16_at(book, at + layout::REQUEST_ORIGIN))
}
