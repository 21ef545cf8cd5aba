// A book's bytes, and how many of its orders and requests are in use. Rests on store's layout.
ghost use Rattle.std.specs.Prelude.{◌≤◌};
ghost use Rattle.store.specs.Layout.{most_orders, most_requests};

use store::layout::Bytes;

// No more orders and requests are in use than the tables hold.
#[derive(Clone, Copy)]
pub(crate) struct Book<'a> {
    pub bytes: &'a Bytes,
    pub orders: usize,
    pub requests: usize,
    ghost few_orders: { orders ≤ most_orders },
    ghost few_requests: { requests ≤ most_requests },
}
