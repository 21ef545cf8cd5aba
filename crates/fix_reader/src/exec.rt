// The ExecID: the order's name, a point, and a number of one word. Rests on `values` and `price`.
ghost use Rattle.std.specs.Prelude.{◌≡◌, ◌%◌, ◌∷◌, ◌++◌};
ghost use Rattle.decimal.specs.Decimal.{digits, number_in};
ghost use Rattle.fix_words.specs.Lists.{same, after};
ghost use Rattle.fix_reader.specs.Laws.Numbers.{word};

use crate::{price, values};

// The bytes behind the first point; none if there is no point.
fn behind_point(v: &[u8]) -> &[u8]
    ensures { result.now ≡ after 46 v.now }
{
    match v.iter().position(|c| *c == b'.') {
        Some(i) => &v[i + 1..],
        None => &[],
    }
}

// Whether a value is the ExecID of an order of this name.
#[tactic(auto, using(crate::specs::Laws::Special::exec_other, crate::specs::Laws::Special::exec_short, crate::specs::Laws::Special::exec_unpointed, crate::specs::Laws::Special::exec_pointed), unfolding(decimal::specs::Decimal::decimal))]
pub(crate) fn exec_fits(name: &[u8], v: &[u8]) -> bool
    ensures { result ≡ same (name.now ++ (46 ∷ digits (number_in (after 46 v.now) % word))) v.now }
{
    // Behind the first point of the whole value, as `fits` reads: a name may hold a point, and nothing here says
    // that this one holds none.
    match v.strip_prefix(name) {
        Some([b'.', number @ ..]) => values::spelled(number, price::wrapped(behind_point(v))[0], 0),
        _ => false,
    }
}
