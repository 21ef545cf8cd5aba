// A value planned before it is written: where its bytes stand, or the number or fixed text that it is. Rests
// on fix_table, format and bits. A bit is an index of the parts here, as in a row (fix_table's `bit`), and
// once the number by which bits shifts (format's `bit`). A record's lengths are u64 and a bit's number is a
// u32 in bits: by `as`, which is proved to lose nothing, since std has no From between them and usize.
ghost use Rattle.std.specs.Prelude.{◌≡◌, ◌+◌, ◌-◌, ◌<◌, get_or};
ghost use Rattle.fix.specs.Laws.Plan.{plain_plan, fixed_plan, exec_plan, instead_plan, planned};

use fix_table::spoken::NONE;
use fix_table::{Form, bit, form_of};
use format::codes;
use records::parts::Parts;

// Places and no slices: the room is counted without the record, and the definitions of specs/Laws/Plan and
// their laws are of places.
#[derive(Clone, Copy)]
pub(crate) enum Value {
    // Bytes of a buffer.
    Bytes {
        from: usize,
        count: usize,
    },
    // A number with so many decimals.
    Number {
        n: u64,
        places: u8,
    },
    // A fill price that one word does not hold. Two members and no `[u64; 2]`: the laws of Plan, Planned and Putting
    // say `Price l h p`, and each would take the two out of a list: no plainer.
    Price {
        low: u64,
        high: u64,
        places: u8,
    },
    // A fixed text.
    Fixed(u64),
    // Bytes of a buffer, a point and a number.
    Exec {
        from: usize,
        count: usize,
        number: u64,
    },
}

// Where a text of n bytes that ends at `to` stands: from where, and how many.
pub(crate) fn text_place(to: usize, n: u64) -> (usize, usize)
    ensures { (result.0 ≡ to - n) × (result.1 ≡ n) }
{
    let count = n as usize;
    (to.saturating_sub(count), count)
}

// A bit that stands.
#[tactic(auto, using(fix_table::specs::Laws::Choices::choices), unfolding(crate::specs::Laws::Plan::plain_plan))]
fn plain(parts: &Parts, b: usize) -> Value
    requires { b < 32 }
    ensures { result ≡ plain_plan (get_or parts.now.at (b + 1) 0) (get_or parts.now.numbers b 0) parts.now.high b }
{
    let to = parts.at[b + 1];
    let n = parts.numbers[b];
    match form_of(b) {
        Form::Text => {
            let (from, count) = text_place(to, n);
            Value::Bytes { from, count }
        }
        Form::Code => Value::Bytes {
            from: to.saturating_sub(1),
            count: 1,
        },
        // Asked once, here: most prices fit one word, and `room` and `put` would each ask again which do.
        Form::Number(places) if b == bit::FILLPRICE && parts.high != 0 => Value::Price {
            low: n,
            high: parts.high,
            places,
        },
        Form::Number(places) => Value::Number { n, places },
    }
}

#[tactic(auto, using(fix_table::specs::Laws::Choices::choices), unfolding(crate::specs::Laws::Plan::fixed_plan))]
fn fixed(parts: &Parts) -> Option<Value>
    ensures { result ≡ fixed_plan parts.now.map (get_or parts.now.numbers 27 0) }
{
    let n = parts.numbers[bit::FIXEDTEXT];
    bits::has(parts.map, format::bit::FIXEDTEXT).then_some(Value::Fixed(n))
}

#[tactic(auto, using(fix_table::specs::Laws::Choices::choices), unfolding(crate::specs::Laws::Plan::exec_plan))]
fn exec(parts: &Parts) -> Option<Value>
    ensures { result ≡ exec_plan parts.now.map parts.now.at parts.now.numbers }
{
    let (from, count) = text_place(parts.at[bit::NAME + 1], parts.numbers[bit::NAME]);
    let number = parts.numbers[bit::EXEC];
    bits::has(parts.map, format::bit::EXEC).then_some(Value::Exec {
        from,
        count,
        number,
    })
}

// What stands in a reject for a bit that does not.
#[tactic(auto, using(fix_table::specs::Laws::Choices::choices), unfolding(crate::specs::Laws::Plan::instead_plan))]
fn instead(kind: u8, parts: &Parts, b: usize) -> Option<Value>
    ensures { result ≡ instead_plan kind parts.now.map (get_or parts.now.numbers 27 0) b }
{
    if kind != codes::CANCEL_REJECT {
        return None;
    }
    match b {
        bit::NAME => Some(Value::Fixed(NONE)),
        bit::TEXT => fixed(parts),
        _ => None,
    }
}

// The value of bit b of a message of this kind. That b is below 32 stands in this contract, in that of
// `plain` and of `put_body`, and in two of `write`: it is an index of the parts, and a type for it would be made
// of each row's number only to be taken apart here. It would say no more as a `Row`, which is public, and whose
// bit may be any number.
#[tactic(auto, using(fix_table::specs::Laws::Choices::choices), unfolding(crate::specs::Laws::Plan::planned))]
pub(crate) fn value_at(kind: u8, parts: &Parts, b: usize) -> Option<Value>
    requires { b < 32 }
    ensures { result ≡ planned kind parts.now.map parts.now.at parts.now.numbers parts.now.high b }
{
    match b {
        bit::EXEC => exec(parts),
        bit::FIXEDTEXT => fixed(parts),
        _ if bits::has(parts.map, b as u32) => Some(plain(parts, b)),
        _ => instead(kind, parts, b),
    }
}
