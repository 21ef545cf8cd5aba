// The end of a message that was cut: 60 if the kind has it, 10 with the sum of all bytes before it, and
// that 9 is the length between. Rests on fix_table's `sum`.
ghost use Rattle.std.specs.Prelude.{◌≡◌, ◌-◌, [], ◌∷◌, length, drop};
ghost use Rattle.decimal.specs.Decimal.{digits};
ghost use Rattle.fix_words.specs.Lists.{same};
ghost use Rattle.fix_words.specs.Spelling.{fields_in, spellings};
ghost use Rattle.fix_words.specs.Message.{stamp, value_at};
ghost use Rattle.fix_claims.specs.Reading.{tag_of};
ghost use Rattle.fix_reader.specs.Laws.Checks.{init, sum_field, same_fields, kind_in, closed};
ghost use Rattle.fix_reader.specs.Laws.Ending.{sum_digits};

use crate::fields::Fields;
use crate::values;
use fix_table::sum::sum_digits;

// Whether a value is the sum of bytes in three digits.
#[tactic(auto, using(fix_words::specs::Laws::Lists::same_list))]
fn is_sum(s: &[u8], v: &[u8]) -> bool
    ensures { result ≡ same v.now (sum_digits s.now) }
{
    v == sum_digits(s).as_slice()
}

// Whether 10 is field i and the last.
#[tactic(auto, using(crate::specs::Laws::Ending::sum_elsewhere, crate::specs::Laws::Ending::sum_here, crate::specs::Laws::Ending::place_10, crate::specs::Laws::Cut::part_within))]
fn sum_right(f: &Fields, i: usize) -> bool
    ensures { result ≡ same_fields (drop i (fields_in f.now.message.now)) (sum_field (fields_in f.now.message.now) ∷ []) }
{
    if f.count().saturating_sub(i) != 1 || f.tag(i) != 10 {
        return false;
    }
    is_sum(&f.message[..f.at(i) - 3], f.value(i))
}

// Whether 60, if the kind has it, and 10 are the fields from i on, and the last. The kind's number alone, here and
// below: `stamp` takes it, and that it is one of five is not asked.
#[tactic(auto, using(crate::specs::Laws::Ending::stamp_none, crate::specs::Laws::Ending::stamp_past, crate::specs::Laws::Ending::stamp_here, crate::specs::Laws::Numbers::told_other, crate::specs::Laws::Numbers::told_same))]
fn fields_right(f: &Fields, kind: u8, i: usize) -> bool
    ensures { result ≡ same_fields (drop i (fields_in f.now.message.now)) (stamp kind (value_at (fields_in f.now.message.now) 6) (sum_field (fields_in f.now.message.now) ∷ [])) }
{
    if !fix_table::has_stamp(kind) {
        return sum_right(f, i);
    }
    i < f.count() && f.tag(i) == 60 && f.value(i) == f.value(6) && sum_right(f, i + 1)
}

// Whether 9 is the length from 35 to 10.
#[tactic(auto, using(crate::specs::Laws::Ending::three_more, crate::specs::Laws::Ending::places_order, crate::specs::Laws::Ending::length_between, crate::specs::Laws::Ending::same_turned), unfolding(decimal::specs::Decimal::decimal))]
fn length_right(f: &Fields) -> bool
    requires { (tag_of (fields_in f.now.message.now) 2 ≡ 35) × (tag_of (fields_in f.now.message.now) (length (fields_in f.now.message.now) - 1) ≡ 10) }
    ensures { result ≡ same (value_at (fields_in f.now.message.now) 1) (digits (length (spellings (drop 2 (init (fields_in f.now.message.now)))))) }
{
    let last = f.count() - 1;
    // By `as`: decimal's numbers are u64, for which std has no `From<usize>`.
    values::spelled(f.value(1), (f.at(last) - f.at(2)) as u64, 0)
}

// Whether the end is one that the writer yields, once the rows have taken the fields before i.
#[tactic(auto, using(crate::specs::Laws::Ending::last_tag), unfolding(crate::specs::Laws::Checks::closed))]
pub(crate) fn closed(f: &Fields, kind: u8, i: usize) -> bool
    requires { (kind ≡ kind_in (fields_in f.now.message.now)) × (tag_of (fields_in f.now.message.now) 2 ≡ 35) }
    ensures { result ≡ closed (fields_in f.now.message.now) (drop i (fields_in f.now.message.now)) }
{
    fields_right(f, kind, i) && length_right(f)
}
