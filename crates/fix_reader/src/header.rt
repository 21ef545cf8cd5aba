// The header of a message that was cut: 8 9 35 49 56 34 52, and what their values are. Rests on fix_table.
ghost use Rattle.std.specs.Prelude.{◌≡◌};
ghost use Rattle.fix_words.specs.Spelling.{fields_in};
ghost use Rattle.fix_reader.specs.Laws.Header.{tags_in, type_kind, texts_right, kind_number, kind_headed};

use crate::fields::Fields;
use crate::values;
use crate::walk::MessageKind;

// Whether the first seven tags are the header's.
fn tags_right(tag: &[u32; 32]) -> bool
    ensures { result ≡ tags_in tag.now }
{
    tag[..7] == [8, 9, 35, 49, 56, 34, 52]
}

// The kind of a MsgType.
#[tactic(auto, using(crate::specs::Laws::Header::one_type, crate::specs::Laws::Header::no_type, fix_words::specs::Laws::Held::one_byte))]
fn kind_of(v: &[u8]) -> Option<u8>
    ensures { result ≡ type_kind v.now }
{
    match v {
        [letter] => fix_table::kind_of(*letter),
        _ => None,
    }
}

// Whether the fields behind the MsgType are what they should be: texts, and a number.
fn texts_right(f: &Fields) -> bool
    ensures { result ≡ texts_right (fields_in f.now.message.now) }
{
    !f.value(3).is_empty()
        && !f.value(4).is_empty()
        && values::is_number(f.value(5))
        && !f.value(6).is_empty()
}

// The kind of a message, if its header is one that the writer yields.
#[tactic(auto, using(crate::specs::Laws::Header::kind_untagged, crate::specs::Laws::Header::kind_other, crate::specs::Laws::Header::kind_untyped, crate::specs::Laws::Header::kind_right, crate::specs::Laws::Header::kind_wrong, crate::specs::Laws::Header::type_within, crate::specs::Laws::Numbers::told_other, crate::specs::Laws::Numbers::told_same))]
pub(crate) fn kind(f: &Fields) -> Option<MessageKind>
    ensures { kind_number result ≡ kind_headed (fields_in f.now.message.now) }
{
    if !tags_right(&f.table.tag) {
        return None;
    }
    if f.value(0) != b"FIX.4.4".as_slice() {
        return None;
    }
    let number = kind_of(f.value(2))?;
    texts_right(f).then_some(MessageKind { number })
}
