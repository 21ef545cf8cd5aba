// The texts of our own that a field may be: the fixed texts 1 to 18, and NONE as 19. Numbers and no enum,
// since a record holds a fixed text as a number, which may be any; NONE alone is a number of ours.
ghost use Rattle.std.specs.Prelude.{◌≡◌, [], slice_index_or};
ghost use Rattle.fix_table.specs.Table.{spoken};

// NONE among the fixed texts.
pub const NONE: u64 = 19;

// Fixed text n; past the last it is empty.
#[tactic(auto, unfolding(crate::specs::Table::spoken, fix_words::specs::Values::texts))]
pub fn fixed_text(n: u64) -> &'static [u8]
    ensures { result.now ≡ slice_index_or spoken n [] }
{
    match n {
        1 => b"gateway is cancelling",
        2 => b"replace pending",
        3 => b"below filled",
        4 => b"blocked",
        5 => b"duplicate",
        6 => b"unknown order",
        7 => b"order is done",
        8 => b"too many requests",
        9 => b"side or symbol",
        10 => b"rejected by the venue",
        11 => b"not sent before restart",
        12 => b"Symbol",
        13 => b"OrderQty",
        14 => b"NoReferencePrice",
        15 => b"Notional",
        16 => b"PriceBand",
        17 => b"SelfTrade",
        18 => b"Credit",
        NONE => b"NONE",
        _ => b"",
    }
}
