// The divisions of `wide`, and the price of a fill that an event takes, as C functions, for the test
// and the bench of tests/divisions alone: they are no part of the gateway's library. Rests on wide.
#![tactic(auto)]

ghost use Rattle.std.specs.Prelude.{◌≡◌, ◌+◌, ◌*◌, ◌^◌};
ghost use Rattle.wide.specs.Wide.{words, nearest, fill_price};

// Two words, the low one first, as the C structure has them.
#[repr(C)]
#[derive(Clone, Copy)]
pub struct Words {
    pub words: [u64; 2],
}

// The single word's division.
#[unsafe(no_mangle)]
pub extern "C" fn divide_plain(n: u64, d: u64) -> u64
    ensures { result ≡ nearest n d }
{
    wide::plain(n, d)
}

// The two-word division.
#[unsafe(no_mangle)]
pub extern "C" fn divide_long(low: u64, high: u64, d: u64) -> Words
    ensures { result.words ≡ words (nearest (low + 2 ^ 64 * high) d) }
{
    Words {
        words: wide::long([low, high], d),
    }
}

// Whichever of the two a price takes.
#[unsafe(no_mangle)]
pub extern "C" fn divide_either(low: u64, high: u64, d: u64) -> Words
    ensures { result.words ≡ words (nearest (low + 2 ^ 64 * high) d) }
{
    Words {
        words: wide::quotient([low, high], d),
    }
}

// A price in two words, the low one first, and its source, as the C structure has them.
#[repr(C)]
#[derive(Clone, Copy)]
pub struct Price {
    pub words: [u64; 2],
    pub source: u64,
}

// The price of a fill and its source, by the function that `report` calls. C gives the seven numbers one by
// one.
#[unsafe(no_mangle)]
pub extern "C" fn price_of(
    lastqty: u64,
    lastpx: u64,
    cumqty: u64,
    avgpx: u64,
    oldcum: u64,
    oldavg: u64,
    rise: u64,
) -> Price
    ensures { (result.words ≡ (fill_price lastqty lastpx cumqty avgpx oldcum oldavg rise).price) × (result.source ≡ (fill_price lastqty lastpx cumqty avgpx oldcum oldavg rise).source) }
{
    let fill = wide::Fill {
        lastqty,
        lastpx,
        cumqty,
        avgpx,
        oldcum,
        oldavg,
        rise,
    };
    let priced = fill.price();
    let words = priced.price;
    Price {
        words,
        source: u64::from(priced.source),
    }
}
