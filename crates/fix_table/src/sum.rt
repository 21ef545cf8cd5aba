// The sum of bytes modulo 256, as a FIX trailer has it.
ghost use Rattle.std.specs.Prelude.{◌≡◌, ◌%◌};
ghost use Rattle.decimal.specs.Decimal.{low_digits};
ghost use Rattle.fix_words.specs.Message.{sum};

// A byte that wraps.
#[tactic(auto, using(fix_words::specs::Laws::Counting::sum_more))]
pub fn checksum(s: &[u8]) -> u8
    ensures { result ≡ sum s.now % 256 }
{
    let mut sum: u8 = 0;
    for x in s {
        sum = sum.wrapping_add(*x);
    }
    sum
}

// The sum as three digits, by hand: decimal's public functions write no leading zeros.
#[tactic(auto, unfolding(decimal::specs::Decimal::low_digits))]
pub fn sum_digits(s: &[u8]) -> [u8; 3]
    ensures { result ≡ low_digits 3 (sum s.now % 256) }
{
    let c = checksum(s);
    [b'0' + c / 10 / 10 % 10, b'0' + c / 10 % 10, b'0' + c % 10]
}
