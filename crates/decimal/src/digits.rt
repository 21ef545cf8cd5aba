// Numbers whose decimal digits are taken off one by one, the lowest first: those of one word and those
// of two. A digit is below 10, so `as` is proved to lose nothing; and std has no `From<u32>` for usize. Rests
// on wide's `by_ten`.
ghost use Rattle.std.specs.Prelude.{◌≡◌, ◌/◌, ◌%◌, ◌≤◌, ℕ, length};
ghost use Rattle.std.proofs.Common.{arith};
ghost use Rattle.wide.specs.Wide.{value};
ghost use Rattle.decimal.specs.Decimal.{digits};

pub trait Digits: Copy {
    // The number, and how many digits the widest one has.
    ghost number: { Self → ℕ };

    ghost widest: { ℕ };

    // The number without its lowest digit, and that digit.
    fn split_lowest(self) -> (Self, u8)
        ensures rest { number result.0 ≡ number self / 10 }
        ensures lowest { result.1 ≡ number self % 10 };

    // How many digits the number has.
    fn width(self) -> usize
        ensures all { result ≡ length (digits (number self)) }
        ensures within { result ≤ widest };

    ghost widest_small: { widest ≤ 39 };
}

impl Digits for u64 {
    ghost number = { λ n. n };

    ghost widest = { 20 };

    ghost widest_small = { omega arith };

    fn split_lowest(self) -> (u64, u8) {
        (self / 10, (self % 10) as u8)
    }

    fn width(self) -> usize {
        self.checked_ilog10().map_or(1, |power| power as usize + 1)
    }
}

impl Digits for [u64; 2] {
    ghost number = { value };

    ghost widest = { 39 };

    ghost widest_small = { omega arith };

    fn split_lowest(self) -> ([u64; 2], u8) {
        let tenth = wide::by_ten(self);
        // A variable: the borrow checker covers no array field that is put straight into a tuple.
        let quotient = tenth.quotient;
        (quotient, tenth.digit as u8)
    }

    // The digits above one word, then those of the word.
    fn width(self) -> usize {
        let mut rest = self;
        let mut above = 0;
        // A `while`: it counts no index, and each turn goes on from what the last one left.
        while 0 < rest[1] {
            rest = wide::by_ten(rest).quotient;
            above += 1;
        }
        above + rest[0].width()
    }
}
