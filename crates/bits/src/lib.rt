// Presence maps of 32 bits, by shifts and masks, and by the ones of a number. Rests on prelude.
#![tactic(auto)]

ghost use Rattle.std.specs.Prelude.{◌≡◌, ◌<◌};
ghost use Rattle.bits.specs.Map.{bit, digit, with_bit, standing};

// A bit of a map, 0 or 1.
pub fn digit_of(map: u32, k: u32) -> u32
    ensures { (result ≡ digit map k) × (result < 2) }
{
    map.checked_shr(k).unwrap_or(0) & 1
}

// Whether a bit of a map stands.
pub fn has(map: u32, k: u32) -> bool
    ensures { result ≡ bit map k }
{
    digit_of(map, k) == 1
}

// The map with one more bit.
pub fn with_bit(map: u32, k: u32) -> u32
    ensures { result ≡ with_bit map k }
{
    map | 1u32.checked_shl(k).unwrap_or(0)
}

// How many bits of a map stand: the ones of its number.
#[tactic(auto, using(crate::specs::Laws::Ones::ones_standing))]
pub fn standing(map: u32) -> u32
    ensures { result ≡ standing map }
{
    map.count_ones()
}
