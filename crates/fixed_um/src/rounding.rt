// The whole number nearest to a fraction whose denominator is a power of ten: in one machine word, and in two.

ghost use Rattle.std.specs.Prelude.{◌≡◌, ◌<◌, ◌*◌, ◌^◌, ◌≤◌, SomeIff};
ghost use Rattle.fixed_um.specs.Limits.{wire_limit};
ghost use Rattle.fixed_um.specs.Rounding.{RoundsUp};

fn power_of_ten(count: usize) -> u64
    requires { count ≤ 18 }
    ensures { result ≡ 10 ^ count }
{
    match count {
        0 => 1,
        1 => 10,
        2 => 100,
        3 => 1_000,
        4 => 10_000,
        5 => 100_000,
        6 => 1_000_000,
        7 => 10_000_000,
        8 => 100_000_000,
        9 => 1_000_000_000,
        10 => 10_000_000_000,
        11 => 100_000_000_000,
        12 => 1_000_000_000_000,
        13 => 10_000_000_000_000,
        14 => 100_000_000_000_000,
        15 => 1_000_000_000_000_000,
        16 => 10_000_000_000_000_000,
        17 => 100_000_000_000_000_000,
        18 => 1_000_000_000_000_000_000,
        _ => unreachable!("at most eighteen places"),
    }
}

/// The digits with that many zeros after them; `None` if that is past the limit. Multiplied only if the product fits a word.
pub fn raised_within(digits: u64, zeros: usize, limit: u64) -> Option<u64>
    requires zeros { zeros ≤ 6 }
    requires limit { limit ≤ wire_limit }
    ensures { SomeIff result (digits * 10 ^ zeros ≤ limit) (digits * 10 ^ zeros) }
{
    if digits > limit {
        return None;
    }
    let raised = digits * power_of_ten(zeros);
    if raised > limit { None } else { Some(raised) }
}

fn rounded_word(numerator: u64, denominator: u64) -> u64
    requires { 1 < denominator }
    ensures { RoundsUp numerator denominator result }
{
    let quotient = numerator / denominator;
    let remainder = numerator % denominator;
    quotient + u64::from(remainder >= denominator - remainder)
}

/// The digits divided by a power of ten, rounded, halves up, in one machine word.
pub fn word_scaled_down(digits: u64, places: usize) -> u64
    requires some { 0 < places }
    requires few { places ≤ 18 }
    ensures { RoundsUp digits (10 ^ places) result }
{
    rounded_word(digits, power_of_ten(places))
}

/// The digits with that many zeros after them; `None` if that does not fit 128 bits.
pub fn scaled_up(digits: u128, zeros: u32) -> Option<u128>
    ensures { SomeIff result (digits * 10 ^ zeros < 2 ^ 128) (digits * 10 ^ zeros) }
{
    if digits == 0 {
        return Some(0);
    }
    10u128.checked_pow(zeros)?.checked_mul(digits)
}

fn rounded_quotient(numerator: u128, denominator: u128) -> u128
    requires some { 0 < denominator }
    requires small { numerator < 10 ^ 30 }
    ensures { RoundsUp numerator denominator result }
{
    let quotient = numerator / denominator;
    let remainder = numerator % denominator;
    if remainder >= denominator - remainder {
        quotient + 1
    } else {
        quotient
    }
}

/// The digits divided by a power of ten, rounded, halves up.
pub fn scaled_down(digits: u128, places: u32) -> u128
    requires { digits < 10 ^ 30 }
    ensures { RoundsUp digits (10 ^ places) result }
{
    match 10u128.checked_pow(places) {
        Some(denominator) => rounded_quotient(digits, denominator),
        None => 0,
    }
}
