// A numeral, taken apart from its front.

ghost use Rattle.std.specs.Prelude.{◌≡◌, ◌<◌, ◌+◌, ◌^◌, length, IfSome, IsTrue, ◌↔◌, drop, ◌++◌, ◌≤◌, true};
ghost use Rattle.std.specs.List.{take_while, prefix_len, list_all};
ghost use Rattle.std.specs.Char.{is_ascii_digit};
ghost use Rattle.std.specs.Str.Parse.{starts_with_minus, without_leading_sign, AllDigits, digits_value, digits_value_after};
ghost use Rattle.fixed_um.specs.Scan.{digits_front, digits_behind, fraction_front, fraction_behind, exponent_digits, exponent_of, is_short_number, numeral_of};
ghost use Rattle.fixed_um.specs.Numerals.{Numeral};
ghost use Rattle.fixed_um.specs.Taken.{the_numeral};
ghost use Rattle.std.specs.Option.{option_map};

/// What a numeral says: its sign, the digits on both sides of the point, and the powers of ten of its exponent, of which one is 0.
#[derive(Clone, Copy)]
pub struct Parts<'a> {
    pub negative: bool,
    pub whole: &'a [u8],
    pub fraction: &'a [u8],
    pub raised: u32,
    pub lowered: u32,
}

/// Whether a minus comes first, and what follows a sign.
pub fn cut_sign(bytes: &[u8]) -> (bool, &[u8])
    ensures sign { result.0 ≡ starts_with_minus bytes.now }
    ensures rest { result.1.now ≡ without_leading_sign bytes.now }
{
    match bytes {
        [b'-', rest @ ..] => (true, rest),
        [b'+', rest @ ..] => (false, rest),
        _ => (false, bytes),
    }
}

fn count_digits(bytes: &[u8]) -> usize
    ensures count { result ≡ prefix_len is_ascii_digit bytes.now }
    ensures within { result ≤ length bytes.now }
{
    bytes.iter().take_while(|b| b.is_ascii_digit()).count()
}

fn cut_digits(bytes: &[u8]) -> (&[u8], &[u8])
    ensures front { result.0.now ≡ digits_front bytes.now }
    ensures behind { result.1.now ≡ digits_behind bytes.now }
{
    bytes.split_at(count_digits(bytes))
}

fn cut_fraction(bytes: &[u8]) -> (&[u8], &[u8])
    ensures front { result.0.now ≡ fraction_front bytes.now }
    ensures behind { result.1.now ≡ fraction_behind bytes.now }
{
    match bytes {
        [b'.', rest @ ..] => cut_digits(rest),
        _ => (&[], bytes),
    }
}

fn all_digits(bytes: &[u8]) -> bool
    ensures { result ≡ list_all is_ascii_digit bytes.now }
{
    bytes.iter().all(|b| b.is_ascii_digit())
}

fn is_short_number(bytes: &[u8]) -> bool
    ensures { result ≡ is_short_number bytes.now }
{
    all_digits(bytes) && bytes.len() >= 1 && bytes.len() <= 3
}

/// The number that digits write after a number that is there already.
fn digits_after(front: u128, digits: &[u8]) -> u128
    requires digits { AllDigits 10 digits.now }
    requires fits { digits_value_after 10 front digits.now < 10 ^ 30 }
    ensures { result ≡ digits_value_after 10 front digits.now }
{
    let mut value = front;
    for digit in digits {
        value = value * 10 + u128::from(*digit - b'0');
    }
    value
}

#[tactic(auto, using(crate::proofs::DigitLemmas::numbers))]
fn short_value(digits: &[u8]) -> u32
    requires { is_short_number digits.now ≡ true }
    ensures value { result ≡ digits_value 10 digits.now }
    ensures small { result < 1000 }
{
    digits_after(0, digits) as u32
}

#[tactic(auto, unfolding(crate::specs::Scan::exponent_of))]
fn read_exponent(bytes: &[u8]) -> Option<(u32, u32)>
    ensures value { result ≡ exponent_of bytes.now }
    ensures small { IfSome result (λ e. (e.0 < 1000) × (e.1 < 1000)) }
{
    let Some((mark, rest)) = bytes.split_first() else {
        return Some((0, 0));
    };
    if *mark != b'E' && *mark != b'e' {
        return None;
    }
    let (negative, digits) = cut_sign(rest);
    if !is_short_number(digits) {
        return None;
    }
    let value = short_value(digits);
    if negative {
        Some((0, value))
    } else {
        Some((value, 0))
    }
}

/// The parts of a numeral; `None` if the text is not a numeral.
#[tactic(auto, using(crate::proofs::DigitLemmas::numbers), unfolding(crate::specs::Scan::numeral_of))]
pub fn read_parts(bytes: &[u8]) -> Option<Parts<'_>>
    ensures parts { option_map the_numeral result ≡ numeral_of bytes.now }
    ensures whole { IfSome result (λ p. AllDigits 10 p.whole.now) }
    ensures fraction { IfSome result (λ p. AllDigits 10 p.fraction.now) }
    ensures small { IfSome result (λ p. (p.raised < 1000) × (p.lowered < 1000)) }
{
    let (negative, text) = cut_sign(bytes);
    let (whole, text) = cut_digits(text);
    let (fraction, text) = cut_fraction(text);
    let (raised, lowered) = read_exponent(text)?;
    if whole.is_empty() && fraction.is_empty() {
        return None;
    }
    Some(Parts {
        negative,
        whole,
        fraction,
        raised,
        lowered,
    })
}

impl Parts<'_> {
    ghost use Rattle.fixed_um.specs.Taken.{the_numeral};

    /// Whether at most 30 digits stand before the exponent.
    pub fn is_short(&self) -> bool
        ensures { IsTrue result ↔ (length (the_numeral self.now).digits ≤ 30) }
    {
        self.whole.len() <= 30 && self.fraction.len() <= 30 - self.whole.len()
    }

    /// The number that the digits on both sides of the point write.
    #[tactic(auto, using(crate::proofs::DigitLemmas::numbers))]
    pub fn digits_value(&self) -> u128
        requires whole { AllDigits 10 self.now.whole.now }
        requires fraction { AllDigits 10 self.now.fraction.now }
        requires short { length (the_numeral self.now).digits ≤ 30 }
        ensures value { result ≡ digits_value 10 (the_numeral self.now).digits }
        ensures small { result < 10 ^ 30 }
    {
        digits_after(digits_after(0, self.whole), self.fraction)
    }
}
