// Where in an expression a byte is, and where the operators are.

ghost use Rattle.std.specs.Prelude.{◌≡◌, ◌<◌, ◌+◌, ◌^◌, ◌≤◌, ◌==◌, IfSome, length, slice_index};
ghost use Rattle.std.specs.List.{list_all};
ghost use Rattle.program_flow.specs.ValueCuts as code;
ghost use Rattle.program_flow.specs.declared.places.Place.TheVariants.{Wanted};
ghost use Rattle.program_flow.specs.Parts as spec;

/// Where a byte is: an operand must begin, in a numeral, directly after its E, elsewhere in an operand or after it.
#[derive(Clone, Copy)]
pub enum Place {
    Wanted,
    InNumeral,
    AfterMark,
    Ended,
}

/// Operators that apply from left to right.
#[derive(Clone, Copy)]
pub enum Rank {
    Sums,
    Products,
    Powers,
}

/// An operator of two operands.
#[derive(Clone, Copy)]
pub enum Operator {
    Plus,
    Minus,
    Times,
    Over,
    Power,
}

pub(crate) fn is_blank(byte: u8) -> bool
    ensures { result ≡ spec.is_blank byte }
{
    byte == b' ' || byte == b'\t'
}

fn is_sign(byte: u8) -> bool
    ensures { result ≡ spec.is_sign byte }
{
    byte == b'+' || byte == b'-'
}

pub(crate) fn begins_numeral(byte: u8) -> bool
    ensures { result ≡ spec.begins_numeral byte }
{
    byte.is_ascii_digit() || byte == b'.'
}

fn is_in_numeral(place: Place, byte: u8) -> bool
    ensures { result ≡ spec.is_in_numeral place byte }
{
    match place {
        Place::AfterMark => is_sign(byte),
        Place::Wanted | Place::InNumeral | Place::Ended => false,
    }
}

fn in_operand(place: Place, byte: u8) -> Place
    ensures { result ≡ spec.in_operand place byte }
{
    match place {
        Place::Wanted if begins_numeral(byte) => Place::InNumeral,
        Place::InNumeral if begins_numeral(byte) => Place::InNumeral,
        Place::InNumeral if byte == b'E' => Place::AfterMark,
        _ => Place::Ended,
    }
}

fn place_after(place: Place, byte: u8) -> Place
    ensures { result ≡ spec.place_after place byte }
{
    match byte {
        b' ' | b'\t' => place,
        b'+' | b'-' | b'*' | b'/' | b'(' if !is_in_numeral(place, byte) => Place::Wanted,
        _ => in_operand(place, byte),
    }
}

pub(crate) fn depth_after(depth: usize, byte: u8) -> usize
    requires { depth + 1 < 2 ^ 64 }
    ensures value { result ≡ spec.depth_after depth byte }
    ensures within { result ≤ depth + 1 }
{
    match byte {
        b'(' => depth + 1,
        b')' => depth.saturating_sub(1),
        _ => depth,
    }
}

fn begins_with_star(text: &[u8]) -> bool
    ensures { result ≡ (slice_index text.now 0 == 42) }
{
    match text {
        [b'*', ..] => true,
        _ => false,
    }
}

fn has_rank(rank: Rank, byte: u8, next: &[u8]) -> bool
    ensures { result ≡ spec.has_rank rank byte next.now }
{
    match rank {
        Rank::Sums => is_sign(byte),
        Rank::Products => byte == b'/' || byte == b'*' && !begins_with_star(next),
        Rank::Powers => byte == b'*' && begins_with_star(next),
    }
}

fn is_operator(rank: Rank, depth: usize, place: Place, byte: u8, next: &[u8]) -> bool
    ensures { result ≡ spec.is_operator rank depth place byte next.now }
{
    match place {
        Place::Wanted => false,
        _ => depth == 0 && !is_in_numeral(place, byte) && has_rank(rank, byte, next),
    }
}

/// Where the last operator of a rank is, outside parentheses.
fn operator_from(rank: Rank, depth: usize, place: Place, text: &[u8]) -> Option<usize>
    requires { depth + length text.now < 2 ^ 64 }
    ensures value { result ≡ spec.last_operator rank depth place text.now }
    ensures within { IfSome result (λ i. i < length text.now) }
{
    let [byte, next @ ..] = text else {
        return None;
    };
    let depth_next = depth_after(depth, *byte);
    match operator_from(rank, depth_next, place_after(place, *byte), next) {
        Some(index) => Some(index + 1),
        None if is_operator(rank, depth, place, *byte, next) => Some(0),
        None => None,
    }
}

/// Whether no operator of a rank begins with this byte.
fn lacks(rank: Rank, byte: u8) -> bool
    ensures { result ≡ code.lacks rank byte }
{
    match rank {
        Rank::Sums => !is_sign(byte),
        Rank::Products => !(byte == b'/' || byte == b'*'),
        Rank::Powers => byte != b'*',
    }
}

fn all_lack(rank: Rank, text: &[u8]) -> bool
    ensures { result ≡ list_all (code.lacks rank) text.now }
{
    text.iter().all(|byte| lacks(rank, *byte))
}

/// Where the last operator of a rank is in a whole text.
pub(crate) fn last_operator(rank: Rank, text: &[u8]) -> Option<usize>
    ensures value { result ≡ spec.last_operator rank 0 Wanted text.now }
    ensures within { IfSome result (λ i. i < length text.now) }
{
    if all_lack(rank, text) {
        return None;
    }
    let _in_memory = text.len();
    operator_from(rank, 0, Place::Wanted, text)
}

pub(crate) fn operator_of(rank: Rank, byte: u8) -> Operator
    ensures { result ≡ spec.operator_of rank byte }
{
    match rank {
        Rank::Sums if byte == b'-' => Operator::Minus,
        Rank::Sums => Operator::Plus,
        Rank::Products if byte == b'/' => Operator::Over,
        Rank::Products => Operator::Times,
        Rank::Powers => Operator::Power,
    }
}

pub(crate) fn operator_length(rank: Rank) -> usize
    ensures value { result ≡ spec.operator_length rank }
    ensures few { result ≤ 2 }
{
    match rank {
        Rank::Sums | Rank::Products => 1,
        Rank::Powers => 2,
    }
}
