// Tags: which command a line belongs to.

ghost use Rattle.std.specs.Prelude.{◌≡◌, ◌≤◌, ◌+◌, ◌++◌, ◌∷◌, [], ℕ, List, IsTrue, ◌↔◌, ◌&&◌, MatchOption};
ghost use Rattle.std.specs.Char.{is_ascii_digit};
ghost use Rattle.fixed_um.specs.Calls.{Grows, HasRoom};
ghost use Rattle.dme_line.specs.Tags.{four_digits, five_digits, written_tag, IsTag, IsNumbered, is_event_tag};
ghost use Rattle.fixed_um.specs.Written.{last_digit};

/// The tag of a line: five decimal digits, or `E` and four digits. A response has the tag of its command;
/// the event tag number 0 marks what a server says unasked (I++ DME Interface version 1).
///
/// Writing a tag requires a number of at most 99,999, or 9,999 for an event tag.
#[derive(Clone, Copy, Debug, PartialEq, Eq)]
pub enum Tag {
    Std(u32),
    Event(u16),
}

fn last_digit(value: u32) -> u8
    ensures { result ≡ last_digit value }
{
    b'0' + (value % 10) as u8
}

pub(crate) fn write_four_digits_reserved(out: &mut Vec<u8>, value: u32)
    requires { HasRoom out.old 4 }
    ensures text { out.new.items ≡ out.old.items ++ four_digits value }
    ensures grows { Grows out.old out.new 4 }
{
    let front = value / 100 % 100;
    let back = value % 100;
    out.push_reserved(b'0' + (front / 10) as u8);
    out.push_reserved(b'0' + (front % 10) as u8);
    out.push_reserved(b'0' + (back / 10) as u8);
    out.push_reserved(b'0' + (back % 10) as u8);
}

/// Appends the five bytes of a tag; the caller must have made room for them.
pub(crate) fn write_tag_reserved(out: &mut Vec<u8>, tag: Tag)
    requires { HasRoom out.old 5 }
    ensures text { out.new.items ≡ out.old.items ++ written_tag tag }
    ensures grows { Grows out.old out.new 5 }
{
    match tag {
        Tag::Std(number) => {
            out.push_reserved(last_digit(number / 10_000));
            write_four_digits_reserved(out, number);
        }
        Tag::Event(number) => {
            out.push_reserved(b'E');
            write_four_digits_reserved(out, u32::from(number));
        }
    }
}

fn digit(byte: u8) -> Option<u32>
    ensures { MatchOption result ((n : ℕ) → byte ≡ last_digit n → ⊥) (λ n. (n ≤ 9)
        × (byte ≡ 48 + n)) }
{
    if byte < b'0' || byte > b'9' {
        return None;
    }
    Some(u32::from(byte - b'0'))
}

/// Whether four bytes are decimal digits, all examined together.
#[inline(always)]
fn are_digits(a: u8, b: u8, c: u8, d: u8) -> bool
    ensures { result ≡ (((is_ascii_digit a && is_ascii_digit b) && is_ascii_digit c) && is_ascii_digit d) }
{
    a.is_ascii_digit() & b.is_ascii_digit() & c.is_ascii_digit() & d.is_ascii_digit()
}

/// The number that four digits write; `None` if they are not all digits.
#[inline(always)]
#[tactic(auto, using(crate::proofs::TagLemmas::no_four_digits, crate::proofs::TagLemmas::four_ranges))]
fn four_digits_value(a: u8, b: u8, c: u8, d: u8) -> Option<u32>
    ensures { MatchOption result
        ((n : ℕ) → four_digits n ≡ a ∷ b ∷ c ∷ d ∷ [] → ⊥)
        (λ n. (n ≤ 9999) × (four_digits n ≡ a ∷ b ∷ c ∷ d ∷ [])) }
{
    if !are_digits(a, b, c, d) {
        return None;
    }
    let front = u32::from(a - b'0') * 1000 + u32::from(b - b'0') * 100;
    Some(front + u32::from(c - b'0') * 10 + u32::from(d - b'0'))
}

/// A tag at the start of a line and what follows the one space that follows it; `None` if the line begins otherwise.
#[inline(always)]
pub(crate) fn cut_tag(line: &[u8]) -> Option<(Tag, &[u8])>
    ensures { MatchOption result
        ((tag : Tag) (text : List ℕ) → IsTag tag → line.now ≡ written_tag tag ++ (32 ∷ text) → ⊥)
        (λ p. IsTag p.0 × (line.now ≡ written_tag p.0 ++ (32 ∷ p.1.now))) }
{
    let [first, a, b, c, d, b' ', text @ ..] = line else {
        return None;
    };
    let behind = four_digits_value(*a, *b, *c, *d)?;
    if *first == b'E' {
        return Some((Tag::Event(behind as u16), text));
    }
    Some((Tag::Std(digit(*first)? * 10_000 + behind), text))
}

impl Tag {
    pub(crate) fn is_event(self) -> bool
        ensures { result ≡ is_event_tag self }
    {
        matches!(self, Tag::Event(_))
    }

    /// Whether a command can have this tag: its number is not 0.
    pub(crate) fn is_numbered(self) -> bool
        requires { IsTag self }
        ensures { IsTrue result ↔ IsNumbered self }
    {
        match self {
            Tag::Std(number) => number > 0,
            Tag::Event(number) => number > 0,
        }
    }
}
