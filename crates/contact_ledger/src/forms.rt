// Fields that have their written form.

ghost use Rattle.std.specs.Prelude.{◌≡◌, ◌≢◌, ◌↔◌, ◌≤◌, ◌+◌, ◌++◌, ◌∷◌, [], ℕ, List, Option, decimal, codes, vec_capacity, MatchOption, IfOk, IsTrue, Ok, Some};
ghost use Rattle.contact_ledger.specs.Names.{Finds, IsName, ReadsDirection, Direction, IsDirection, written, written_component, Point, Frame, fields_of, fields_behind, IsLength, IsOnWire, IsFrame, IsTouch, point_fields, frame_fields, direction_fields, IsWrittenOrigin, IsKnown, known_fields, origin_fields, point_line};

use crate::features::Origin;
use crate::lines::{first_field, next_field};
use crate::openings::Version;
use crate::server_ledger::CONNECTION_MAX;
use fixed_um::{
    Dir, Frame, Name, Point, Um, read_dir, read_um, write_dir_reserved, write_um_reserved,
};
use itoa::Buffer;
use std::alloc::{AllocError, Global};

/// The number from 1 to `most` that a field is in decimal, without leading zeros.
pub fn read_number(field: &[u8], most: u64) -> Option<u64>
    ensures { Finds result (λ n. (1 ≤ n) × (n ≤ most) × (field.now ≡ decimal n)) }
{
    let Ok(text) = std::str::from_utf8(field) else {
        return None;
    };
    let Ok(number) = text.parse::<u64>() else {
        return None;
    };
    let mut buffer = Buffer::new();
    if number < 1 || number > most || buffer.format(number).as_bytes() != field {
        return None;
    }
    Some(number)
}

/// The name that a field is, without small letters.
pub fn read_name(alloc: Global, field: &[u8]) -> Result<Option<Name>, AllocError>
    ensures { IfOk result (λ found. Finds found (λ name. IsName name × (field.now ≡ name))) }
{
    let Some(name) = Name::new(alloc, field)? else {
        return Ok(None);
    };
    if name.as_bytes() != field {
        return Ok(None);
    }
    Ok(Some(name))
}

/// The direction whose components three numerals write, in any form.
fn direction_of(i: &[u8], j: &[u8], k: &[u8]) -> Option<Dir>
    ensures { Finds result (λ d. ReadsDirection i.now j.now k.now (Ok (Some d))) }
{
    match read_dir(i, j, k) {
        Ok(found) => found,
        Err(_) => None,
    }
}

fn are_fields(line: &[u8], i: &[u8], j: &[u8], k: &[u8]) -> bool
    ensures { IsTrue result ↔ (fields_of line.now ≡ i.now ∷ j.now ∷ k.now ∷ []) }
{
    let (first, rest) = first_field(line);
    let Some((second, rest)) = next_field(rest) else {
        return false;
    };
    let Some((third, rest)) = next_field(rest) else {
        return false;
    };
    next_field(rest).is_none() && first == i && second == j && third == k
}

/// Reads fields whose numerals have their written form: each is written again, and compared.
#[derive(Drop)]
pub struct Forms {
    form: Vec<u8>,
    ghost room: { 47 ≤ vec_capacity form },
}

impl Forms {
    /// The room in which numerals are written. Fails only if out of memory.
    pub fn new(alloc: Global) -> Result<Forms, AllocError> {
        let form = Vec::with_capacity(alloc, 47)?;
        Ok(Forms { form })
    }

    /// The length in millimetres that a field is.
    fn length(&mut self, field: &[u8]) -> Option<Um>
        ensures { Finds result (λ z. IsLength z × (field.now ≡ written z)) }
    {
        let Ok(length) = read_um(field, Um::wire_limit()) else {
            return None;
        };
        self.form.clear();
        write_um_reserved(&mut self.form, length);
        if self.form.as_slice() != field {
            return None;
        }
        Some(length)
    }

    #[tactic(auto, using(crate::proofs::OpeningLines::points))]
    pub(crate) fn point_line(&mut self, line: &[u8]) -> Option<Point>
        ensures { Finds result (λ p. IsOnWire p × (line.now ≡ point_line p)) }
    {
        let (x, rest) = first_field(line);
        let (y, rest) = next_field(rest)?;
        let (z, rest) = next_field(rest)?;
        let None = next_field(rest) else {
            return None;
        };
        let x = self.length(x)?;
        let y = self.length(y)?;
        let z = self.length(z)?;
        Some(Point { x, y, z })
    }

    /// The point of the next three fields, and what follows them.
    pub fn point<'a>(&mut self, rest: &'a [u8]) -> Option<(Point, &'a [u8])>
        ensures { MatchOption result
            ((p : Point) (more : List (List ℕ)) → IsOnWire p
            → fields_behind rest.now ≡ point_fields p ++ more → ⊥)
            (λ r. IsOnWire r.0
            × (fields_behind rest.now ≡ point_fields r.0 ++ fields_behind r.1.now)) }
    {
        let (x, rest) = next_field(rest)?;
        let (y, rest) = next_field(rest)?;
        let (z, rest) = next_field(rest)?;
        let x = self.length(x)?;
        let y = self.length(y)?;
        let z = self.length(z)?;
        Some((Point { x, y, z }, rest))
    }

    /// The frame of the next fields, and what follows them.
    pub fn frame<'a>(&mut self, rest: &'a [u8]) -> Option<(Frame, &'a [u8])>
        ensures { MatchOption result
            ((f : Frame) (more : List (List ℕ)) → IsFrame f
            → fields_behind rest.now ≡ frame_fields f ++ more → ⊥)
            (λ r. IsFrame r.0
            × (fields_behind rest.now ≡ frame_fields r.0 ++ fields_behind r.1.now)) }
    {
        let (word, rest) = next_field(rest)?;
        match word {
            [b'M'] => Some((Frame::Machine, rest)),
            [b'P'] => match self.point(rest) {
                Some((offset, rest)) => Some((Frame::Part(offset), rest)),
                None => None,
            },
            _ => None,
        }
    }

    /// The origin of version 2, where nothing follows it.
    fn second_origin(&mut self, rest: &[u8]) -> Option<Option<Origin>>
        ensures { Finds result (λ o. IsWrittenOrigin o × (fields_behind rest.now
            ≡ origin_fields o)) }
    {
        let (first, rest) = next_field(rest)?;
        if first == b"-".as_slice() {
            return match next_field(rest) {
                None => Some(None),
                Some(_) => None,
            };
        }
        let connection = read_number(first, CONNECTION_MAX)?;
        let Some((frame, rest)) = self.frame(rest) else {
            return None;
        };
        if next_field(rest).is_some() {
            return None;
        }
        Some(Some(Origin { connection, frame }))
    }

    /// What the fields of an origin say where nothing follows them.
    pub(crate) fn origin(&mut self, version: Version, rest: &[u8]) -> Option<Option<Origin>>
        ensures { Finds result (λ o. IsWrittenOrigin o × IsKnown version o
            × (fields_behind rest.now ≡ known_fields version o)) }
    {
        match version {
            Version::First => {
                if next_field(rest).is_some() {
                    return None;
                }
                Some(None)
            }
            Version::Second => self.second_origin(rest),
        }
    }

    /// The direction of the next three fields, and what follows them.
    fn components<'a>(&mut self, rest: &'a [u8]) -> Option<(Dir, &'a [u8])>
        ensures { MatchOption result
            ((d : Direction) (more : List (List ℕ)) → IsDirection d
            → fields_behind rest.now ≡ written_component d.i ∷ written_component d.j
            ∷ written_component d.k ∷ more → ⊥)
            (λ r. IsDirection r.0 × (fields_behind rest.now ≡ written_component r.0.i
            ∷ written_component r.0.j ∷ written_component r.0.k ∷ fields_behind r.1.now)) }
    {
        let (i, rest) = next_field(rest)?;
        let (j, rest) = next_field(rest)?;
        let (k, rest) = next_field(rest)?;
        let Some(direction) = direction_of(i, j, k) else {
            return None;
        };
        self.form.clear();
        write_dir_reserved(&mut self.form, direction, b" ");
        if !are_fields(self.form.as_slice(), i, j, k) {
            return None;
        }
        Some((direction, rest))
    }

    /// The direction of the next fields, or its absence, and what follows them.
    pub fn direction<'a>(&mut self, rest: &'a [u8]) -> Option<(Option<Dir>, &'a [u8])>
        ensures { MatchOption result
            ((d : Option Direction) (more : List (List ℕ)) → IsTouch d
            → fields_behind rest.now ≡ direction_fields d ++ more → ⊥)
            (λ r. IsTouch r.0
            × (fields_behind rest.now ≡ direction_fields r.0 ++ fields_behind r.1.now)) }
    {
        let (word, rest) = next_field(rest)?;
        match word {
            [b'N'] => Some((None, rest)),
            [b'D'] => match self.components(rest) {
                Some((direction, rest)) => Some((Some(direction), rest)),
                None => None,
            },
            _ => None,
        }
    }
}
