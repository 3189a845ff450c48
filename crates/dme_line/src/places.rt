// What the arguments of a move, a touch or a transformation say.

ghost use Rattle.std.specs.Prelude.{◌≡◌, ◌∷◌, MatchOption, IfSome, Option, Some, None};
ghost use Rattle.fixed_um.specs.Calls.{Finds};
ghost use Rattle.std.specs.Option.{option_copied, option_map};
ghost use Rattle.fixed_um.specs.Shapes.{Direction};
ghost use Rattle.dme_line.specs.Arguments.{single_of, triple_of, single_named, triple_named, IsAxis, IsAlong, IsTarget, IsPlace, EndsWithAlong};
ghost use Rattle.dme_line.specs.Taken.{the_argument, the_list, the_words};
ghost use Rattle.dme_line.specs.Tokens.{Open, tokens};

use crate::arguments::{Argument, Place, is_closed, read_place, take_next};
use crate::lengths::wire_length;
use crate::points::cut_written_point;
use crate::tokens::is_word;
use fixed_um::{Dir, Point, Um, read_dir};

impl<'a> Argument<'a> {
    fn single(&self, name: &[u8]) -> Option<&'a [u8]>
        ensures { option_copied result ≡ single_of name.now (the_argument self.now) }
    {
        match *self {
            Argument::Single(own, word) => is_word(name, own).then_some(word),
            Argument::Triple(_, _, _, _) => None,
        }
    }

    /// The three words of an argument with this name.
    fn triple(&self, name: &[u8]) -> Option<(&'a [u8], &'a [u8], &'a [u8])>
        ensures { option_map the_words result ≡ triple_of name.now (the_argument self.now) }
    {
        match *self {
            Argument::Single(_, _) => None,
            Argument::Triple(own, i, j, k) => is_word(name, own).then_some((i, j, k)),
        }
    }
}

impl<'a> Place<'a> {
    /// The word of the first argument with this name and one word.
    fn single(&self, name: &[u8]) -> Option<&'a [u8]>
        ensures { option_copied result ≡ single_named name.now (the_list self.now) }
    {
        let fourth = self.fourth.and_then(|argument| argument.single(name));
        self.first.single(name).or(
            self.second
                .single(name)
                .or(self.third.single(name).or(fourth)),
        )
    }

    /// The words of the first argument with this name and three words.
    fn triple(&self, name: &[u8]) -> Option<(&'a [u8], &'a [u8], &'a [u8])>
        ensures { option_map the_words result ≡ triple_named name.now (the_list self.now) }
    {
        let fourth = self.fourth.and_then(|argument| argument.triple(name));
        self.first.triple(name).or(
            self.second
                .triple(name)
                .or(self.third.triple(name).or(fourth)),
        )
    }

    fn axis(&self, name: &[u8]) -> Option<Um>
        ensures { Finds result (IsAxis name.now (the_list self.now)) }
    {
        wire_length(self.single(name)?)
    }

    /// The coordinates of the three axes.
    fn target(&self) -> Option<Point>
        ensures { Finds result (IsTarget (the_list self.now)) }
    {
        let x = self.axis(b"X")?;
        let y = self.axis(b"Y")?;
        let z = self.axis(b"Z")?;
        Some(Point { x, y, z })
    }

    /// The direction.
    fn along(&self) -> Option<Dir>
        ensures { Finds result (IsAlong (the_list self.now)) }
    {
        let (i, j, k) = self.triple(b"IJK")?;
        match read_dir(i, j, k) {
            Ok(direction) => direction,
            Err(_) => None,
        }
    }
}

/// The direction after the three axes, and nothing after it.
fn read_direction(bytes: &[u8]) -> Option<Dir>
    ensures { IfSome result (λ d. EndsWithAlong (tokens bytes.now) d) }
{
    let (argument, rest) = take_next(bytes)?;
    let (i, j, k) = argument.triple(b"IJK")?;
    if !is_closed(rest) {
        return None;
    }
    match read_dir(i, j, k) {
        Ok(direction) => direction,
        Err(_) => None,
    }
}

/// The target and the direction, if one is given, of a touch after its opening parenthesis, its axes in their written form and read at
/// once. `None` says nothing: it may be there in another form, or not at all.
#[inline(always)]
pub(crate) fn read_written_touch(bytes: &[u8]) -> Option<(Point, Option<Dir>)>
    ensures { IfSome result (λ t. IsPlace (Open ∷ tokens bytes.now) t.0 t.1) }
{
    let Some((target, rest)) = cut_written_point(bytes) else {
        return None;
    };
    if is_closed(rest) {
        return Some((target, None));
    }
    let along = read_direction(rest)?;
    Some((target, Some(along)))
}

/// The target of a move after its opening parenthesis, its axes in their written form. `None` says nothing, as with a touch.
#[inline(always)]
pub(crate) fn read_written_move(bytes: &[u8]) -> Option<Point>
    ensures { IfSome result (λ p. IsPlace (Open ∷ tokens bytes.now) p None) }
{
    let Some((target, rest)) = cut_written_point(bytes) else {
        return None;
    };
    if is_closed(rest) {
        return Some(target);
    }
    None
}

/// The target and the direction, if one is given, of a touch whose arguments are in any order and form.
pub(crate) fn read_touch(bytes: &[u8]) -> Option<(Point, Option<Dir>)>
    ensures { MatchOption result
        ((p : Point) (d : Option Direction) → IsPlace (tokens bytes.now) p d → ⊥)
        (λ t. IsPlace (tokens bytes.now) t.0 t.1) }
{
    let place = read_place(bytes)?;
    let target = place.target()?;
    match place.fourth {
        None => Some((target, None)),
        Some(_) => {
            let direction = place.along()?;
            Some((target, Some(direction)))
        }
    }
}

/// The target of a move, which is that of a touch without a direction.
pub(crate) fn read_move(bytes: &[u8]) -> Option<Point>
    ensures { Finds result (λ p. IsPlace (tokens bytes.now) p None) }
{
    match read_touch(bytes) {
        Some((target, None)) => Some(target),
        Some((_, Some(_))) => None,
        None => None,
    }
}
