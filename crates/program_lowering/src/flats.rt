// The statement of a flat program that is written for one that commands something.

ghost use Rattle.std.specs.Prelude.{◌≡◌, ◌++◌, ◌∷◌, [], ℕ, List, codes, decimal, is_some, map, take, OnOk};
ghost use Rattle.std.specs.Char.{to_ascii_uppercase};
ghost use Rattle.fixed_um.specs.Written.{written};
ghost use Rattle.dmis_program.specs.declared.sayings.StatementMeaning.TheVariants as said;
ghost use Rattle.program_lowering.specs.Flats.{components, components_text, flat_passed, flat_said, kind_of, note_line, place_text, text_for};
ghost use Rattle.program_lowering.specs.Lowering.{ended};

use dmis_program::{Keyword, StatementMeaning};
use dmis_text::Text;
use fixed_um::{Dir, Name, Point, write_dir, write_um};
use itoa::Buffer;
use std::alloc::AllocError;

/// Appends a number in decimal.
pub(crate) fn push_number(out: &mut Vec<u8>, number: u64) -> Result<(), AllocError>
    ensures { OnOk result (out.new.items ≡ out.old.items ++ decimal number) }
{
    let mut buffer = Buffer::new();
    out.extend_from_slice(buffer.format(number).as_bytes())
}

/// Appends what begins a note: the line of the source.
#[tactic(auto, unfolding(crate::specs::Flats::note_line))]
pub(crate) fn push_note_line(out: &mut Vec<u8>, line: u64) -> Result<(), AllocError>
    ensures { OnOk result (out.new.items ≡ out.old.items ++ note_line line) }
{
    out.extend_from_slice(b"dme: line ")?;
    push_number(out, line)?;
    out.extend_from_slice(b": ")
}

/// Appends a line: its mark, and what follows it.
pub(crate) fn push_named(out: &mut Vec<u8>, mark: &[u8], rest: &[u8]) -> Result<(), AllocError>
    ensures { OnOk result (out.new.items ≡ out.old.items ++ ended (mark.now ++ rest.now)) }
{
    out.extend_from_slice(mark)?;
    out.extend_from_slice(rest)?;
    out.extend_from_slice(b"\n")
}

/// Appends the three lengths of a point, with a comma between each two.
fn push_place(out: &mut Vec<u8>, point: Point) -> Result<(), AllocError>
    ensures { OnOk result (out.new.items ≡ out.old.items ++ place_text point) }
{
    write_um(out, point.x)?;
    out.push(b',')?;
    write_um(out, point.y)?;
    out.push(b',')?;
    write_um(out, point.z)
}

/// Appends the components of a direction, if one is given, each after a comma.
fn push_components(out: &mut Vec<u8>, direction: Option<Dir>) -> Result<(), AllocError>
    ensures { OnOk result (out.new.items ≡ out.old.items ++ components_text direction) }
{
    let Some(direction) = direction else {
        return Ok(());
    };
    out.push(b',')?;
    write_dir(out, direction, b",")
}

/// Appends a name between two texts.
pub(crate) fn push_between(
    out: &mut Vec<u8>,
    front: &[u8],
    name: &Name,
    back: &[u8],
) -> Result<(), AllocError>
    ensures { OnOk result (out.new.items
        ≡ out.old.items ++ (front.now ++ (name.now ++ back.now))) }
{
    out.extend_from_slice(front)?;
    out.extend_from_slice(name.as_bytes())?;
    out.extend_from_slice(back)
}

/// Appends letters as capitals.
pub(crate) fn push_capitals(out: &mut Vec<u8>, letters: &[u8]) -> Result<(), AllocError>
    ensures { OnOk result (out.new.items ≡ out.old.items ++ map to_ascii_uppercase letters.now) }
{
    for letter in letters {
        out.push(letter.to_ascii_uppercase())?;
    }
    Ok(())
}

/// The first bytes of a text, up to this many.
#[tactic(auto, using(crate::proofs::Takes::whole))]
pub(crate) fn front(text: &[u8], most: usize) -> &[u8]
    ensures { result.now ≡ take most text.now }
{
    if text.len() <= most {
        return text;
    }
    let (front, _) = text.split_at(most);
    front
}

/// Appends the kind of a feature.
fn push_kind(out: &mut Vec<u8>, params: &[Text]) -> Result<(), AllocError>
    ensures { OnOk result (out.new.items ≡ out.old.items ++ kind_of params.now) }
{
    let Some((kind, _)) = params.split_first() else {
        return Ok(());
    };
    push_capitals(out, front(kind, 64))
}

/// `MEAS/kind,F(name),n`.
fn push_beginning(
    out: &mut Vec<u8>,
    params: &[Text],
    name: &Name,
    count: u64,
) -> Result<(), AllocError>
    ensures { OnOk result (out.new.items ≡ out.old.items ++ text_for (flat_said Keyword.Meas
        params.now (said.Begins name.now count))) }
{
    out.extend_from_slice(b"MEAS/")?;
    push_kind(out, params)?;
    out.push(b',')?;
    push_between(out, b"F(", name, b")")?;
    out.push(b',')?;
    push_number(out, count)
}

/// What is written of the words that command nothing.
fn passed_text(keyword: Keyword) -> &'static [u8]
    ensures { result.now ≡ text_for (flat_passed keyword) }
{
    match keyword {
        Keyword::Dmismn => b"DMISMN",
        Keyword::Units => b"UNITS/MM",
        Keyword::Mode => b"MODE/PROG",
        _ => b"",
    }
}

/// Appends what is written of a statement with this keyword and these parameters that says this; nothing, if nothing is.
pub(crate) fn push_text(
    out: &mut Vec<u8>,
    keyword: Keyword,
    params: &[Text],
    meaning: &StatementMeaning,
) -> Result<(), AllocError>
    ensures { OnOk result (out.new.items
        ≡ out.old.items ++ text_for (flat_said keyword params.now meaning.now)) }
{
    match meaning {
        StatementMeaning::Goes(target) => {
            out.extend_from_slice(b"GOTO/CART,")?;
            push_place(out, *target)
        }
        StatementMeaning::Begins(name, count) => push_beginning(out, params, name, *count),
        StatementMeaning::Touches(target, direction) => {
            out.extend_from_slice(b"PTMEAS/CART,")?;
            push_place(out, *target)?;
            push_components(out, *direction)
        }
        StatementMeaning::Ends => out.extend_from_slice(b"ENDMES"),
        StatementMeaning::Selects(name) => {
            out.extend_from_slice(b"SNSLCT/")?;
            push_between(out, b"S(", name, b")")
        }
        StatementMeaning::Recalls(name) => {
            out.extend_from_slice(b"RECALL/")?;
            push_between(out, b"D(", name, b")")
        }
        StatementMeaning::Closes => out.extend_from_slice(b"ENDFIL"),
        StatementMeaning::Passes => out.extend_from_slice(passed_text(keyword)),
    }
}

/// Whether a statement with this keyword that says this is written.
pub(crate) fn is_written(keyword: Keyword, meaning: &StatementMeaning) -> bool
    ensures { (params : List (List ℕ)) → result ≡ is_some (flat_said keyword params meaning.now) }
{
    match meaning {
        StatementMeaning::Passes => match keyword {
            Keyword::Dmismn | Keyword::Units | Keyword::Mode => true,
            _ => false,
        },
        _ => true,
    }
}
