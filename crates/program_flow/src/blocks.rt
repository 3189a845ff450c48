// The blocks of a text and its labels.

ghost use Rattle.std.specs.Prelude.{◌≡◌, ◌<◌, ◌+◌, ◌^◌, ◌≤◌, drop, take, length, IfSome};
ghost use Rattle.dmis_text.specs.declared.elements.Statement.{Statement};
ghost use Rattle.program_flow.specs.Blocks as spec;

use crate::values::is_text;
use dmis_text::{Statement, Text};

/// What a statement is to the flow.
#[derive(Clone, Copy)]
pub enum Part {
    If,
    Else,
    EndIf,
    Do,
    EndDo,
    Select,
    Case,
    DefaultCase,
    EndCase,
    EndSelect,
    Jump,
    Label,
    Other,
}

/// A loop that was entered: where its DO is, and its limit and increment then.
#[derive(Clone, Copy)]
pub struct Rounds {
    pub header: usize,
    pub limit: i64,
    pub step: i64,
}

/// A block that is open: its first place, and that of its end.
#[derive(Clone, Copy)]
pub struct Block {
    pub start: usize,
    pub end: usize,
    pub rounds: Option<Rounds>,
}

/// Where the flow goes from a statement: to a place in the same blocks, into one more, outside the innermost, or elsewhere.
#[derive(Clone, Copy)]
pub enum Move {
    Stay(usize),
    Enter(Block),
    Leave(usize),
    Jump(usize),
}

pub(crate) fn is_label(word: &[u8]) -> bool
    ensures { result ≡ spec.is_label word.now }
{
    matches!(word, [b'(', .., b')'])
}

fn part_alone(word: &[u8]) -> Part
    ensures { result ≡ spec.part_alone word.now }
{
    if is_text(word, "ELSE") {
        Part::Else
    } else if is_text(word, "ENDIF") {
        Part::EndIf
    } else if is_text(word, "ENDDO") {
        Part::EndDo
    } else if is_text(word, "DFTCAS") {
        Part::DefaultCase
    } else if is_text(word, "ENDCAS") {
        Part::EndCase
    } else if is_text(word, "ENDSEL") {
        Part::EndSelect
    } else if is_label(word) {
        Part::Label
    } else {
        Part::Other
    }
}

fn part_named(word: &[u8], params: &[Text]) -> Part
    ensures { result ≡ spec.part_named word.now params.now }
{
    if params.is_empty() {
        part_alone(word)
    } else if is_text(word, "IF") {
        Part::If
    } else if is_text(word, "DO") {
        Part::Do
    } else if is_text(word, "SELECT") {
        Part::Select
    } else if is_text(word, "CASE") {
        Part::Case
    } else if is_text(word, "JUMPTO") {
        Part::Jump
    } else {
        Part::Other
    }
}

/// What a statement is to the flow.
#[tactic(auto, unfolding(crate::specs::Blocks::part_of))]
pub(crate) fn part_of(statement: &Statement) -> Part
    ensures { result ≡ spec.part_of statement.now }
{
    if statement.label.is_some() {
        return Part::Other;
    }
    part_named(&statement.word, &statement.params)
}

fn opens(part: Part) -> bool
    ensures { result ≡ spec.opens part }
{
    matches!(
        part,
        Part::If | Part::Do | Part::Select | Part::Case | Part::DefaultCase
    )
}

fn closes(part: Part) -> bool
    ensures { result ≡ spec.closes part }
{
    matches!(
        part,
        Part::EndIf | Part::EndDo | Part::EndCase | Part::EndSelect
    )
}

pub(crate) fn matches_end(begun: Part, part: Part) -> bool
    ensures { result ≡ spec.matches begun part }
{
    match (begun, part) {
        (Part::If, Part::Else | Part::EndIf) => true,
        (Part::Else, Part::EndIf) => true,
        (Part::Do, Part::EndDo) => true,
        (Part::Select, Part::EndSelect) => true,
        (Part::Case | Part::DefaultCase, Part::EndCase) => true,
        _ => false,
    }
}

pub(crate) fn depth_after(depth: usize, part: Part) -> usize
    requires { depth + 1 < 2 ^ 64 }
    ensures value { result ≡ spec.depth_after depth part }
    ensures within { result ≤ depth + 1 }
{
    if opens(part) {
        depth + 1
    } else if closes(part) {
        depth.saturating_sub(1)
    } else {
        depth
    }
}

pub(crate) fn is_end(depth: usize, part: Part) -> bool
    ensures { result ≡ spec.is_end depth part }
{
    match part {
        Part::Else | Part::EndIf | Part::EndDo | Part::EndCase | Part::EndSelect => depth == 0,
        _ => false,
    }
}

/// Where the block ends that began with this part, in statements of which the first is in this place.
#[tactic(auto, unfolding(crate::specs::Blocks::end_of))]
pub(crate) fn end_of(
    begun: Part,
    depth: usize,
    place: usize,
    statements: &[Statement],
) -> Option<usize>
    requires depth { depth + length statements.now < 2 ^ 64 }
    requires place { place + length statements.now < 2 ^ 64 }
    ensures value { result ≡ spec.end_of begun depth place statements.now }
    ensures within { IfSome result (λ end. end < place + length statements.now) }
{
    let mut rest = statements;
    let mut at = place;
    let mut open = depth;
    while let [first, below @ ..] = rest {
        let part = part_of(first);
        if is_end(open, part) {
            return if matches_end(begun, part) {
                Some(at)
            } else {
                None
            };
        }
        open = depth_after(open, part);
        at += 1;
        rest = below;
    }
    None
}

/// Whether each block that begins in these statements ends there.
#[tactic(auto, unfolding(crate::specs::Blocks::is_level))]
pub(crate) fn is_level(depth: usize, statements: &[Statement]) -> bool
    requires { depth + length statements.now < 2 ^ 64 }
    ensures { result ≡ spec.is_level depth statements.now }
{
    let mut rest = statements;
    let mut open = depth;
    while let [first, below @ ..] = rest {
        open = depth_after(open, part_of(first));
        rest = below;
    }
    open == 0
}

fn is_label_part(part: Part) -> bool
    ensures { result ≡ spec.is_label_part part }
{
    matches!(part, Part::Label)
}

/// Where a label is, in statements of which the first is in this place.
#[tactic(auto, unfolding(crate::specs::Blocks::label_place))]
pub(crate) fn label_place(name: &[u8], place: usize, statements: &[Statement]) -> Option<usize>
    requires { place + length statements.now < 2 ^ 64 }
    ensures { result ≡ spec.label_place name.now place statements.now }
{
    let mut rest = statements;
    let mut at = place;
    while let [first, below @ ..] = rest {
        let word: &[u8] = &first.word;
        if is_label_part(part_of(first)) && word == name {
            return Some(at);
        }
        at += 1;
        rest = below;
    }
    None
}

/// The statements from a place on.
pub(crate) fn from<'a, 'b>(place: usize, statements: &'b [Statement<'a>]) -> &'b [Statement<'a>]
    ensures { result.now ≡ drop place statements.now }
{
    let (_, below) = statements.split_at(place.min(statements.len()));
    below
}

/// That many statements, or all.
pub(crate) fn first_of<'a, 'b>(count: usize, statements: &'b [Statement<'a>]) -> &'b [Statement<'a>]
    ensures { result.now ≡ take count statements.now }
{
    let (front, _) = statements.split_at(count.min(statements.len()));
    front
}

/// The innermost of these blocks that has a place in it, with those around it.
pub(crate) fn around(place: usize, blocks: &[Block]) -> &[Block]
    ensures { result.now ≡ spec.around place blocks.now }
{
    let mut rest = blocks;
    while let [first, outer @ ..] = rest
        && !(first.start <= place && place < first.end)
    {
        rest = outer;
    }
    rest
}

pub(crate) fn start_of(blocks: &[Block]) -> usize
    ensures { result ≡ spec.start_of blocks.now }
{
    match blocks {
        [first, ..] => first.start,
        [] => 0,
    }
}
