// The flat program of a text.

ghost use Rattle.std.specs.Prelude.{◌≡◌, ◌≤◌, ◌<◌, ◌++◌, ◌∷◌, [], OnOk, IfOk, IfErr, List, Ok, Option, Some, map, true};
ghost use Rattle.dmis_program.specs.Keywords.{is_among, keyword_of};
ghost use Rattle.dmis_program.specs.Meaning.{closes, ended};
ghost use Rattle.dmis_program.specs.Outcomes.{fault_at, refused_at, Gives};
ghost use Rattle.dmis_text.specs.declared.elements.Statement.{Statement};
ghost use Rattle.program_flow.specs.Left.{IsGiven};
ghost use Rattle.program_lowering.specs.Carried.{GivesLines, GivesStep, KnowsAll, TakesCartesian, TakesValued, all_steps, entered, followed, left_out_after, nothing_carried, noted, seen_by, step, touch_steps, touched_step, frames_closed, judged_next};
ghost use Rattle.program_lowering.specs.EvenTouches.{from_centre, given_by, made_at, moving, notice};
ghost use Rattle.program_lowering.specs.Heads.{names_of};
ghost use Rattle.program_lowering.specs.declared.words.Reason.TheVariants.{Touched};
ghost use Rattle.program_lowering.specs.Lowered.{GivesLowered};
ghost use Rattle.program_lowering.specs.Lowering.{note_for, note_start, passed_over};
ghost use Rattle.program_lowering.specs.Prompts.{answered};
ghost use Rattle.program_lowering.specs.StoredFrames.{by_frame, if_stored};
ghost use Rattle.program_lowering.specs.Carried.{Carried};
ghost use Rattle.tool_rack.specs.Setups.{has_name};

use crate::above::Above;
use crate::cartesian::{Reference, Triple, cartesian_line};
use crate::even::{Even, Filling, Touch};
use crate::flats::{push_note_line, push_number};
use crate::heads::{SourceNames, with_head};
use crate::inches::inches_after;
use crate::lines::{push_line, text_refusal};
use crate::manual::{is_skipped, manual_after};
use crate::passes::PassTable;
use crate::prompts::{Answer, answered};
use crate::stored::{FrameNotes, FrameUses, stored_frame};
use crate::texts::is_operator_text;
use crate::values::{Values, labelled, read_back};
use crate::words::{
    Choices, Reason, joint, left_out, passed_reason, push_detail, push_touches, reason_text,
    start_text,
};
use dmis_program::{
    Frames, Keyword, ProgramFault, Refusal, StatementFault, StatementMeaning, keyword_of_word,
};
use dmis_text::{Statement, Statements, TextFault};
use program_flow::{Flow, Given, Number};
use std::alloc::{AllocError, Global};
use std::marker::Model;

/// The flat program of a text, and what was decided about it.
#[derive(Debug, Drop)]
pub struct Lowered {
    /// The flat program.
    pub text: Vec<u8>,
    /// One line for each statement of which nothing is written, with the reason; then one for each frame that alignments select.
    pub notes: Vec<u8>,
}

/// What is carried from statement to statement.
#[derive(Drop)]
struct Lowering {
    alloc: Global,
    above: Above,
    inches: bool,
    manual: bool,
    text: Vec<u8>,
    notes: Vec<u8>,
    frames: FrameNotes,
    uses: FrameUses,
    passes: PassTable,
}

impl Model for Lowering {
    ghost use Rattle.std.specs.Prelude.{◌≤◌, IfSome};
    ghost use Rattle.program_lowering.specs.Carried.{Carried};

    ghost Value = { Carried };

    ghost view = { λ l. record { above = l.above; inches = l.inches; manual = l.manual; text = l.text.items; notes = l.notes.items; frames = l.frames.text.items; since = l.frames.since; selected = l.uses.selected; used = l.uses.used.items; passes = l.passes } };

    ghost invariant = { λ l. (l.above.number ≤ 10000) × (l.above.touched ≤ l.above.number) × (IfSome l.frames.since (λ n. n ≤ l.above.number)) };
}

/// Appends what names a statement: its line and its word.
#[tactic(auto, unfolding(crate::specs::Lowering::note_start))]
fn push_start(notes: &mut Vec<u8>, statement: &Statement) -> Result<(), AllocError>
    ensures { OnOk result (notes.new.items ≡ notes.old.items ++ note_start statement.now) }
{
    push_note_line(notes, statement.line)?;
    notes.extend_from_slice(&statement.word)
}

/// Appends the line that says why nothing is written of a statement; nothing, if something is.
fn push_note(
    notes: &mut Vec<u8>,
    statement: &Statement,
    reason: Option<Reason>,
) -> Result<(), AllocError>
    ensures { OnOk result (notes.new.items ≡ notes.old.items ++ note_for statement.now reason) }
{
    let Some(reason) = reason else {
        return Ok(());
    };
    push_start(notes, statement)?;
    notes.extend_from_slice(joint(reason))?;
    notes.extend_from_slice(reason_text(reason))?;
    push_detail(notes, reason, &statement.params)?;
    Ok(notes.push(b'\n')?)
}

/// Appends the line that says what a block is given.
fn push_notice(notes: &mut Vec<u8>, line: u64, filling: &Filling) -> Result<(), AllocError>
    ensures { OnOk result (notes.new.items
        ≡ notes.old.items ++ note_for (notice line filling.now) (Some Touched)) }
{
    let mut count = Vec::new(*notes.allocator());
    push_number(&mut count, filling.count)?;
    push_note_line(notes, line)?;
    notes.extend_from_slice(b"ENDMES is given ")?;
    let start = start_text(filling.cylinder);
    push_touches(notes, &count, filling.name.as_bytes(), start)?;
    notes.extend_from_slice(b"\n")?;
    Ok(())
}

/// Why nothing is written of a statement with this keyword that says this.
fn passed_over(
    keyword: Keyword,
    statement: &Statement,
    meaning: &StatementMeaning,
) -> Option<Reason>
    requires { keyword ≡ keyword_of statement.now.word }
    ensures { result ≡ passed_over statement.now (Ok meaning.now) }
{
    match meaning {
        StatementMeaning::Passes if is_operator_text(statement) => None,
        StatementMeaning::Passes => passed_reason(keyword, &statement.word),
        _ => None,
    }
}

/// Whether a statement that says this closes the program.
fn closes(meaning: &StatementMeaning) -> bool
    ensures { result ≡ closes meaning.now }
{
    match meaning {
        StatementMeaning::Closes => true,
        _ => false,
    }
}

/// The fault of a statement that begins on this line.
fn fault_at(fault: StatementFault, line: u64) -> ProgramFault
    ensures { result ≡ fault_at fault line }
{
    match fault {
        StatementFault::Refused(refusal) => ProgramFault::Refused(refusal, line),
        StatementFault::Memory => ProgramFault::Memory,
    }
}

/// The statements of a text with these answers up to its end, or up to a line that cannot be read, with the refusal of that.
fn read_all<'a>(
    alloc: Global,
    answers: &'a [Answer],
    statements: &mut Statements<'a>,
) -> Result<(Vec<Statement<'a>>, Option<TextFault>), AllocError>
    ensures all { IfOk result (λ r. r.0.items ≡ map (answered answers.now) statements.old.left) }
    ensures end { IfOk result (λ r. r.1 ≡ statements.old.fault) }
    ensures lines { statements.new.lines ≡ statements.old.lines }
{
    let mut all = Vec::new(alloc);
    loop {
        match statements.next() {
            Ok(Some(statement)) => all.push(answered(alloc, answers, statement)?)?,
            Ok(None) => return Ok((all, None)),
            Err(TextFault::Memory) => return Err(AllocError),
            Err(fault) => return Ok((all, Some(fault))),
        }
    }
}

/// The line of a statement that comes out.
fn line_of(statements: &[Statement], given: &Given) -> u64
    requires { (s : Statement) × IsGiven statements.now given.now s }
    ensures { (s : Statement) → IsGiven statements.now given.now s → result ≡ s.line }
{
    match given {
        Given::Stated(place) => statements[*place].line,
        Given::Made(line, _) => *line,
    }
}

impl Lowering {
    /// Before any statement.
    fn new(alloc: Global) -> Lowering
        ensures { result ≡ nothing_carried }
    {
        Lowering {
            alloc,
            above: Above::none(),
            inches: false,
            manual: false,
            text: Vec::new(alloc),
            notes: Vec::new(alloc),
            frames: FrameNotes {
                text: Vec::new(alloc),
                since: None,
            },
            uses: FrameUses {
                selected: None,
                used: Vec::new(alloc),
            },
            passes: PassTable::new(alloc),
        }
    }

    /// Why a statement with this keyword is left out, where the operator measures or not. The first never is.
    fn left_out(
        &self,
        choices: Choices,
        manual: bool,
        keyword: Keyword,
        statement: &Statement,
    ) -> Option<Reason>
        requires { keyword ≡ keyword_of statement.now.word }
        ensures { result ≡ left_out_after choices self.now.above.number manual statement.now }
    {
        if self.above.number == 0 {
            return None;
        }
        if choices.skip_manual && is_skipped(manual, keyword, statement) {
            return Some(Reason::Manual);
        }
        left_out(choices, keyword, statement)
    }

    /// Writes a statement with this keyword that says this.
    fn follow(
        &mut self,
        keyword: Keyword,
        statement: &Statement,
        meaning: &StatementMeaning,
    ) -> Result<(), AllocError>
        requires keyword { keyword ≡ keyword_of statement.now.word }
        requires few { self.old.above.number < 10000 }
        ensures { OnOk result (self.new ≡ followed self.old statement.now meaning.now) }
    {
        let pass = self.passes.passes(statement.line);
        push_line(&mut self.text, keyword, statement, pass, meaning)?;
        push_note(
            &mut self.notes,
            statement,
            passed_over(keyword, statement, meaning),
        )?;
        self.uses.follow(meaning)?;
        self.frames.follow(statement.line, meaning)?;
        self.above = self.above.after(meaning);
        self.inches = inches_after(self.inches, keyword, statement);
        self.manual = manual_after(self.manual, keyword, statement);
        Ok(())
    }

    /// What a statement with this keyword that counts says, with frames by name, or the refusal that is due.
    #[tactic(auto, using(crate::proofs::FrameLemmas::frames))]
    fn judge(
        &self,
        choices: Choices,
        frames: &Frames,
        keyword: Keyword,
        statement: &Statement,
    ) -> Result<StatementMeaning, StatementFault>
        requires { keyword ≡ keyword_of statement.now.word }
        ensures due { Gives result (judged_next frames.now self.now
            (by_frame choices (has_name self.now.used) statement.now)) }
        ensures few { IfOk result (λ _. self.now.above.number < 10000) }
        ensures same { IfOk result (λ m. followed self.now statement.now m
            ≡ followed self.now (by_frame choices (has_name self.now.used) statement.now) m) }
    {
        if let Some(name) = stored_frame(self.alloc, choices, &self.uses, keyword, statement)? {
            return self.above.judge_frame(frames, name);
        }
        if let Some(refusal) = text_refusal(self.alloc, statement)? {
            return Err(StatementFault::Refused(refusal));
        }
        self.above
            .judge(self.alloc, frames, self.inches, keyword, statement)
    }

    /// Takes the next statement. True at the end of the program. If memory runs out, what was carried is of no use.
    fn take(
        &mut self,
        choices: Choices,
        frames: &Frames,
        statement: &Statement,
    ) -> Result<bool, StatementFault>
        ensures { GivesStep result self.new (step frames.now choices self.old statement.now) }
    {
        self.passes.enter(statement.line)?;
        let keyword = keyword_of_word(&statement.word);
        let manual = manual_after(self.manual, keyword, statement);
        if let Some(reason) = self.left_out(choices, manual, keyword, statement) {
            push_note(&mut self.notes, statement, Some(reason))?;
            self.manual = manual;
            return Ok(false);
        }
        let meaning = self.judge(choices, frames, keyword, statement)?;
        self.follow(keyword, statement, &meaning)?;
        Ok(closes(&meaning))
    }

    /// Takes the statement of a word with these Cartesian numbers, as if it were on this line.
    fn take_made(
        &mut self,
        choices: Choices,
        frames: &Frames,
        line: u64,
        word: &[u8],
        numbers: &[Number],
    ) -> Result<bool, StatementFault>
        requires { is_among word.now moving ≡ true }
        ensures { GivesStep result self.new (step frames.now choices self.old
            (made_at line word.now numbers.now)) }
    {
        let text = cartesian_line(self.alloc, word, numbers, &[])?;
        let made = read_back(self.alloc, line, &text)?;
        self.take(choices, frames, &made)
    }

    /// Takes a move to where a touch is made from, and the touch.
    fn take_touch(
        &mut self,
        choices: Choices,
        frames: &Frames,
        line: u64,
        touch: &Touch,
    ) -> Result<bool, StatementFault>
        ensures { GivesStep result self.new (all_steps frames.now choices self.old
            (from_centre line touch.now)) }
    {
        let start = [touch.from.0, touch.from.1, touch.from.2];
        if self.take_made(choices, frames, line, b"GOTO", &start)? {
            return Ok(true);
        }
        let (x, y, z) = touch.place;
        let (i, j, k) = touch.direction;
        let numbers = [x, y, z, i, j, k];
        self.take_made(choices, frames, line, b"PTMEAS", &numbers)
    }

    /// Likewise for each touch of these, and then a move to the end.
    fn take_touches(
        &mut self,
        choices: Choices,
        frames: &Frames,
        line: u64,
        end: &Triple,
        touches: &[Touch],
    ) -> Result<bool, StatementFault>
        ensures { GivesStep result self.new (touch_steps frames.now choices line end.now self.old
            touches.now) }
    {
        let [first, rest @ ..] = touches else {
            let end = [end.0, end.1, end.2];
            return self.take_made(choices, frames, line, b"GOTO", &end);
        };
        if self.take_touch(choices, frames, line, first)? {
            return Ok(true);
        }
        self.take_touches(choices, frames, line, end, rest)
    }

    /// Notes what a block is given.
    #[tactic(auto, unfolding(dmis_program::specs::Keywords::keyword_of))]
    fn note(&mut self, line: u64, filling: &Filling) -> Result<(), AllocError>
        ensures { OnOk result (self.new
            ≡ noted (entered self.old line) (notice line filling.now) (Some Touched)) }
    {
        self.passes.enter(line)?;
        push_notice(&mut self.notes, line, filling)
    }

    /// Takes what a block is given that ends on this line.
    fn take_filling(
        &mut self,
        choices: Choices,
        frames: &Frames,
        line: u64,
        filling: &Filling,
    ) -> Result<bool, StatementFault>
        ensures { GivesStep result self.new (all_steps frames.now choices self.old
            (given_by line (Some filling.now))) }
    {
        if self.above.number == 0 {
            return Err(StatementFault::Refused(Refusal::NotDmis));
        }
        self.note(line, filling)?;
        self.take_touches(choices, frames, line, &filling.end, &filling.touches)
    }

    /// The refusal of a text that ends here, without an `ENDFIL`, for this fault or for none, and has that many lines.
    fn missing_end(&self, end: Option<TextFault>, lines: u64) -> ProgramFault
        ensures { result ≡ refused_at (ended end self.now.above.number lines) }
    {
        match end {
            Some(TextFault::LineTooLong(line)) => ProgramFault::Refused(Refusal::LineTooLong, line),
            Some(TextFault::BadByte(line)) => ProgramFault::Refused(Refusal::BadByte, line),
            _ if self.above.number == 0 => ProgramFault::Refused(Refusal::NotDmis, 1),
            _ => ProgramFault::Refused(Refusal::Truncated, lines),
        }
    }

    /// The flat program, and what was decided. Fails only if out of memory.
    fn finish(self, choices: Choices) -> Result<Lowered, ProgramFault>
        ensures text { IfOk result (λ lowered. lowered.text.items ≡ self.text) }
        ensures notes { IfOk result (λ lowered. lowered.notes.items
            ≡ self.notes ++ if_stored choices (frames_closed self.frames self.since)) }
        ensures err { IfErr result (λ fault. fault ≡ ProgramFault.Memory) }
    {
        let Lowering {
            alloc: _,
            above: _,
            inches: _,
            manual: _,
            text,
            mut notes,
            mut frames,
            uses: _,
            passes: _,
        } = self;
        if choices.stored_frames && frames.push_to(&mut notes).is_err() {
            return Err(ProgramFault::Memory);
        }
        Ok(Lowered { text, notes })
    }
}

/// Takes the next statement of a text, with what is given before it. True at the end of the program.
fn take_touched(
    lowering: &mut Lowering,
    even: &mut Even,
    choices: Choices,
    frames: &Frames,
    statement: &Statement,
) -> Result<bool, StatementFault>
    ensures step { GivesStep result lowering.new
        (touched_step frames.now choices even.old lowering.old statement.now) }
    ensures seen { OnOk result (even.new ≡ seen_by choices even.old statement.now) }
{
    if !choices.even_touches {
        return lowering.take(choices, frames, statement);
    }
    let keyword = keyword_of_word(&statement.word);
    let due = even.due(lowering.alloc, keyword, statement)?;
    even.follow(lowering.alloc, keyword, statement)?;
    let Some(filling) = due else {
        return lowering.take(choices, frames, statement);
    };
    if lowering.take_filling(choices, frames, statement.line, &filling)? {
        return Ok(true);
    }
    lowering.take(choices, frames, statement)
}

/// Likewise with Cartesian coordinates.
fn take_cartesian(
    lowering: &mut Lowering,
    reference: &mut Reference,
    even: &mut Even,
    choices: Choices,
    frames: &Frames,
    statement: &Statement,
) -> Result<bool, StatementFault>
    ensures { TakesCartesian result lowering.new reference.old reference.new even.new statement.now
        (touched_step frames.now choices even.old lowering.old) (seen_by choices even.old) }
{
    let alloc = lowering.alloc;
    let Some(line) = reference.line(alloc, statement)? else {
        *reference = reference.after(alloc, statement);
        return take_touched(lowering, even, choices, frames, statement);
    };
    let made = read_back(alloc, statement.line, &line)?;
    *reference = reference.after(alloc, &made);
    take_touched(lowering, even, choices, frames, &made)
}

/// Likewise with its values.
fn take_valued(
    lowering: &mut Lowering,
    reference: &mut Reference,
    even: &mut Even,
    values: &mut Values,
    choices: Choices,
    frames: &Frames,
    statement: &Statement,
) -> Result<bool, StatementFault>
    ensures { (above : List Statement) → KnowsAll above values.old
        → TakesValued result lowering.new reference.old reference.new even.new
        values.new above statement.now
        (touched_step frames.now choices even.old lowering.old) (seen_by choices even.old) }
{
    let alloc = lowering.alloc;
    let other = values.enter_label(alloc, statement)?;
    let feature = values.feature_lines(alloc, statement, other)?;
    let line = values.take(alloc, statement, other)?;
    if let Some(lines) = feature {
        let named = read_back(alloc, statement.line, &lines.label)?;
        let read = read_back(alloc, statement.line, &lines.line)?;
        let valued = labelled(named, read);
        return take_cartesian(lowering, reference, even, choices, frames, &valued);
    }
    let Some(line) = line else {
        return take_cartesian(lowering, reference, even, choices, frames, statement);
    };
    let valued = read_back(alloc, statement.line, &line)?;
    take_cartesian(lowering, reference, even, choices, frames, &valued)
}

/// Likewise the next statement that comes out of a text.
fn take_given(
    lowering: &mut Lowering,
    reference: &mut Reference,
    even: &mut Even,
    values: &mut Values,
    choices: Choices,
    frames: &Frames,
    statements: &[Statement],
    given: &Given,
) -> Result<bool, StatementFault>
    requires { (s : Statement) × IsGiven statements.now given.now s }
    ensures { (above : List Statement) (s : Statement) → IsGiven statements.now given.now s
        → KnowsAll above values.old
        → TakesValued result lowering.new reference.old reference.new even.new
        values.new above s
        (touched_step frames.now choices even.old lowering.old) (seen_by choices even.old) }
{
    match given {
        Given::Stated(place) => {
            let statement = &statements[*place];
            take_valued(
                lowering, reference, even, values, choices, frames, statement,
            )
        }
        Given::Made(line, text) => {
            let made = read_back(lowering.alloc, *line, text)?;
            take_valued(lowering, reference, even, values, choices, frames, &made)
        }
    }
}

/// The lines of the flat program of a text, up to its `ENDFIL`, with what was decided.
fn lines_of(
    alloc: Global,
    bytes: &[u8],
    frames: &Frames,
    choices: Choices,
    answers: &[Answer],
) -> Result<Lowered, ProgramFault>
    ensures { GivesLines frames.now choices answers.now bytes.now result }
{
    let mut statements = Statements::new(alloc, bytes);
    let Ok((all, end)) = read_all(alloc, answers, &mut statements) else {
        return Err(ProgramFault::Memory);
    };
    let Ok(mut flow) = Flow::new(alloc, all) else {
        return Err(ProgramFault::Memory);
    };
    let mut lowering = Lowering::new(alloc);
    let mut reference = Reference::none();
    let mut even = Even::none(alloc);
    let mut values = Values::new(alloc);
    loop {
        let Ok(next) = flow.next(alloc, &values.variables) else {
            return Err(ProgramFault::Memory);
        };
        let Some(given) = next else {
            return Err(lowering.missing_end(end, statements.lines()));
        };
        let outside = flow.outside();
        match take_given(
            &mut lowering,
            &mut reference,
            &mut even,
            &mut values,
            choices,
            frames,
            outside,
            &given,
        ) {
            Ok(true) => return lowering.finish(choices),
            Ok(false) => {}
            Err(fault) => return Err(fault_at(fault, line_of(outside, &given))),
        }
    }
}

/// The flat program that a text stands for, up to its `ENDFIL`, with a head and with what was decided; `frames` are those that it may
/// recall, and `answers` those to its `NAME=PROMPT/..`, of which the first of a name counts.
///
/// Statements that measure and move nothing, and those that the choices name, are left out. What else a flat program cannot have is
/// refused. The first refusal is answered with its line, as `Program::read` refuses the text without the statements that are left out.
/// Each line that is written is that of one statement, and names its line.
#[tactic(auto, using(crate::proofs::WholeLemmas::wholes))]
pub fn lower(
    alloc: Global,
    names: SourceNames<'_>,
    choices: Choices,
    answers: &[Answer],
    frames: &Frames,
    source: &[u8],
) -> Result<Lowered, ProgramFault>
    ensures { GivesLowered (names_of names.entry.program.now names.entry.setup.now) choices
        answers.now frames.now source.now result }
{
    let Lowered { text, notes } = lines_of(alloc, source, frames, choices, answers)?;
    match with_head(alloc, names, choices, answers, source, text.as_slice()) {
        Ok(text) => Ok(Lowered { text, notes }),
        Err(_) => Err(ProgramFault::Memory),
    }
}
