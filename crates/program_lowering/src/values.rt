// Statements with the values of variables.

ghost use Rattle.std.specs.Prelude.{◌≡◌, ◌++◌, ◌∷◌, [], ℕ, List, bytes_eq, codes, IfOk, IfErr, IfSome, IsTrue, Some, false, is_none, true};
ghost use Rattle.std.specs.List.{list_all};
ghost use Rattle.std.specs.Option.{option_map};
ghost use Rattle.std.specs.Result.{result_ok};
ghost use Rattle.dmis_text.specs.declared.elements.Statement.{Statement};
ghost use Rattle.dmis_program.specs.Keywords.{is_among};
ghost use Rattle.program_flow.specs.Flow.{carried};
ghost use Rattle.program_flow.specs.LookBack.{fault_of, kind_said, value_said};
ghost use Rattle.program_flow.specs.Numbers.{numeral};
ghost use Rattle.program_flow.specs.Texts.{Appends, expanded};
ghost use Rattle.program_flow.specs.Variables.{entry_value};
ghost use Rattle.program_lowering.specs.Flats.{flat, flat_line};
ghost use Rattle.program_lowering.specs.Labels.{collides};
ghost use Rattle.program_lowering.specs.Lowering.{ended};
ghost use Rattle.program_lowering.specs.OperatorTexts.{is_plain, is_solid, marked};
ghost use Rattle.program_lowering.specs.Carried as code;
ghost use Rattle.program_lowering.specs.Valued as spec;

use crate::labels::{Labels, with_values};
use crate::lines::{is_plain, push_comment};
use crate::texts::is_among;
use dmis_program::StatementFault;
use dmis_text::{Statement, Statements, Text, TextFault};
use program_flow::{
    Number, ValueFault, Variables, expanded, has_names, has_value, is_declaration, is_text,
    push_computed,
};
use std::alloc::{AllocError, Global};

/// The most bytes of a statement with its values (this profile).
const MOST_BYTES: usize = 4000;

/// The room for its parameters: a word that commands has at most ten bytes.
const ROOM: usize = MOST_BYTES - 10;

/// The variables as the statements above leave them.
#[derive(Drop)]
pub(crate) struct Values {
    pub(crate) variables: Variables,
    /// Whether one is declared.
    pub(crate) declared: bool,
    pub(crate) labels: Labels,
}

/// The lines from which a `FEAT` is read with its values: one with its label as its word, and one with its parameters.
#[derive(Drop)]
pub(crate) struct FeatureLines {
    pub(crate) label: Vec<u8>,
    pub(crate) line: Vec<u8>,
}

/// Whether a byte may be in a word.
fn is_solid(byte: u8) -> bool
    ensures { result ≡ is_solid byte }
{
    byte >= 33
        && byte <= 126
        && byte != b'$'
        && byte != b'\''
        && byte != b','
        && byte != b'/'
        && byte != b'='
        && byte.to_ascii_uppercase() == byte
}

fn are_solid(text: &[u8]) -> bool
    ensures { result ≡ list_all is_solid text.now }
{
    text.iter().all(|byte| is_solid(*byte))
}

/// Whether a line holds this text as its word.
fn is_word(text: &[u8]) -> bool
    ensures { result ≡ spec.is_word text.now }
{
    are_solid(text) && (text.len() >= 1 && text.len() <= MOST_BYTES)
}

/// Whether a word commands a move, a touch or a selection.
fn is_commanding(word: &[u8]) -> bool
    ensures { result ≡ is_among word.now spec.commanding }
{
    is_among(word, &["GOTO", "PTMEAS", "MEAS", "SNSLCT", "RECALL"])
}

/// Appends a parameter with its values.
fn push_valued(out: &mut Vec<u8>, param: &[u8], variables: &Variables) -> Result<(), ValueFault>
    ensures { Appends result out.old.items out.new.items
        (spec.valued_param (entry_value variables.now) param.now) }
{
    if !has_names(param) {
        return Ok(push_computed(out, param, variables)?);
    }
    let mut text = Vec::new(*out.allocator());
    expanded(&mut text, param, variables)?;
    Ok(push_computed(out, &text, variables)?)
}

/// Appends a parameter with its values. Whether it is read back as it is written.
fn push_param(out: &mut Vec<u8>, param: &[u8], variables: &Variables) -> Result<bool, ValueFault>
    ensures { code.Pushes result out.new.items (code.pushed out.old.items
        (spec.valued_param (entry_value variables.now) param.now)) }
{
    let start = out.len();
    push_valued(out, param, variables)?;
    let (_, added) = out.as_slice().split_at(start);
    Ok(is_plain(added))
}

/// Appends parameters with their values, each after its mark. Whether all are read back as they are written.
fn push_params(
    out: &mut Vec<u8>,
    mark: u8,
    params: &[Text],
    variables: &Variables,
) -> Result<bool, ValueFault>
    ensures { code.Pushes result out.new.items (code.all_pushed out.old.items mark
        (spec.valued_params (entry_value variables.now) params.now)) }
{
    let [first, rest @ ..] = params else {
        return Ok(true);
    };
    out.extend_from_slice(&[mark])?;
    let plain = push_param(out, first, variables)?;
    match push_params(out, b',', rest, variables) {
        Ok(others) => Ok(plain && others),
        Err(fault) => Err(fault),
    }
}

/// Whether all parameters stay as they are, with their values too, and are read back so from a line of that many bytes.
fn all_stay(room: usize, params: &[Text], variables: &Variables) -> bool
    ensures { IsTrue result → code.Stay (entry_value variables.now) room params.now }
{
    let [first, rest @ ..] = params else {
        return true;
    };
    let param: &[u8] = first;
    if has_names(param) || param.len() >= room || !is_plain(param) || has_value(param, variables) {
        return false;
    }
    all_stay(room - param.len() - 1, rest, variables)
}

/// Appends a number after a comma. Whether it is read back as it is written.
pub(crate) fn push_number(out: &mut Vec<u8>, number: Number) -> Result<bool, AllocError>
    ensures { IfOk result (λ plain. (out.new.items ≡ out.old.items ++ 44 ∷ numeral number)
        × (plain ≡ is_plain false (numeral number))) }
{
    let mut text = Vec::new(*out.allocator());
    number.write(&mut text)?;
    out.push(b',')?;
    out.extend_from_slice(&text)?;
    Ok(is_plain(&text))
}

/// Appends the name of a variable and its value. Whether both are read back as they are written.
fn push_pair(out: &mut Vec<u8>, name: &[u8], variables: &Variables) -> Result<bool, ValueFault>
    ensures { code.Pushes result out.new.items (code.all_pushed out.old.items 47
        (code.pair_of true (entry_value variables.now) (Some name.now))) }
{
    let mut text = Vec::new(*out.allocator());
    variables.push_value(&mut text, name)?;
    out.extend_from_slice(b"/")?;
    out.extend_from_slice(name)?;
    out.extend_from_slice(b",")?;
    out.extend_from_slice(&text)?;
    Ok(is_plain(name) && is_plain(&text))
}

/// The line of a word with these parameters, of which each is read back or not; without them if it is too long or they are not.
pub(crate) fn line_of(
    alloc: Global,
    word: &[u8],
    text: Vec<u8>,
    plain: bool,
) -> Result<Vec<u8>, AllocError>
    ensures { (params : List (List ℕ)) → text.items ≡ word.now ++ marked 47 params
        → plain ≡ list_all (is_plain false) params → IfOk result (λ line. line.items
        ≡ ended (flat_line (flat word.now (spec.held word.now params)) 1)) }
{
    let mut line = if plain && text.len() <= MOST_BYTES {
        text
    } else {
        Vec::from_slice(alloc, word)?
    };
    push_comment(&mut line, 1)?;
    line.push(b'\n')?;
    Ok(line)
}

/// The line of a statement that has a fault, or of which no line holds the values.
fn bare_line(alloc: Global, word: &[u8]) -> Result<Vec<u8>, AllocError>
    ensures { IfOk result (λ line. line.items ≡ ended (flat_line (flat word.now []) 1)) }
{
    line_of(alloc, word, Vec::from_slice(alloc, word)?, true)
}

impl Values {
    /// No variable is declared.
    pub(crate) fn new(alloc: Global) -> Values
        ensures { code.KnowsAll [] result }
    {
        Values {
            variables: Variables::new(alloc),
            declared: false,
            labels: Labels::new(alloc),
        }
    }

    /// Carries a statement out. False if a value has a fault.
    fn carry_out(&mut self, statement: &Statement) -> Result<bool, AllocError>
        ensures labels { self.new.labels ≡ self.old.labels }
        ensures done { (above : List Statement) → code.Knows above self.old.variables self.old.declared
            → IfOk result (λ done. code.Knows (carried above statement.now) self.new.variables
            self.new.declared × (done ≡ is_none (fault_of (kind_said above) (value_said above)
            statement.now))) }
    {
        match self.variables.carry_out(statement) {
            Ok(()) => {
                self.declared |= is_declaration(statement);
                Ok(true)
            }
            Err(ValueFault::Memory) => Err(AllocError),
            Err(_) => Ok(false),
        }
    }

    /// At a statement that is not carried out yet: whether its label has the name of another feature.
    pub(crate) fn enter_label(
        &mut self,
        alloc: Global,
        statement: &Statement,
    ) -> Result<bool, AllocError>
        ensures same { (self.new.variables ≡ self.old.variables)
            × (self.new.declared ≡ self.old.declared) }
        ensures known { (above : List Statement) → code.KnowsAll above self.old
            → IfOk result (λ other. (other ≡ collides above statement.now)
            × code.KnowsParts (carried above statement.now) self.new.labels) }
    {
        self.labels.enter(alloc, statement, &self.variables)
    }

    /// The line of a statement with its values, by the variables as they are. `other` is that its label has the name of another feature.
    fn valued_line(
        &self,
        alloc: Global,
        statement: &Statement,
        other: bool,
    ) -> Result<Vec<u8>, AllocError>
        ensures { IfOk result (λ line. line.items ≡ code.line_with statement.now.word
            (spec.own_params other (entry_value self.now.variables) statement.now.params)) }
    {
        if other {
            return bare_line(alloc, &statement.word);
        }
        let mut text = Vec::from_slice(alloc, &statement.word)?;
        match push_params(&mut text, b'/', &statement.params, &self.variables) {
            Ok(plain) => line_of(alloc, &statement.word, text, plain),
            Err(ValueFault::Memory) => Err(AllocError),
            Err(_) => bare_line(alloc, &statement.word),
        }
    }

    /// The lines of a `FEAT` with this label, by the variables as they are, if a line holds the label with its values.
    fn named_lines(
        &self,
        alloc: Global,
        statement: &Statement,
        other: bool,
        label: &[u8],
    ) -> Result<Option<FeatureLines>, AllocError>
        requires { bytes_eq statement.now.word (codes "FEAT") ≡ true }
        ensures { (without : Statement) → IfOk result (λ lines. code.GivesFeature lines
            statement.now without (code.named_as statement.now without
            (spec.word_in (result_ok (expanded (entry_value self.now.variables) label.now)))
            (spec.own_params other (entry_value self.now.variables) statement.now.params))) }
    {
        let Some(name) = with_values(alloc, label, &self.variables)? else {
            return Ok(None);
        };
        if !is_word(&name) {
            return Ok(None);
        }
        let label = bare_line(alloc, &name)?;
        let line = self.valued_line(alloc, statement, other)?;
        Ok(Some(FeatureLines { label, line }))
    }

    /// Likewise of a statement, if it is a `FEAT` with such a label.
    pub(crate) fn feature_lines(
        &self,
        alloc: Global,
        statement: &Statement,
        other: bool,
    ) -> Result<Option<FeatureLines>, AllocError>
        ensures read { IfOk result (λ lines. IfSome lines (λ f. code.AreRead f)) }
        ensures valued { (above : List Statement)
            → code.Knows above self.now.variables self.now.declared
            → other ≡ collides above statement.now → IfOk result (λ lines.
            code.GivesFeature lines statement.now (spec.commanded above statement.now)
            (spec.valued above statement.now)) }
    {
        if !self.declared || !is_text(&statement.word, "FEAT") || statement.is_open() {
            return Ok(None);
        }
        match &statement.label {
            Some(label) => self.named_lines(alloc, statement, other, label),
            None => Ok(None),
        }
    }

    /// The line of an `ASSIGN`, by the variables after it.
    fn assigned_line(
        &self,
        alloc: Global,
        statement: &Statement,
        done: bool,
    ) -> Result<Vec<u8>, AllocError>
        ensures { IfOk result (λ line. line.items ≡ code.line_with statement.now.word
            (code.pair_of done (entry_value self.now.variables) statement.now.label)) }
    {
        let Some(name) = &statement.label else {
            return bare_line(alloc, &statement.word);
        };
        if !done {
            return bare_line(alloc, &statement.word);
        }
        let mut text = Vec::from_slice(alloc, &statement.word)?;
        match push_pair(&mut text, name, &self.variables) {
            Ok(plain) => line_of(alloc, &statement.word, text, plain),
            Err(ValueFault::Memory) => Err(AllocError),
            Err(_) => bare_line(alloc, &statement.word),
        }
    }

    /// The line of a statement that is no `ASSIGN`, if it has values.
    fn other_line(
        &self,
        alloc: Global,
        statement: &Statement,
        other: bool,
    ) -> Result<Option<Vec<u8>>, AllocError>
        ensures read { IfOk result (λ line. IfSome line (λ l. (s : Statement)
            × code.IsRead l.items s)) }
        ensures valued { (above : List Statement)
            → bytes_eq statement.now.word (codes "ASSIGN") ≡ false
            → code.Knows above self.now.variables self.now.declared
            → other ≡ collides above statement.now → IfOk result (λ line.
            code.GivesLine (option_map (λ l. l.items) line) statement.now
            (spec.commanded above statement.now)) }
    {
        if !self.declared {
            return Ok(None);
        }
        if statement.label.is_some() || !is_commanding(&statement.word) {
            return Ok(None);
        }
        if !other && all_stay(ROOM, &statement.params, &self.variables) {
            return Ok(None);
        }
        Ok(Some(self.valued_line(alloc, statement, other)?))
    }

    /// Carries a statement out. The line from which it is read with its values, if it has any.
    pub(crate) fn take(
        &mut self,
        alloc: Global,
        statement: &Statement,
        other: bool,
    ) -> Result<Option<Vec<u8>>, AllocError>
        ensures read { IfOk result (λ line. IfSome line (λ l. (s : Statement)
            × code.IsRead l.items s)) }
        ensures labels { self.new.labels ≡ self.old.labels }
        ensures valued { (above : List Statement)
            → code.Knows above self.old.variables self.old.declared
            → other ≡ collides above statement.now → IfOk result (λ line. code.Knows (carried above statement.now)
            self.new.variables self.new.declared × code.GivesLine
            (option_map (λ l. l.items) line) statement.now (spec.commanded above statement.now)) }
    {
        if is_text(&statement.word, "ASSIGN") {
            let done = self.carry_out(statement)?;
            return Ok(Some(self.assigned_line(alloc, statement, done)?));
        }
        let line = self.other_line(alloc, statement, other)?;
        self.carry_out(statement)?;
        Ok(line)
    }
}

/// The second statement, with the word of the first as its label.
pub(crate) fn labelled<'a>(named: Statement<'a>, read: Statement<'a>) -> Statement<'a>
    ensures { result ≡ record read.entry { label = Some named.entry.word } }
{
    Statement {
        label: Some(named.word),
        ..read
    }
}

/// The statement that a line gives, as if it were on another line of a text.
pub(crate) fn read_back<'a>(
    alloc: Global,
    line: u64,
    text: &'a [u8],
) -> Result<Statement<'a>, StatementFault>
    requires { (s : Statement) × code.IsRead text.now s }
    ensures read { (s : Statement) → code.IsRead text.now s
        → IfOk result (λ given. given ≡ record s { line = line }) }
    ensures memory { IfErr result (λ fault. fault ≡ StatementFault.Memory) }
{
    let mut statements = Statements::new(alloc, text);
    match statements.next() {
        Ok(Some(statement)) => Ok(Statement { line, ..statement }),
        Err(TextFault::Memory) => Err(StatementFault::Memory),
        Ok(None) | Err(TextFault::LineTooLong(_) | TextFault::BadByte(_)) => unreachable!(),
    }
}
