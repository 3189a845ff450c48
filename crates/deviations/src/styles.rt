// How a table is written besides its rows.

ghost use Rattle.std.specs.Prelude.{◌≡◌};
ghost use Rattle.deviations.specs.Styles as spec;

use std::marker::Model;

/// What stands between two fields.
#[derive(Clone, Copy, Debug, PartialEq, Eq)]
pub enum Separator {
    /// A comma.
    Comma,
    /// A semicolon.
    Semicolon,
    /// A tab.
    Tab,
}

/// What stands before the decimals of a number.
#[derive(Clone, Copy, Debug, PartialEq, Eq)]
pub enum DecimalSign {
    /// A point.
    Point,
    /// A comma.
    Comma,
}

/// The part and the program that rows are of.
#[derive(Drop)]
pub struct RowsOf<'a> {
    /// The part; empty if it has no name.
    pub part: &'a str,
    /// The name of the program.
    pub program: &'a str,
}

impl<'a> Model for RowsOf<'a> {
    ghost use Rattle.deviations.specs.Styles as spec;

    ghost Value = { spec.RowsOf };

    ghost view = { λ of. record { part = of.part.now; program = of.program.now } };
}

/// How a table is written besides its rows.
#[derive(Drop)]
pub struct TableStyle<'a> {
    /// What stands between two fields of comma-separated values.
    pub separator: Separator,
    /// What stands before decimals there.
    pub sign: DecimalSign,
    /// What each row says first, if anything: its part, its program, and whether its point is missing.
    pub of: Option<RowsOf<'a>>,
}

impl<'a> Model for TableStyle<'a> {
    ghost use Rattle.deviations.specs.Styles as spec;

    ghost Value = { spec.TableStyle };

    ghost view = { λ s. record {
      separator = s.separator;
      sign = s.sign;
      of = s.of;
    } };
}

impl<'a> RowsOf<'a> {
    pub(crate) fn part(&self) -> &str
        ensures { result.now ≡ self.now.part }
    {
        self.part
    }

    pub(crate) fn program(&self) -> &str
        ensures { result.now ≡ self.now.program }
    {
        self.program
    }
}

impl<'a> TableStyle<'a> {
    pub(crate) fn separator(&self) -> Separator
        ensures { result ≡ self.now.separator }
    {
        self.separator
    }

    pub(crate) fn sign(&self) -> DecimalSign
        ensures { result ≡ self.now.sign }
    {
        self.sign
    }

    /// What each row says first, if anything.
    pub fn of(&self) -> &Option<RowsOf<'a>>
        ensures { result.now ≡ self.now.of }
    {
        &self.of
    }
}

/// The byte of a separator.
pub(crate) fn separator_byte(separator: Separator) -> u8
    ensures { result ≡ spec.separator_byte separator }
{
    match separator {
        Separator::Comma => b',',
        Separator::Semicolon => b';',
        Separator::Tab => b'\t',
    }
}

/// A byte of a number with a decimal sign.
pub(crate) fn signed(sign: DecimalSign, byte: u8) -> u8
    ensures { result ≡ spec.signed sign byte }
{
    match sign {
        DecimalSign::Point => byte,
        DecimalSign::Comma => { if byte == b'.' { b',' } else { byte } }
    }
}

/// The word for whether a point is missing.
pub(crate) fn missing_word(is_missing: bool) -> &'static str
    ensures { result.now ≡ spec.missing_word is_missing }
{
    if is_missing { "yes" } else { "no" }
}

/// What is asked of a table besides its rows.
#[derive(Clone, Copy, Debug, PartialEq, Eq)]
pub struct TableOptions {
    /// What stands between two fields of comma-separated values.
    pub separator: Separator,
    /// What stands before decimals there.
    pub sign: DecimalSign,
    /// Whether each row says its part and its program, and whether its point is missing.
    pub with_part: bool,
}

/// The style of a table of this part and this program.
pub fn style_of<'a>(options: TableOptions, of: &RowsOf<'a>) -> TableStyle<'a>
    ensures { result ≡ spec.style_of options of.now }
{
    let named = RowsOf {
        part: of.part,
        program: of.program,
    };
    TableStyle {
        separator: options.separator,
        sign: options.sign,
        of: if options.with_part { Some(named) } else { None },
    }
}
