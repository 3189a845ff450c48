// What a drawing is called.

ghost use Rattle.std.specs.Prelude.{◌≡◌, ◌++◌, OnOk};
ghost use Rattle.drawings.specs.Names.{titled, given_title, title_words};

use crate::texts::{put_escaped, put_markup};
use std::alloc::AllocError;
use std::marker::Model;

/// What a drawing is of. Each text may be empty.
#[derive(Drop)]
pub struct Title<'a> {
    /// The part.
    pub part: &'a [u8],
    /// The name of the program.
    pub program: &'a [u8],
    /// When the part was measured.
    pub time: &'a [u8],
}

impl<'a> Model for Title<'a> {
    ghost use Rattle.drawings.specs.Title.{TitleTexts};

    ghost Value = { TitleTexts };

    ghost view = { λ t. record { part = t.part.now; program = t.program.now; time = t.time.now } };
}

impl<'a> Title<'a> {
    fn part(&self) -> &[u8]
        ensures { result.now ≡ self.now.part }
    {
        self.part
    }

    fn program(&self) -> &[u8]
        ensures { result.now ≡ self.now.program }
    {
        self.program
    }

    fn time(&self) -> &[u8]
        ensures { result.now ≡ self.now.time }
    {
        self.time
    }
}

/// A text after what it is; an empty one is left out.
fn put_titled(out: &mut Vec<u8>, word: &[u8], text: &[u8]) -> Result<(), AllocError>
    ensures { OnOk result (out.new.items ≡ out.old.items ++ titled word.now text.now) }
{
    match text {
        [_, ..] => {
            put_markup(out, word)?;
            put_escaped(out, text)
        }
        [] => Ok(()),
    }
}

#[tactic(auto, unfolding(crate::specs::Title::given_title))]
fn put_given_title(out: &mut Vec<u8>, title: &Title<'_>) -> Result<(), AllocError>
    ensures { OnOk result (out.new.items ≡ out.old.items ++ given_title title.now) }
{
    put_titled(out, b" Part ", title.part())?;
    put_titled(out, b" Program ", title.program())?;
    put_titled(out, b" ", title.time())
}

/// Appends the texts of a title that are there, or what a drawing is called if none is.
pub(crate) fn put_title_words(out: &mut Vec<u8>, title: &Title<'_>) -> Result<(), AllocError>
    ensures { OnOk result (out.new.items ≡ out.old.items ++ title_words title.now) }
{
    if title.part().is_empty() && title.program().is_empty() && title.time().is_empty() {
        put_markup(out, b"Measured points and their deviations")
    } else {
        put_given_title(out, title)
    }
}
