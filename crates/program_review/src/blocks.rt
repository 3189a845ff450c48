// The measurement block that is open above a statement.

ghost use Rattle.std.specs.Prelude.{◌≡◌};
ghost use Rattle.std.specs.Option.{option_map};
ghost use Rattle.program_review.specs.Blocks.{opened_by, block_after, open_block};

use dmis_text::Statement;

/// An open measurement block: the line of its `MEAS`, how many touches that names, as written there, and how many it has so far.
#[derive(Clone, Copy)]
pub struct Block<'s> {
    pub(crate) line: u64,
    pub(crate) wanted: &'s [u8],
    pub(crate) touches: u64,
}

/// The block that is open after a statement, if this one is open before it. Does not allocate.
pub fn block_after<'s>(block: Option<Block<'s>>, statement: &'s Statement<'_>) -> Option<Block<'s>>
    ensures { option_map opened_by result
        ≡ block_after (option_map opened_by block.entry) statement.now }
{
    let word: &[u8] = &statement.word;
    if word == b"MEAS".as_slice() {
        let wanted: &[u8] = statement.params.get(2)?;
        return Some(Block {
            line: statement.line,
            wanted,
            touches: 0,
        });
    }
    if word == b"ENDMES".as_slice() {
        return None;
    }
    if word != b"PTMEAS".as_slice() {
        return block;
    }
    let block = block?;
    Some(Block {
        touches: block.touches.saturating_add(1),
        ..block
    })
}

pub(crate) fn open_block<'s>(statements: &'s [Statement<'_>], line: u64) -> Option<Block<'s>>
    ensures { option_map opened_by result ≡ open_block statements.now line }
{
    let mut block = None;
    let mut left = statements;
    while let [statement, rest @ ..] = left {
        if statement.line >= line {
            break;
        }
        block = block_after(block, statement);
        left = rest;
    }
    block
}
