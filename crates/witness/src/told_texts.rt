// The text of what a server reported (this profile).

ghost use Rattle.std.specs.Prelude.{◌≡◌, ◌≤◌, ◌++◌, ◌∷◌, [], ℕ, OnOk, Err};
ghost use Rattle.witness.specs.ToldNames.{ReadsText, Damaged, told_line, Reported, IsToldEntry, last_number, IsToldText, IsDamagedTold};

use crate::told_ledger::ToldLedger;
use crate::told_lines::read_line;
use contact_ledger::TextFault;
use contact_ledger::forms::Forms;
use contact_ledger::lines::cut_line;
use std::alloc::Global;

/// Appends what the line of this number says. An `Err` discards the text.
fn add_line(
    alloc: Global,
    forms: &mut Forms,
    ledger: &mut ToldLedger,
    number: u64,
    line: &[u8],
) -> Result<(), TextFault>
    ensures added { OnOk result ((e : ℕ × Reported) × IsToldEntry e × (line.now ≡ told_line e)
        × (last_number ledger.old ≤ e.0) × (ledger.new ≡ ledger.old ++ e ∷ [])) }
    ensures damaged { (n : ℕ) → result ≡ Err (Damaged n) → (n ≡ number) × ((e : ℕ × Reported)
        → IsToldEntry e → line.now ≡ told_line e → last_number ledger.old ≤ e.0 → ⊥) }
{
    let damaged = Err(TextFault::Damaged(number));
    let Some((connection, told)) = read_line(alloc, forms, line)? else {
        return damaged;
    };
    if connection < ledger.last_number() {
        return damaged;
    }
    ledger.push(connection, told)?;
    Ok(())
}

/// What a text of version 1 says that was reported. A line counts where it has its LF. What follows the last LF is not examined, and a
/// text without any line says nothing. A tool that is written `?` is not known, whatever its name was.
///
/// The first line that is unexpected, or whose connection has a lower number than that of the line above, is answered with its number.
pub fn read_told(alloc: Global, bytes: &[u8]) -> Result<ToldLedger, TextFault>
    ensures { ReadsText (IsToldText bytes.now) (IsDamagedTold bytes.now) result }
{
    let mut forms = Forms::new(alloc)?;
    let mut ledger = ToldLedger::new(alloc);
    let Some((header, after)) = cut_line(bytes) else {
        return Ok(ledger);
    };
    if header != b"DME-TOLD 1".as_slice() {
        return Err(TextFault::Damaged(1));
    }
    let mut number = 1;
    let mut rest = after;
    while let Some((line, after)) = cut_line(rest) {
        number += 1;
        add_line(alloc, &mut forms, &mut ledger, number, line)?;
        rest = after;
    }
    Ok(ledger)
}
