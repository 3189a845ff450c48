// The text of a server's acts (this profile).

ghost use Rattle.std.specs.Prelude.{◌≡◌, ◌++◌, ◌∷◌, [], ℕ, OnOk, Err};
ghost use Rattle.contact_ledger.specs.Names.{IsEntry, act_line, IsContacts, IsDamagedContacts, ReadsText, Act, Damaged};

use crate::act_reading::read_entry;
use crate::faults::TextFault;
use crate::forms::Forms;
use crate::lines::cut_line;
use crate::server_ledger::ServerLedger;
use std::alloc::Global;

/// Appends the act that the line of this number is. An `Err` discards the text.
fn add_line(
    alloc: Global,
    forms: &mut Forms,
    ledger: &mut ServerLedger,
    number: u64,
    line: &[u8],
) -> Result<(), TextFault>
    ensures added { OnOk result ((e : ℕ × Act) × IsEntry e × (line.now ≡ act_line e)
        × (ledger.new ≡ ledger.old ++ e ∷ [])) }
    ensures damaged { (n : ℕ) → result ≡ Err (Damaged n) → (n ≡ number)
        × ((e : ℕ × Act) → IsEntry e → line.now ≡ act_line e → ⊥) }
{
    let Some((connection, act)) = read_entry(alloc, forms, line)? else {
        return Err(TextFault::Damaged(number));
    };
    ledger.push(connection, act)?;
    Ok(())
}

/// The acts of a text of version 1. An act counts where its line has its LF. What follows the last LF is not examined, and a
/// text without any line has no acts.
///
/// The first line that is unexpected is answered with its number.
pub fn read_contacts(alloc: Global, bytes: &[u8]) -> Result<ServerLedger, TextFault>
    ensures { ReadsText (IsContacts bytes.now) (IsDamagedContacts bytes.now) result }
{
    let mut forms = Forms::new(alloc)?;
    let mut ledger = ServerLedger::new(alloc);
    let Some((header, after)) = cut_line(bytes) else {
        return Ok(ledger);
    };
    if header != b"DME-CONTACTS 1".as_slice() {
        return Err(TextFault::Damaged(1));
    }
    let mut number = 1;
    let mut rest = after;
    while let Some((line, after)) = cut_line(rest) {
        number += 1;
        add_line(alloc, &mut forms, &mut ledger, number, line)?;
        rest = after;
    }
    Ok(ledger)
}
