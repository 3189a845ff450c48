// The texts of contacts for an audit: of what a server reported, or what it did.

ghost use Rattle.std.specs.Prelude.{◌≡◌, ◌↔◌, codes, IsTrue};
ghost use Rattle.witness.specs.ToldNames.{ReadsText, IsToldFile, AreAudited, IsDamagedAudited};

use crate::runs::run_contacts;
use crate::told_texts::read_told;
use contact_ledger::lines::cut_line;
use contact_ledger::{ServerLedger, TextFault, read_contacts};
use std::alloc::Global;

fn is_header(line: &[u8]) -> bool
    ensures { IsTrue result ↔ (line.now ≡ codes "DME-TOLD 1") }
{
    line == b"DME-TOLD 1".as_slice()
}

/// Whether the first line of a text is that of what a server reported.
#[tactic(auto, using(crate::proofs::EitherText::no_lines))]
pub fn is_told_file(bytes: &[u8]) -> bool
    ensures { IsTrue result ↔ IsToldFile bytes.now }
{
    match cut_line(bytes) {
        Some((line, _)) => is_header(line),
        None => false,
    }
}

/// The acts that an audit judges, from either text of contacts, by its first line: under `DME-TOLD 1` the contacts that `run_contacts` finds
/// in what was reported, and under any other the acts of a server, as `contact_ledger::read_contacts` reads them.
///
/// The first line that is unexpected is answered with its number.
#[tactic(auto, using(crate::proofs::EitherText::audited))]
pub fn read_audited(alloc: Global, bytes: &[u8]) -> Result<ServerLedger, TextFault>
    ensures { ReadsText (AreAudited bytes.now) (IsDamagedAudited bytes.now) result }
{
    if !is_told_file(bytes) {
        return read_contacts(alloc, bytes);
    }
    let told = read_told(alloc, bytes)?;
    let ledger = run_contacts(alloc, &told)?;
    drop(told);
    Ok(ledger)
}
