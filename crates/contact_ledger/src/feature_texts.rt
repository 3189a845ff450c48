// The text of a list of features (this profile).

ghost use Rattle.std.specs.Prelude.{◌≡◌, IfOk};
ghost use Rattle.contact_ledger.specs.Names.{AllByRecursion, ReadsText, CanBeWritten, IsFeatures, IsDamagedFeatures};

use crate::faults::TextFault;
use crate::feature_ledger::FeatureLedger;
use crate::forms::Forms;
use crate::lines::cut_line;
use crate::places::{Place, behind_line};
use std::alloc::Global;

/// The features of a text of version 1 or 2, which its first line says; those of version 1 have no origin. A feature counts where its
/// `END` line has its LF. What follows the last LF is not examined, and a text without any line has no features.
///
/// The first line that is unexpected is answered with its number.
pub fn read_features(alloc: Global, bytes: &[u8]) -> Result<FeatureLedger, TextFault>
    ensures read { ReadsText (IsFeatures bytes.now) (IsDamagedFeatures bytes.now) result }
    ensures writable { IfOk result (AllByRecursion CanBeWritten) }
{
    let mut forms = Forms::new(alloc)?;
    let mut features = FeatureLedger::new(alloc);
    let mut place = Place::Start;
    let mut number = 0;
    let mut rest = bytes;
    while let Some((line, after)) = cut_line(rest) {
        number += 1;
        place = behind_line(alloc, &mut forms, &mut features, place, number, line)?;
        rest = after;
    }
    Ok(features)
}
