// A client from the texts that a caller has.

ghost use Rattle.std.specs.Prelude.{◌≡◌, ◌≢◌, ◌⊎◌, ◌≤◌, Ok, Some, IfOk, IfErr, IsSome, IfSome, None};
ghost use Rattle.tool_rack.specs.Setups.{SetupValue, setup_of};
ghost use Rattle.dmis_program.specs.Meaning.{program_of};
ghost use Rattle.protocol_model.specs.Ends.{ClientEnd};
ghost use Rattle.dme_c.specs.Making.{AnswersJust, IsBadSetup, IsBadProgram, IsBadFeatures, IsBadWindow, IsNotOurs, IsClientOf, IsWhy};

use crate::codes::{NotMade, refusal_number};
use crate::handles::ClientHandle;
use crate::texts::{features_read, program_read, setup_read};
use client_core::{Client, NewFault};
use contact_ledger::laws::features_are_read_in_one_way;
use std::alloc::Global;

/// The client of these texts.
#[tactic(auto, using(crate::proofs::Making::first_of_both, crate::proofs::Making::second_of_both, crate::proofs::Making::not_true))]
fn client_read(
    alloc: Global,
    setup: &[u8],
    program: &[u8],
    features: &[u8],
    window: u8,
) -> Result<Box<Client>, NotMade>
    ensures client { IfOk result (λ core.
        IsClientOf setup.now program.now features.now window core.value) }
    ensures refused { IfErr result (IsWhy setup.now program.now features.now window) }
{
    let setup = setup_read(alloc, setup)?;
    let program = program_read(alloc, setup.frames(), program)?;
    let features = features_read(alloc, features)?;
    match Client::new(alloc, program, features, window) {
        Ok(client) => match Box::new(alloc, client) {
            Ok(core) => Ok(core),
            Err(_) => Err(NotMade::Memory),
        },
        Err((NewFault::BadWindow, _, _)) => Err(NotMade::BadWindow),
        Err((NewFault::NotOurs, _, _)) => Err(NotMade::NotOurs),
    }
}

/// Makes a client of the texts of a setup, a program and the features that are kept. If it answers a number other than 0, none is held.
#[unsafe(no_mangle)]
pub extern "C" fn dme_client_new(
    client: &mut ClientHandle,
    alloc: Global,
    setup: &[u8],
    program: &[u8],
    features: &[u8],
    window: u8,
) -> u32
    requires { client.old.held ≡ None }
    ensures made { result ≡ 0 → IsSome client.new.held }
    ensures refused { result ≢ 0 → client.new.held ≡ None }
    ensures program { IfSome client.new.held (λ e. (known : SetupValue)
        → setup_of setup.now ≡ Ok known
        → program_of known.frames program.now ≡ Ok e.client.program) }
    ensures window { IfSome client.new.held (λ e. e.client.window ≡ window) }
    ensures client { IfSome client.new.held
        (IsClientOf setup.now program.now features.now window) }
    ensures can { (e : ClientEnd) → IsClientOf setup.now program.now features.now window e
        → (client.new.held ≡ Some e) ⊎ (result ≡ 3) }
    ensures bad_setup { AnswersJust result 4 (IsBadSetup setup.now) }
    ensures bad_program { AnswersJust result 5 (IsBadProgram setup.now program.now) }
    ensures bad_features { AnswersJust result 6
        (IsBadFeatures setup.now program.now features.now) }
    ensures bad_window { AnswersJust result 7
        (IsBadWindow setup.now program.now features.now window) }
    ensures not_ours { AnswersJust result 8
        (IsNotOurs setup.now program.now features.now window) }
    ensures number { (result ≡ 0) ⊎ ((3 ≤ result) × (result ≤ 8)) }
{
    features_are_read_in_one_way();
    match client_read(alloc, setup, program, features, window) {
        Ok(core) => {
            client.put(core);
            0
        }
        Err(why) => refusal_number(why),
    }
}
