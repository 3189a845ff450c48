// The calls that follow the errors of a server, for C.

ghost use Rattle.std.specs.Prelude.{◌≡◌, ◌≢◌, ◌⊎◌, [], false, None, Some, IsSome, option_map};
ghost use Rattle.dme_c.specs.Calls.{Called};
ghost use Rattle.dme_c.specs.Codes.{call_answer};
ghost use Rattle.dme_c.specs.Hearings.{Passes, PassesCame, PassesSent, TakesError, joined, silence};

use crate::codes::call_number;
use crate::handles::ErrorsHandle;
use crate::hearings::{Heard, Hearing};
use std::alloc::Global;

/// Makes what follows the errors of a server; no connection is followed yet. If it answers a number other than 0, nothing is held.
#[unsafe(no_mangle)]
pub extern "C" fn dme_errors_new(errors: &mut ErrorsHandle, alloc: Global) -> u32
    requires { errors.old.held ≡ None }
    ensures made { result ≡ 0 → errors.new.held
        ≡ Some (record { follows = false; dialogue = silence; waiting = [] }) }
    ensures refused { result ≢ 0 → errors.new.held ≡ None }
    ensures number { (result ≡ 0) ⊎ (result ≡ 3) }
{
    match Box::new(alloc, Hearing::new(alloc)) {
        Ok(hearing) => {
            errors.put(hearing);
            0
        }
        Err(_) => 3,
    }
}

/// Drops the errors, also those that were not taken.
#[unsafe(no_mangle)]
pub extern "C" fn dme_errors_free(errors: &mut ErrorsHandle, alloc: Global)
    requires { IsSome errors.old.held }
    ensures { errors.new.held ≡ None }
{
    let _given_up = errors.take(alloc);
}

/// Follows a new connection. The errors that were not taken stay.
#[unsafe(no_mangle)]
pub extern "C" fn dme_errors_connected(errors: &mut ErrorsHandle, alloc: Global)
    requires { IsSome errors.old.held }
    ensures { errors.new.held ≡ option_map joined errors.old.held }
{
    let mut hearing = errors.take(alloc);
    hearing.connect(alloc);
    errors.put(hearing);
}

/// Bytes were sent to the server.
#[tactic(auto, using(crate::proofs::Calls::called_lent))]
#[unsafe(no_mangle)]
pub extern "C" fn dme_errors_sent(errors: &mut ErrorsHandle, alloc: Global, piece: &[u8]) -> u32
    requires { IsSome errors.old.held }
    ensures { Called errors.old.held errors.new.held (call_answer result)
        (Passes (PassesSent piece.now)) }
{
    let mut hearing = errors.take(alloc);
    let answer = hearing.send(alloc, piece);
    errors.put(hearing);
    call_number(answer)
}

/// Bytes came from the server.
#[tactic(auto, using(crate::proofs::Calls::called_lent))]
#[unsafe(no_mangle)]
pub extern "C" fn dme_errors_came(errors: &mut ErrorsHandle, alloc: Global, piece: &[u8]) -> u32
    requires { IsSome errors.old.held }
    ensures { Called errors.old.held errors.new.held (call_answer result)
        (Passes (PassesCame piece.now)) }
{
    let mut hearing = errors.take(alloc);
    let answer = hearing.hear(alloc, piece);
    errors.put(hearing);
    call_number(answer)
}

/// Copies the text of the first error that was not taken into the room if it fits, and the error then counts as taken.
#[tactic(auto, using(crate::proofs::Calls::called))]
#[unsafe(no_mangle)]
pub extern "C" fn dme_errors_take(
    errors: &mut ErrorsHandle,
    alloc: Global,
    room: &mut [u8],
) -> Heard
    requires { IsSome errors.old.held }
    ensures { Called errors.old.held errors.new.held (Some result)
        (TakesError room.old room.new) }
{
    let mut hearing = errors.take(alloc);
    let heard = hearing.take(room);
    errors.put(hearing);
    heard
}
