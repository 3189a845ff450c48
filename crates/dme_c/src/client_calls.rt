// The calls of a client, for C.

ghost use Rattle.std.specs.Prelude.{◌≡◌, ◌≢◌, ◌<◌, ◌≤◌, length, take, drop, None, Some, IsSome, IfSome, IfOk, option_map};
ghost use Rattle.dme_c.specs.Calls.{Called};
ghost use Rattle.dme_c.specs.Codes.{call_answer, read_answer, state_number};
ghost use Rattle.contact_ledger.specs.FeatureTexts.{IsFeatures};
ghost use Rattle.protocol_model.specs.Ends.{end_left};
ghost use Rattle.dme_c.specs.ClientCalls.{Aborts, Connects, Feeds, HasText, IsTextOf, Reads, Resumes, Sends, Takes};

use crate::codes::{call_number, number_of_state, read_number};
use crate::handles::ClientHandle;
use crate::room::{copy_front, copy_whole};
use client_core::Client;
use contact_ledger::laws::written_features_are_read_back;
use contact_ledger::write_features;
use std::alloc::{AllocError, Global};

/// Drops the client, with all that it holds.
#[unsafe(no_mangle)]
pub extern "C" fn dme_client_free(client: &mut ClientHandle, alloc: Global)
    requires { IsSome client.old.held }
    ensures { client.new.held ≡ None }
{
    let _given_up = client.take(alloc);
}

/// Comes to the connection of this number.
#[tactic(auto, using(crate::proofs::Calls::called))]
#[unsafe(no_mangle)]
pub extern "C" fn dme_client_connected(client: &mut ClientHandle, alloc: Global, number: u64) -> u32
    requires { IsSome client.old.held }
    ensures { Called client.old.held client.new.held (call_answer result) (Connects number) }
{
    let mut core = client.take(alloc);
    let answer = core.connected(number);
    client.put(core);
    call_number(answer)
}

/// Takes bytes of the connection.
#[tactic(auto, using(crate::proofs::Calls::called))]
#[unsafe(no_mangle)]
pub extern "C" fn dme_client_feed(client: &mut ClientHandle, alloc: Global, piece: &[u8]) -> u32
    requires { IsSome client.old.held }
    ensures { Called client.old.held client.new.held (call_answer result) (Feeds piece.now) }
{
    let mut core = client.take(alloc);
    let answer = core.feed(piece);
    client.put(core);
    call_number(answer)
}

/// Writes the command that is due.
#[unsafe(no_mangle)]
pub extern "C" fn dme_client_send(client: &mut ClientHandle, alloc: Global) -> u32
    requires { IsSome client.old.held }
    ensures { Called client.old.held client.new.held (call_answer result) Sends }
{
    let mut core = client.take(alloc);
    let answer = core.send();
    client.put(core);
    call_number(answer)
}

/// Reads the first whole line, if there is one.
#[tactic(auto, using(crate::proofs::Calls::called_lent))]
#[unsafe(no_mangle)]
pub extern "C" fn dme_client_read(client: &mut ClientHandle, alloc: Global) -> u32
    requires { IsSome client.old.held }
    ensures { Called client.old.held client.new.held (read_answer result) Reads }
{
    let mut core = client.take(alloc);
    let answer = core.read_one();
    client.put(core);
    read_number(answer)
}

/// Writes an abort.
#[unsafe(no_mangle)]
pub extern "C" fn dme_client_abort(client: &mut ClientHandle, alloc: Global) -> u32
    requires { IsSome client.old.held }
    ensures { Called client.old.held client.new.held (call_answer result) Aborts }
{
    let mut core = client.take(alloc);
    let answer = core.abort();
    client.put(core);
    call_number(answer)
}

/// Resumes the plan after the last completed feature.
#[tactic(auto, using(crate::proofs::Calls::called))]
#[unsafe(no_mangle)]
pub extern "C" fn dme_client_resume(client: &mut ClientHandle, alloc: Global) -> u32
    requires { IsSome client.old.held }
    ensures { Called client.old.held client.new.held (call_answer result) Resumes }
{
    let mut core = client.take(alloc);
    let answer = core.resume();
    client.put(core);
    call_number(answer)
}

/// Leaves the connection.
#[unsafe(no_mangle)]
pub extern "C" fn dme_client_leave(client: &mut ClientHandle, alloc: Global)
    requires { IsSome client.old.held }
    ensures { client.new.held ≡ option_map end_left client.old.held }
{
    let mut core = client.take(alloc);
    core.leave();
    client.put(core);
}

/// The number of the state.
#[unsafe(no_mangle)]
pub extern "C" fn dme_client_state(client: &mut ClientHandle, alloc: Global) -> u32
    requires { IsSome client.old.held }
    ensures same { client.new.held ≡ client.old.held }
    ensures state { option_map (λ e. state_number e.client.state) client.old.held ≡ Some result }
{
    let core = client.take(alloc);
    let state = core.state();
    client.put(core);
    number_of_state(state)
}

/// Copies a prefix of what is to be sent into the room, as much as fits. It then counts as sent. Answers how many bytes.
#[tactic(auto, using(crate::proofs::Calls::called))]
#[unsafe(no_mangle)]
pub extern "C" fn dme_client_take(
    client: &mut ClientHandle,
    alloc: Global,
    room: &mut [u8],
) -> usize
    requires { IsSome client.old.held }
    ensures { Called client.old.held client.new.held (Some result)
        (λ old new count. Takes room.old room.new count old new) }
{
    let mut core = client.take(alloc);
    let count = copy_front(core.out(), room);
    core.sent(count);
    client.put(core);
    count
}

/// The number of an answer, and how many bytes a text has.
#[repr(C)]
#[derive(Drop)]
pub struct Text {
    pub number: u32,
    pub length: usize,
}

fn features_written(alloc: Global, client: &Client) -> Result<Vec<u8>, AllocError>
    ensures features { IfOk result (λ text.
        IsFeatures text.items client.now.client.table.tally.features) }
    ensures text { IfOk result (λ text.
        IsTextOf client.now.client.table.tally.features text.items) }
{
    written_features_are_read_back();
    let mut text = Vec::new(alloc);
    write_features(&mut text, client.features())?;
    Ok(text)
}

/// Copies the text of the completed features into the room if it fits, and answers its length.
#[unsafe(no_mangle)]
pub extern "C" fn dme_client_features(
    client: &mut ClientHandle,
    alloc: Global,
    room: &mut [u8],
) -> Text
    requires { IsSome client.old.held }
    ensures same { client.new.held ≡ client.old.held }
    ensures text { result.number ≡ 0 → result.length ≤ length room.old
        → IfSome client.old.held (λ e.
        IsFeatures (take result.length room.new) e.client.table.tally.features) }
    ensures whole { result.number ≡ 0 → IfSome client.old.held (λ e.
        HasText e.client.table.tally.features result.length room.old room.new) }
    ensures beside { result.number ≡ 0 → result.length ≤ length room.old
        → drop result.length room.new ≡ drop result.length room.old }
    ensures long { length room.old < result.length → room.new ≡ room.old }
    ensures memory { result.number ≢ 0 → room.new ≡ room.old }
    ensures number { result.number ≢ 0 → result.number ≡ 3 }
{
    let core = client.take(alloc);
    let text = features_written(alloc, &core);
    client.put(core);
    match text {
        Ok(text) => {
            let length = copy_whole(&text, room);
            Text { number: 0, length }
        }
        Err(AllocError) => Text {
            number: 3,
            length: 0,
        },
    }
}
