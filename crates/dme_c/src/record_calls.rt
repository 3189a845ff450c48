// The calls of a record, for C.

ghost use Rattle.std.specs.Prelude.{◌≡◌, None, Some, IsSome};
ghost use Rattle.dme_c.specs.Calls.{Called};
ghost use Rattle.dme_c.specs.Codes.{call_answer};
ghost use Rattle.dme_c.specs.Recordings.{CalledBoth, Connects, Follows, Resumes, Takes};

use crate::codes::call_number;
use crate::handles::{ClientHandle, RecordHandle};
use std::alloc::Global;

/// Drops the record.
#[unsafe(no_mangle)]
pub extern "C" fn dme_record_free(kept: &mut RecordHandle, alloc: Global)
    requires { IsSome kept.old.held }
    ensures { kept.new.held ≡ None }
{
    let _given_up = kept.take(alloc);
}

/// Adds the lines of what the client has counted since the last call.
#[unsafe(no_mangle)]
pub extern "C" fn dme_record_follow(
    kept: &mut RecordHandle,
    client: &mut ClientHandle,
    alloc: Global,
) -> u32
    requires kept { IsSome kept.old.held }
    requires client { IsSome client.old.held }
    ensures { CalledBoth client.old.held client.new.held kept.old.held kept.new.held
        (call_answer result) Follows }
{
    let mut recording = kept.take(alloc);
    let core = client.take(alloc);
    let answer = recording.follow(&core);
    client.put(core);
    kept.put(recording);
    call_number(answer)
}

/// The client comes to the next connection of the record.
#[tactic(auto, using(crate::proofs::Calls::called_both))]
#[unsafe(no_mangle)]
pub extern "C" fn dme_record_connected(
    kept: &mut RecordHandle,
    client: &mut ClientHandle,
    alloc: Global,
) -> u32
    requires kept { IsSome kept.old.held }
    requires client { IsSome client.old.held }
    ensures { CalledBoth client.old.held client.new.held kept.old.held kept.new.held
        (call_answer result) Connects }
{
    let mut recording = kept.take(alloc);
    let mut core = client.take(alloc);
    let answer = recording.connect(&mut core);
    client.put(core);
    kept.put(recording);
    call_number(answer)
}

/// The client resumes its plan after the last completed feature.
#[tactic(auto, using(crate::proofs::Calls::called_both))]
#[unsafe(no_mangle)]
pub extern "C" fn dme_record_resume(
    kept: &mut RecordHandle,
    client: &mut ClientHandle,
    alloc: Global,
) -> u32
    requires kept { IsSome kept.old.held }
    requires client { IsSome client.old.held }
    ensures { CalledBoth client.old.held client.new.held kept.old.held kept.new.held
        (call_answer result) Resumes }
{
    let mut recording = kept.take(alloc);
    let mut core = client.take(alloc);
    let answer = recording.resume(&mut core);
    client.put(core);
    kept.put(recording);
    call_number(answer)
}

/// Copies a prefix of the bytes that wait into the room, as much as fits. They then wait no more. Answers how many bytes.
#[tactic(auto, using(crate::proofs::Calls::called))]
#[unsafe(no_mangle)]
pub extern "C" fn dme_record_take(kept: &mut RecordHandle, alloc: Global, room: &mut [u8]) -> usize
    requires { IsSome kept.old.held }
    ensures { Called kept.old.held kept.new.held (Some result)
        (λ old new count. Takes room.old room.new count old new) }
{
    let mut recording = kept.take(alloc);
    let count = recording.take(room);
    kept.put(recording);
    count
}
