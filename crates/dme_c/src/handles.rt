// What a caller in C holds of a client, a server, a record and a server's errors.

ghost use Rattle.std.specs.Prelude.{◌≡◌, Option, None, Some, IsSome};
ghost use Rattle.dme_c.specs.Hearings.{HearingValue};
ghost use Rattle.dme_c.specs.Recordings.{RecordValue};
ghost use Rattle.protocol_model.specs.Ends.{ClientEnd};
ghost use Rattle.server_core.specs.Serving.{ServerValue};

use crate::hearings::Hearing;
use crate::recordings::Recording;
use client_core::Client;
use server_core::Server;
use std::alloc::Global;
use std::marker::Model;

/// What a caller holds of a client: a pointer that it may not use. Contracts see the client, while one is held.
#[repr(C)]
pub struct ClientHandle {
    at: *mut u8,
    pub ghost held: { Option ClientEnd },
}

impl Model for ClientHandle {
    ghost use Rattle.dme_c.specs.Held.{held_at};
    ghost use Rattle.client_core.specs.contracts.client.Client.{the_row};

    ghost also_owns = { λ h. held_at the_row h.at h.held };
}

impl ClientHandle {
    /// Takes the client out. Requires that one is held.
    pub(crate) fn take(&mut self, alloc: Global) -> Box<Client>
        requires { IsSome self.old.held }
        ensures client { self.old.held ≡ Some result.value }
        ensures empty { self.new.held ≡ None }
    {
        unsafe { Box::from_raw(alloc, self.at.cast::<Client>()) }
    }

    pub(crate) fn put(&mut self, client: Box<Client>)
        ensures { self.new.held ≡ Some client.value }
    {
        self.at = Box::into_raw(client).cast::<u8>();
    }
}

/// What a caller holds of a server: a pointer that it may not use. Contracts see the server, while one is held.
#[repr(C)]
pub struct ServerHandle {
    at: *mut u8,
    pub ghost held: { Option ServerValue },
}

impl Model for ServerHandle {
    ghost use Rattle.dme_c.specs.Held.{held_at};
    ghost use Rattle.server_core.specs.contracts.server.Server.{the_row};

    ghost also_owns = { λ h. held_at the_row h.at h.held };
}

impl ServerHandle {
    /// Takes the server out. Requires that one is held.
    pub(crate) fn take(&mut self, alloc: Global) -> Box<Server>
        requires { IsSome self.old.held }
        ensures server { self.old.held ≡ Some result.value }
        ensures empty { self.new.held ≡ None }
    {
        unsafe { Box::from_raw(alloc, self.at.cast::<Server>()) }
    }

    pub(crate) fn put(&mut self, server: Box<Server>)
        ensures { self.new.held ≡ Some server.value }
    {
        self.at = Box::into_raw(server).cast::<u8>();
    }
}

/// What a caller holds of a record: a pointer that it may not use. Contracts see the record, while one is held.
#[repr(C)]
pub struct RecordHandle {
    at: *mut u8,
    pub ghost held: { Option RecordValue },
}

impl Model for RecordHandle {
    ghost use Rattle.dme_c.specs.Held.{held_at};
    ghost use Rattle.dme_c.specs.contracts.recordings.Recording.{the_row};

    ghost also_owns = { λ h. held_at the_row h.at h.held };
}

impl RecordHandle {
    /// Takes the record out. Requires that one is held.
    pub(crate) fn take(&mut self, alloc: Global) -> Box<Recording>
        requires { IsSome self.old.held }
        ensures recording { self.old.held ≡ Some result.value }
        ensures empty { self.new.held ≡ None }
    {
        unsafe { Box::from_raw(alloc, self.at.cast::<Recording>()) }
    }

    pub(crate) fn put(&mut self, recording: Box<Recording>)
        ensures { self.new.held ≡ Some recording.value }
    {
        self.at = Box::into_raw(recording).cast::<u8>();
    }
}

/// What a caller holds of the errors: a pointer that it may not use. Contracts see the errors, while they are held.
#[repr(C)]
pub struct ErrorsHandle {
    at: *mut u8,
    pub ghost held: { Option HearingValue },
}

impl Model for ErrorsHandle {
    ghost use Rattle.dme_c.specs.Held.{held_at};
    ghost use Rattle.dme_c.specs.contracts.hearings.Hearing.{the_row};

    ghost also_owns = { λ h. held_at the_row h.at h.held };
}

impl ErrorsHandle {
    /// Takes the errors out. Requires that they are held.
    pub(crate) fn take(&mut self, alloc: Global) -> Box<Hearing>
        requires { IsSome self.old.held }
        ensures hearing { self.old.held ≡ Some result.value }
        ensures empty { self.new.held ≡ None }
    {
        unsafe { Box::from_raw(alloc, self.at.cast::<Hearing>()) }
    }

    pub(crate) fn put(&mut self, hearing: Box<Hearing>)
        ensures { self.new.held ≡ Some hearing.value }
    {
        self.at = Box::into_raw(hearing).cast::<u8>();
    }
}
