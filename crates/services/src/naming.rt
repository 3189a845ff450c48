// The files that a service or a relay names.

ghost use Rattle.std.specs.Prelude.{◌≡◌, IfOk, OnOk};
ghost use Rattle.services.specs.Naming as spec;

use crate::{Relay, Service};
use effects::NamedFiles;
use std::alloc::{AllocError, Global};

impl Service {
    /// The files that are named, that of the setup, too; `-` is standard input there. Fails only if out of memory.
    pub fn files(&self, alloc: Global, setup: &str) -> Result<NamedFiles, AllocError>
        ensures { IfOk result (λ files. files ≡ spec.service_files setup.now self.now) }
    {
        let mut files = NamedFiles::new(alloc);
        if setup != "-" {
            files.add("--setup", Some(setup), false)?;
        }
        files.add("--contacts", self.contacts.as_deref(), true)?;
        files.add("--log", self.log.as_deref(), true)?;
        files.add("--stop", self.stop.as_deref(), false)?;
        Ok(files)
    }
}

/// The files that the bytes of the first connection are kept in join others. Fails only if out of memory.
fn add_recording(files: &mut NamedFiles, alloc: Global, folder: &str) -> Result<(), AllocError>
    ensures { OnOk result (files.new ≡ spec.with_recording folder.now files.old) }
{
    let up = format!(in alloc; "{folder}/1.up")?;
    let down = format!(in alloc; "{folder}/1.down")?;
    let order = format!(in alloc; "{folder}/1.order")?;
    files.add("--record-bytes", Some(up.as_str()), false)?;
    files.add("--record-bytes", Some(down.as_str()), false)?;
    files.add("--record-bytes", Some(order.as_str()), false)
}

impl Relay {
    /// The files that are named, with those of the first recording, which are new, so that they do not disturb one another. Fails only if out of
    /// memory.
    pub fn files(&self, alloc: Global) -> Result<NamedFiles, AllocError>
        ensures { IfOk result (λ files. files ≡ spec.relay_files self.now) }
    {
        let mut files = NamedFiles::new(alloc);
        files.add("--told", Some(self.told.as_str()), true)?;
        files.add("--log", self.log.as_deref(), true)?;
        if let Some(folder) = self.folder.as_deref() {
            add_recording(&mut files, alloc, folder)?;
        }
        Ok(files)
    }
}
