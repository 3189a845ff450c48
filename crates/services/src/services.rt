// What a service is to do.

/// The values of a service.
#[derive(Drop)]
pub struct Service {
    /// The address that is listened on; 127.0.0.1 if none is named.
    pub listen: Option<String>,
    pub port: u16,
    /// How many connections are taken, one after the other.
    pub connections: u32,
    /// The contacts file.
    pub contacts: Option<String>,
    /// Whether it says when a connection is taken and left.
    pub progress: bool,
    /// Whether each line is shown.
    pub trace: bool,
    /// The log.
    pub log: Option<String>,
    /// How many seconds a client may be silent.
    pub timeout: Option<u32>,
    /// The file that ends it when it appears.
    pub stop: Option<String>,
}

/// The address of this machine itself.
const OWN: &str = "127.0.0.1";

impl Service {
    /// The address that is listened on.
    pub(crate) fn address(&self) -> &str {
        self.listen.as_deref().unwrap_or(OWN)
    }

    /// Whether it is said which address is listened on.
    pub(crate) fn is_abroad(&self) -> bool {
        self.address() != OWN
    }

    /// The file that ends it.
    pub(crate) fn stop_name(&self) -> &str {
        self.stop.as_deref().unwrap_or("")
    }
}
