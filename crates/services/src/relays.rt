// What a relay is to do.

/// The values of a relay.
#[derive(Drop)]
pub struct Relay {
    /// The port that is listened on.
    pub listen: u16,
    /// The server's host and port.
    pub host: String,
    pub port: u16,
    /// The told file.
    pub told: String,
    /// The folder that the bytes of both ends are kept in.
    pub folder: Option<String>,
    /// How many connections are relayed, one after the other.
    pub connections: u32,
    /// Whether each line is shown.
    pub trace: bool,
    /// The log.
    pub log: Option<String>,
    /// How many seconds both ends may be silent.
    pub timeout: Option<u32>,
}
