// Both sides of a world as they are before an event.

/// Where both sides are, which connection the server took last, and how many bytes wait where each of them writes.
#[derive(Clone, Copy)]
pub(crate) struct Standing {
    /// The number of the connection that the client is on, if it is on one.
    pub(crate) client: Option<u64>,
    /// The number of the connection that the server is on, if it is on one.
    pub(crate) server: Option<u64>,
    /// The number of the connection that the server took last; 0 if it took none.
    pub(crate) taken: u64,
    /// How many bytes of the client wait on the connection that it made last.
    pub(crate) up: usize,
    /// How many bytes of the server wait on the connection that it took last.
    pub(crate) down: usize,
}
