// The two ports of a connection.

/// The two ports of a connection: where its bytes come in, and where they go out.
#[derive(Drop)]
pub struct Ports<R, W> {
    pub source: R,
    pub sink: W,
}
