// The forms in which results are printed.

/// A form in which results are printed.
#[derive(Clone, Copy, Debug, PartialEq, Eq)]
pub enum Form {
    /// Comma-separated values (RFC 4180).
    Csv,
    /// JSON (RFC 8259).
    Json,
    /// A drawing (SVG 1.1).
    Svg,
}
