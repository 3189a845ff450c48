// Which program this is. `tools/release` writes the commit and the toolchain.

/// The version of `dme`.
pub const VERSION: &str = "1.0.0";

/// The commit whose sources a release was built from; a program that is built between two releases knows neither its own nor its toolchain.
pub const COMMIT: &str = "not a release";

/// The toolchain that has proved and built a release, as `rt version` prints it.
pub const TOOLCHAIN: &str = "not a release";
