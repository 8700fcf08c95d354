/// The most bytes of a file that is read.
pub const FILE_MAX: usize = 16_777_216;

/// The most bytes of a compact text.
pub const COMPACT_MAX: usize = 8_388_608;

/// The most bytes of a compact text that is issued. What is left to
/// `COMPACT_MAX` holds a key binding token.
pub const ISSUE_MAX: usize = 8_380_416;

/// The most disclosures of a token, and the most hidden places and decoys of an issue order.
pub const COUNT_MAX: usize = 32_768;
