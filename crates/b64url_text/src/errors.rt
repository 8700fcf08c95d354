/// Why a text was not decoded.
#[derive(Clone, Copy, Debug, PartialEq, Eq)]
pub enum DecodeError {
    /// There was no memory for the bytes.
    Memory,
    /// The text is that of no bytes.
    NotBase64,
}

/// The text is that of no bytes.
#[derive(Clone, Copy, Debug, PartialEq, Eq)]
pub struct NotBase64;
