//! How long a text and its parts may be, in bytes (docs/FORMATS.md, Limits).

/// The longest text of a Gerber layer or a drill file, in bytes: 256 MiB.
pub const TEXT_LIMIT: usize = 268_435_456;

/// The longest item of a Gerber text, in bytes: its marks (`*` or both `%`) count, line breaks do not.
pub const ITEM_LIMIT: usize = 1_048_576;

/// The longest line of a drill file, in bytes, without its LF.
pub const LINE_LIMIT: usize = 1_048_576;
