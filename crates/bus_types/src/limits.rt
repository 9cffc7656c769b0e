/// The greatest SCN. The least is 1, and 0 stands before every window.
pub const MAX_SCN: u64 = 9_223_372_036_854_775_807;

/// The most bytes that the payload of a row has.
pub const MAX_PAYLOAD: usize = 65_536;

/// The most changes that a window has.
pub const MAX_CHANGES: usize = 4_096;

/// The most bytes that a window takes on the wire, with its end-of-period mark.
pub const MAX_WINDOW: u64 = 1_048_576;
