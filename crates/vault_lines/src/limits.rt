//! The limits of lines. The definitions take them from here, by `specs/Limits.antt`.

/// The most bytes of a line, without the line feed at its end.
pub const LONGEST_LINE: usize = 4096;

/// The most read calls for one script or one connection.
pub const MAX_READS: u32 = 33_554_432;
