//! The limits of scripts. The definitions take them from here, by `specs/Limits.antt`.

/// The most bytes of a script.
pub const LONGEST_SCRIPT: usize = 16_777_216;

/// The last connection of a script. The first is 1.
pub const LAST_CONNECTION: u32 = 64;
