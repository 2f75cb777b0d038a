//! The vault's limits. The definitions take them from here, by `specs/Limits.antt`.

/// The most places above a place.
pub const GREATEST_DEPTH: usize = 7;

/// The most names of a path: one for each step down.
pub const MAX_NAMES: usize = GREATEST_DEPTH;

/// The least depth of a part.
pub const PART_DEPTH: usize = 3;

/// The most bytes of a name.
pub const LONGEST_NAME: usize = 32;

/// The most places of a tree, with the library.
pub const MAX_PLACES: usize = 4096;

/// The most children of a place.
pub const MAX_CHILDREN: usize = 64;

/// The most items of a claim.
pub const MAX_ITEMS: usize = 8;

/// The most claims at once, of both kinds.
pub const MAX_CLAIMS: usize = 256;

/// The most sessions at once, the door not counted.
pub const MAX_SESSIONS: usize = 64;

/// The last number that a session or a claim may get.
pub const LAST_NUMBER: u32 = u32::MAX;

/// The most bytes of a content.
pub const LONGEST_CONTENT: usize = 1024;

/// The most versions of a part.
pub const MAX_VERSIONS: usize = 65_535;

/// How many drafts a check-out may have.
pub const MAX_DRAFTS: usize = 64;

/// The most bytes of a check-out's note.
pub const LONGEST_NOTE: usize = 64;

/// The most that all contents weigh together.
pub const MAX_WEIGHT: usize = 16_777_216;

/// What a content weighs in addition to its bytes.
pub const EXTRA_WEIGHT: usize = 8;
