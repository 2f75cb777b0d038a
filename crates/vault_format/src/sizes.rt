//! The sizes of a file's parts, in bytes.

/// How many bytes stand before the snapshot.
pub const HEADER: u64 = 24;

/// No vault's snapshot has more bytes: 10 for its three numbers, 40 for each of 4,095 places without its versions, the greatest
/// weight of all versions, and 66,100 for each of 256 check-outs with its drafts.
pub const MAX_SNAPSHOT: u32 = 33_862_626;

/// The most bytes of a frame's records.
pub const MAX_RECORDS: u32 = 262_139;

/// How many bytes a frame has beside its records: its commit mark (the gate byte) and the length of its records.
pub const FRAME_EXTRA: u64 = 5;
