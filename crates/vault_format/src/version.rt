//! The versions of a file.
ghost use Rattle.vault_format.specs.Faults.{IsVersionFound};

const FIRST_VERSION: [u8; 4] = [0, 0, 0, 1];

const SECOND_VERSION: [u8; 4] = [0, 0, 0, 2];

/// The version of a file, which says how its snapshot is spelled. Frames are the same in both.
#[derive(Clone, Copy, Debug, PartialEq, Eq)]
pub enum FileVersion {
    /// The first: it has no kinds of places and no notes of claims. It is still read, but no longer written.
    One,
    /// Today's.
    Two,
}

/// The version whose number these four bytes are, if any.
pub fn version_of(bytes: &[u8]) -> Option<FileVersion>
    ensures { IsVersionFound bytes.now result }
{
    if bytes[..] == FIRST_VERSION[..] {
        return Some(FileVersion::One);
    }
    if bytes[..] == SECOND_VERSION[..] {
        return Some(FileVersion::Two);
    }
    None
}
