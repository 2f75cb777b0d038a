//! Laws of the spellings of a vault.
ghost use Rattle.vault_format.specs.Laws.{OneSpelling, AllAreSpelled, SnapshotsAreShort, NoneIsLonger};

/// In each version of the files a durable vault has at most one spelling, and no two vaults have the same. In today's version
/// each has one, and its length fits into four bytes. No spelling is longer than `MAX_SNAPSHOT`.
pub fn a_spelling_is_of_one_vault()
    ensures one { OneSpelling }
    ensures all { AllAreSpelled }
    ensures short { SnapshotsAreShort }
    ensures longest { NoneIsLonger }
{}
