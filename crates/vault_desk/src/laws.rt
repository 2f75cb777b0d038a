//! What the calls of a served vault come to.
ghost use Rattle.vault_desk.specs.Acts.{ActsAreARun};
ghost use Rattle.vault_desk.specs.Sights.{SeenIsAcknowledged, AcknowledgedStands};

/// The acts by which a served vault went on from its beginning are a run, after any run that reached the beginning. So what is promised of
/// runs (`group_commit::laws`) holds of what was served, whatever threads did.
pub fn acts_are_a_run()
    ensures { ActsAreARun }
{}

/// A receipt whose entry was seen as acknowledged is of the vault that went through what was seen. Its entry, with its session, its number,
/// its command and its reply, stands in the single history that led to that vault, at its position.
pub fn receipts_stand_in_the_history()
    ensures seen { SeenIsAcknowledged }
    ensures stands { AcknowledgedStands }
{}
