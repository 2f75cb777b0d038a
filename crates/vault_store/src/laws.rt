//! Laws of what is kept, on which the program's theorems rest.
ghost use Rattle.vault_store.specs.Laws.{CrashLeavesWhatIsKept, OneGateIsOpened, NotedIsSpelled, OneReading, EitherWay, OneVault, NothingIsWrong, OneFault};
ghost use Rattle.vault_store.specs.Companions.{FilesPass};
ghost use Rattle.vault_store.specs.Rows.{Rows};
ghost use Rattle.vault_store.specs.TwoVaults.{NothingIsTakenAway, ClosedFilesPass, FramesLeaveIt, TornGatesPass, SnapshotsPass};

use vault_device::Device;

/// What a crash leaves of the two files of honest devices is read as the durable (settled) vault. While a gate is being opened, it is
/// read as the sealed one exactly if that gate is 1. Unless a device call failed, all other bytes of that file are durable then.
pub fn a_crash_leaves_what_is_kept<D: Device>()
    ensures left { CrashLeavesWhatIsKept D.disk }
    ensures gate { OneGateIsOpened D.disk }
{}

/// The vault that all noted effects lead to has a spelling.
pub fn what_is_noted_is_spelled<D: Device>()
    ensures { NotedIsSpelled D.disk }
{}

/// Two files stand for at most one vault, in either order. If they stand for one, nothing is wrong with them. At most one thing is the
/// first that is wrong with two files.
pub fn files_stand_for_one_vault()
    ensures reading { OneReading }
    ensures either { EitherWay }
    ensures vault { OneVault }
    ensures right { NothingIsWrong }
    ensures fault { OneFault }
{}

/// The definitions give the files that were worked out by hand.
pub fn rows_are_given()
    ensures { Rows }
{}

/// The files of one vault are never reported as those of two. Those of a creation are of one vault, and so are those that were opened
/// and weren't reported as two (`create`, `open`). Each call keeps them so (`note`, `start_snapshot`, `advance`). Whatever a crash
/// leaves of them passes `vault_pairing::are_of_two_vaults`.
///
/// Call by call: files as a creation leaves them pass, since one is closed. A commit writes only behind the snapshot of the newer file.
/// A snapshot's first call may tear the older file's gate, and while its bytes are written that file is closed. Once its gate is
/// opened, the other file is the older one, and leads to an earlier state of the new snapshot's vault, since effects take nothing away.
pub fn files_of_one_vault_pass<D: Device>()
    ensures reached { FilesPass D.disk }
    ensures closed { ClosedFilesPass }
    ensures committed { FramesLeaveIt }
    ensures torn { TornGatesPass }
    ensures renewed { SnapshotsPass D.disk }
    ensures effects { NothingIsTakenAway }
{}
