//! A new vault in two empty files.
ghost use Rattle.std.specs.Prelude.{◌≡◌, ◌↔◌, [], IfOk, OnOk, OnErr, IfErr, IsTrue};
ghost use Rattle.vault_state.specs.Vault.{new_vault};
ghost use Rattle.vault_store.specs.declared.creation.CreateError.TheVariants.{Device as DeviceFailed, NoMemory as Wanted};
ghost use Rattle.vault_device.specs.Disk.{LeavesOnly, LeavesSince};
ghost use Rattle.vault_store.specs.Calls.{AreCalls, IsCalled, AreQuiet};
ghost use Rattle.vault_store.specs.OnDisk.{IsSettled};
ghost use Rattle.vault_store.specs.Companions.{IsOfOneVault};
ghost use Rattle.vault_store.specs.Create.{new_file, IsNotMade, IsFilled, IsClosedOrNew, StopsInCreation, PassesInCreation, AreSettledUnmade};
ghost use Rattle.vault_format.specs.Snapshot.{current_version};
ghost use Rattle.vault_store.specs.State.{at_rest};
ghost use Rattle.vault_store.specs.Seen.{first_of, second_of, Keeps};

use crate::calls::{is_empty, settle, write_settled};
use crate::{File, FileVersion, Phase, Refused, Store};
use std::alloc::Allocator;
use thiserror::Error;
use vault_device::{Device, Fault};
use vault_journal::Frame;
use vault_model::NoMemory;

/// Why no vault was made.
#[derive(Clone, Copy, Debug, PartialEq, Eq, Error)]
pub enum CreateError {
    /// A file isn't empty.
    #[error("vault exists")]
    Exists,
    #[error("device fault")]
    Device,
    #[error("want of memory")]
    NoMemory,
}

impl From<Fault> for CreateError {
    ghost from_gives = { λ _ e. e ≡ DeviceFailed };

    fn from(_fault: Fault) -> CreateError {
        CreateError::Device
    }
}

impl From<NoMemory> for CreateError {
    ghost from_gives = { λ _ e. e ≡ Wanted };

    fn from(_error: NoMemory) -> CreateError {
        CreateError::NoMemory
    }
}

// The file of a new vault, 35 bytes. Offsets are of the file, one more than in the array below.
//
//   offset  bytes
//        0      1  the head gate, written last
//        1      7  `LLVAULT`
//        8      4  version 2
//       12      8  generation 1
//       20      4  the snapshot's length, 10
//       24     10  the snapshot: no check-out was numbered, one place, no check-out stands
//       34      1  the tail gate, closed

// What stands behind the head gate of a new vault's file: the mark, the version, the generation, the snapshot's length, the
// snapshot of a vault with the library alone, and a closed tail gate.
const NEW_FILE_BEHIND_GATE: [u8; 34] = [
    b'L', b'L', b'V', b'A', b'U', b'L', b'T', 0, 0, 0, 2, 0, 0, 0, 0, 0, 0, 0, 1, 0, 0, 0, 10, 0,
    0, 0, 0, 0, 0, 0, 1, 0, 0, 0,
];

// The offset of the tail gate in the file.
const NEW_TAIL: u64 = 34;

// Syncs a file, and says whether it is empty. Two device calls.
fn is_settled_empty<D: Device>(device: &mut D) -> Result<bool, Fault>
    ensures calls { AreCalls (D.disk device.old) (D.disk device.new) result }
    ensures shown { IsTrue (D.disk device.old).honest → (D.disk device.new).shown ≡ (D.disk device.old).shown }
    ensures moments { IsTrue (D.disk device.old).honest → LeavesSince (D.disk device.old) (D.disk device.new) (D.disk device.old).IsImage }
    ensures settled { IsTrue (D.disk device.old).honest → OnOk result (IsSettled (D.disk device.new)) }
    ensures empty { IsTrue (D.disk device.old).honest → IfOk result (λ empty. IsTrue empty ↔ ((D.disk device.old).shown ≡ [])) }
{
    settle(device)?;
    is_empty(device)
}

// Writes a new vault with its head gate closed, and then opens the gate. Six device calls.
fn write_new<D: Device>(device: &mut D) -> Result<(), Fault>
    requires { IsTrue (D.disk device.old).honest → (D.disk device.old).shown ≡ [] }
    ensures calls { AreCalls (D.disk device.old) (D.disk device.new) result }
    ensures moments { IsTrue (D.disk device.old).honest → LeavesOnly (D.disk device.old) []
        → LeavesSince (D.disk device.old) (D.disk device.new) IsClosedOrNew }
    ensures shown { IsTrue (D.disk device.old).honest → OnOk result ((D.disk device.new).shown ≡ new_file) }
    ensures settled { IsTrue (D.disk device.old).honest → OnOk result (IsSettled (D.disk device.new)) }
{
    write_settled(device, 0, &[0])?;
    write_settled(device, 1, &NEW_FILE_BEHIND_GATE)?;
    write_settled(device, 0, &[1])
}

// Syncs two files, writes a new vault into the first if both are empty, and gives a frame to fill.
fn make<D: Device, A: Allocator>(
    alloc: A,
    first: &mut D,
    second: &mut D,
) -> Result<Frame<A>, CreateError>
    ensures first { IsCalled (D.disk first.old) (D.disk first.new) }
    ensures second { IsCalled (D.disk second.old) (D.disk second.new) }
    ensures refused { IfErr result (λ why. IsNotMade (D.disk first.old) (D.disk second.old) (D.disk first.new) (D.disk second.new) why) }
    ensures settled { IfErr result (λ why. AreSettledUnmade (D.disk first.new) (D.disk second.new) why) }
    ensures memory { IfErr result
        (λ why. why ≡ Wanted → AreQuiet (D.disk first.old) (D.disk second.old) (D.disk first.new) (D.disk second.new)) }
    ensures made { IsTrue (D.disk first.old).honest → LeavesOnly (D.disk first.old) []
        → LeavesSince (D.disk first.old) (D.disk first.new) IsClosedOrNew }
    ensures left { IsTrue (D.disk second.old).honest → LeavesSince (D.disk second.old) (D.disk second.new) (D.disk second.old).IsImage }
    ensures frame { IfOk result (λ frame. frame ≡ []) }
    ensures file { IsTrue (D.disk first.old).honest → OnOk result (IsFilled (D.disk first.old) (D.disk first.new) new_file) }
    ensures empty { IsTrue (D.disk second.old).honest → OnOk result (IsFilled (D.disk second.old) (D.disk second.new) []) }
{
    let none = is_settled_empty(first)?;
    let none_behind = is_settled_empty(second)?;
    if !none || !none_behind {
        return Err(CreateError::Exists);
    }
    let frame = Frame::new(alloc)?;
    write_new(first)?;
    Ok(frame)
}

impl<D: Device, A: Allocator> Store<D, A> {
    /// Makes a vault with the library alone, in the first of two empty files. It begins with a sync of each device. A refusal
    /// hands the devices back. A creation that failed or crashed leaves files of which none is open, or those of the new vault.
    /// Ten device calls.
    pub fn create(alloc: A, first: D, second: D) -> Result<Store<D, A>, Refused<D, CreateError>>
        ensures kept { IfOk result (λ store. Keeps D.disk store (at_rest new_vault)) }
        ensures version { IfOk result (λ store. store.version ≡ current_version) }
        ensures numbers { IfOk result (λ store. (store.generation ≡ 1) × (store.tail ≡ 34) × (store.journal_length ≡ 0)) }
        ensures file { IsTrue (D.disk first).honest → IfOk result (λ store. IsFilled (D.disk first) (D.disk (first_of store)) new_file) }
        ensures empty { IsTrue (D.disk second).honest → IfOk result (λ store. IsFilled (D.disk second) (D.disk (second_of store)) []) }
        ensures called { IfOk result
            (λ store. IsCalled (D.disk first) (D.disk (first_of store)) × IsCalled (D.disk second) (D.disk (second_of store))) }
        ensures stops { IfOk result
            (λ store. StopsInCreation (D.disk first) (D.disk second) (D.disk (first_of store)) (D.disk (second_of store))) }
        ensures refused_stops { IfErr result
            (λ refused. StopsInCreation (D.disk first) (D.disk second) (D.disk refused.first) (D.disk refused.second)) }
        ensures one_vault { IfOk result (λ store. IsOfOneVault D.disk store) }
        ensures passes { IfOk result
            (λ store. PassesInCreation (D.disk first) (D.disk second) (D.disk (first_of store)) (D.disk (second_of store))) }
        ensures refused_passes { IfErr result
            (λ refused. PassesInCreation (D.disk first) (D.disk second) (D.disk refused.first) (D.disk refused.second)) }
        ensures refused { IfErr result
            (λ refused. IsNotMade (D.disk first) (D.disk second) (D.disk refused.first) (D.disk refused.second) refused.why) }
        ensures left_settled { IfErr result (λ refused. AreSettledUnmade (D.disk refused.first) (D.disk refused.second) refused.why) }
        ensures memory { IfErr result
            (λ refused. refused.why ≡ Wanted → AreQuiet (D.disk first) (D.disk second) (D.disk refused.first) (D.disk refused.second)) }
        ensures handed_back { IfErr result
            (λ refused. IsCalled (D.disk first) (D.disk refused.first) × IsCalled (D.disk second) (D.disk refused.second)) }
    {
        let mut first = first;
        let mut second = second;
        match make(alloc, &mut first, &mut second) {
            Ok(frame) => Ok(Store {
                active: first,
                spare: second,
                which: File::First,
                frame,
                sealed: 0,
                version: FileVersion::Two,
                generation: 1,
                tail: NEW_TAIL,
                journal_length: 0,
                phase: Phase::Idle,
                broken: false,
                spare_shut: false,
                rest: None,
                room: None,
            }),
            Err(why) => Err(Refused { why, first, second }),
        }
    }
}
