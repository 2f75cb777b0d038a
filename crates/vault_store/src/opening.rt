//! Reads again the vault that two files hold.
ghost use Rattle.std.specs.Prelude.{◌≡◌, ◌⊎◌, ◌↔◌, ℕ, List, [], IfOk, IfErr, IsErr, OnOk, IsTrue, true};
ghost use Rattle.vault_journal.specs.Gate.{IsClosed};
ghost use Rattle.vault_store.specs.declared.opening.OpenError.TheVariants.{Device as DeviceFailed, NoMemory as Wanted};
ghost use Rattle.vault_store.specs.Calls.{HasCause, IsQuiet, AreQuiet};
ghost use Rattle.vault_format.specs.Faults.{IsDamagedHead};
ghost use Rattle.vault_format.specs.Files.{AreRead};
ghost use Rattle.vault_store.specs.Companions.{IsOfOneVault};
ghost use Rattle.vault_store.specs.OnDisk.{IsSettled};
ghost use Rattle.vault_store.specs.Opening.{IsNotOpened, IsHandedOn, AreSettled, AreLeftSettled};
ghost use Rattle.vault_store.specs.Read.{AreReads, AreContents, IsFaultBehindHead, IsGenerationRead, IsWhyNot, IsNewerIn};
ghost use Rattle.vault_store.specs.State.{at_rest};
ghost use Rattle.vault_store.specs.Seen.{of_file, first_of, second_of, Keeps, settled_reading};
ghost use Rattle.vault_store.specs.TwoVaults.{AreOfTwoVaults};

use crate::body::{Contents, ReadError, read_contents};
use crate::front::{Head, read_head};
use crate::journal::read_gate;
use crate::{Phase, Refused, Store};
use std::alloc::Allocator;
use thiserror::Error;
use vault_checkout::Book;
use vault_device::{Device, Fault};
use vault_journal::Frame;

/// One of the two files.
#[derive(Clone, Copy, Debug, PartialEq, Eq)]
pub enum File {
    First,
    Second,
}

/// Why no vault was opened.
#[derive(Clone, Copy, Debug, PartialEq, Eq, Error)]
pub enum OpenError {
    /// No file is open.
    #[error("no vault")]
    NoVault,
    /// The first fault, by the file and the offset in it.
    #[error("damaged at {offset}")]
    Damaged { file: File, offset: u64 },
    #[error("device fault")]
    Device,
    #[error("want of memory")]
    NoMemory,
}

impl From<Fault> for OpenError {
    ghost from_gives = { λ _ e. e ≡ DeviceFailed };

    fn from(_fault: Fault) -> OpenError {
        OpenError::Device
    }
}

// What the head of a file says: the generation of an open file, and whether the gate is there and closed.
#[derive(Clone, Copy)]
struct Headed {
    generation: Option<u64>,
    shut: bool,
}

// The active file, its generation, and whether the spare's head gate is there and closed.
#[derive(Clone, Copy)]
struct Active {
    which: File,
    generation: u64,
    spare_shut: bool,
}

// The generation of an open file; `None` for a closed one.
fn generation_in<D: Device>(which: File, device: &mut D) -> Result<Option<u64>, OpenError>
    ensures reads { AreReads (D.disk device.old) (D.disk device.new) }
    ensures generation { IsTrue (D.disk device.old).honest
        → IfOk result (λ generation. IsGenerationRead (D.disk device.old).shown generation) }
    ensures refused { IfErr result
        (λ why. IsWhyNot (D.disk device.old) (D.disk device.new) which (IsDamagedHead (D.disk device.old).shown) why) }
    ensures memory { IfErr result (λ why. why ≡ Wanted → ⊥) }
    ensures quiet { OnOk result (IsQuiet (D.disk device.old) (D.disk device.new)) }
{
    match read_head(device)? {
        Head::Closed => Ok(None),
        Head::Open {
            version: _,
            generation,
        } => Ok(Some(generation)),
        Head::Damaged(offset) => Err(OpenError::Damaged {
            file: which,
            offset,
        }),
    }
}

// Whether the head gate of a file is there and closed. Two device calls at most.
fn is_shut<D: Device>(device: &mut D) -> Result<bool, Fault>
    ensures reads { AreReads (D.disk device.old) (D.disk device.new) }
    ensures shut { IsTrue (D.disk device.old).honest → IfOk result (λ shut. (shut ≡ true) ↔ IsClosed 0 (D.disk device.old).shown) }
    ensures cause { IsErr result → HasCause (D.disk device.old) (D.disk device.new) }
    ensures quiet { OnOk result (IsQuiet (D.disk device.old) (D.disk device.new)) }
{
    if device.len()? == 0 {
        return Ok(false);
    }
    Ok(read_gate(device, 0)? != 1)
}

// Reads what the head of a file says. Four device calls at most.
fn look_at<D: Device>(which: File, device: &mut D) -> Result<Headed, OpenError>
    ensures reads { AreReads (D.disk device.old) (D.disk device.new) }
    ensures generation { IsTrue (D.disk device.old).honest
        → IfOk result (λ headed. IsGenerationRead (D.disk device.old).shown headed.generation) }
    ensures shut { IsTrue (D.disk device.old).honest → IfOk result (λ headed. (headed.shut ≡ true) ↔ IsClosed 0 (D.disk device.old).shown) }
    ensures refused { IfErr result
        (λ why. IsWhyNot (D.disk device.old) (D.disk device.new) which (IsDamagedHead (D.disk device.old).shown) why) }
    ensures memory { IfErr result (λ why. why ≡ Wanted → ⊥) }
    ensures quiet { OnOk result (IsQuiet (D.disk device.old) (D.disk device.new)) }
{
    let generation = generation_in(which, device)?;
    let shut = is_shut(device)?;
    Ok(Headed { generation, shut })
}

// The open file of the greater generation.
fn newer(first: Headed, second: Headed) -> Result<Active, OpenError>
    ensures newer { IfOk result (λ active. (x y : List ℕ) → IsGenerationRead x first.generation → IsGenerationRead y second.generation
        → IsNewerIn x y active.which active.generation) }
    ensures refused { IfErr result
        (λ why. (x y : List ℕ) → IsGenerationRead x first.generation → IsGenerationRead y second.generation → IsNotOpened x y why) }
    ensures files { IfErr result (λ why. why ≡ DeviceFailed → ⊥) }
    ensures memory { IfErr result (λ why. why ≡ Wanted → ⊥) }
    ensures shut { IfOk result (λ active. active.spare_shut ≡ of_file active.which second.shut first.shut) }
{
    match (first.generation, second.generation) {
        (None, None) => Err(OpenError::NoVault),
        (Some(generation), None) => Ok(Active {
            which: File::First,
            generation,
            spare_shut: second.shut,
        }),
        (None, Some(generation)) => Ok(Active {
            which: File::Second,
            generation,
            spare_shut: first.shut,
        }),
        (Some(one), Some(other)) if one > other => Ok(Active {
            which: File::First,
            generation: one,
            spare_shut: second.shut,
        }),
        (Some(one), Some(other)) if one < other => Ok(Active {
            which: File::Second,
            generation: other,
            spare_shut: first.shut,
        }),
        (Some(_), Some(_)) => Err(OpenError::Damaged {
            file: File::Second,
            offset: 12,
        }),
    }
}

// Syncs both files, and finds the active one by their heads.
fn find_active<D: Device>(first: &mut D, second: &mut D) -> Result<Active, OpenError>
    ensures first { IsHandedOn (D.disk first.old) (D.disk first.new) }
    ensures second { IsHandedOn (D.disk second.old) (D.disk second.new) }
    ensures settled_first { IsTrue (D.disk first.old).honest → OnOk result (IsSettled (D.disk first.new)) }
    ensures settled_second { IsTrue (D.disk second.old).honest → OnOk result (IsSettled (D.disk second.new)) }
    ensures found { IsTrue (D.disk first.old).honest → IsTrue (D.disk second.old).honest
        → IfOk result (λ active. IsNewerIn (D.disk first.old).shown (D.disk second.old).shown active.which active.generation) }
    ensures shut { IfOk result (λ active. IsTrue (D.disk (of_file active.which second.old first.old)).honest → (active.spare_shut ≡ true)
        ↔ IsClosed 0 (D.disk (of_file active.which second.old first.old)).shown) }
    ensures refused { IsTrue (D.disk first.old).honest → IsTrue (D.disk second.old).honest
        → IfErr result (λ why. IsNotOpened (D.disk first.old).shown (D.disk second.old).shown why) }
    ensures settled { IfErr result (λ why. AreLeftSettled (D.disk first.new) (D.disk second.new) why) }
    ensures cause { IfErr result
        (λ why. why ≡ DeviceFailed → HasCause (D.disk first.old) (D.disk first.new) ⊎ HasCause (D.disk second.old) (D.disk second.new)) }
    ensures memory { IfErr result (λ why. why ≡ Wanted → ⊥) }
    ensures quiet { OnOk result (AreQuiet (D.disk first.old) (D.disk second.old) (D.disk first.new) (D.disk second.new)) }
{
    first.sync()?;
    second.sync()?;
    let one = look_at(File::First, first)?;
    let other = look_at(File::Second, second)?;
    newer(one, other)
}

// Reads the active file, and gives a frame to fill.
fn read_active<D: Device, A: Allocator + Copy>(
    alloc: A,
    which: File,
    active: &mut D,
) -> Result<(Contents<A>, Frame<A>), OpenError>
    ensures reads { AreReads (D.disk active.old) (D.disk active.new) }
    ensures contents { IfOk result
        (λ read. AreContents (D.disk active.old) read.0.version read.0.book read.0.frames read.0.tail read.0.journal_length) }
    ensures frame { IfOk result (λ read. read.1 ≡ []) }
    ensures refused { IfErr result
        (λ why. IsWhyNot (D.disk active.old) (D.disk active.new) which (IsFaultBehindHead (D.disk active.old).shown) why) }
    ensures quiet { OnOk result (IsQuiet (D.disk active.old) (D.disk active.new)) }
{
    match read_contents(alloc, active) {
        Ok(contents) => {
            let Ok(frame) = Frame::new(alloc) else {
                drop(contents);
                return Err(OpenError::NoMemory);
            };
            Ok((contents, frame))
        }
        Err(ReadError::Damaged(offset)) => Err(OpenError::Damaged {
            file: which,
            offset,
        }),
        Err(ReadError::Device) => Err(OpenError::Device),
        Err(ReadError::NoMemory) => Err(OpenError::NoMemory),
    }
}

/// Two devices, swapped if the second file is the active one.
pub fn in_turn<D: Device>(which: File, one: D, other: D) -> (D, D)
    ensures { (result.0 ≡ of_file which one other) × (result.1 ≡ of_file which other one) }
{
    match which {
        File::First => (one, other),
        File::Second => (other, one),
    }
}

impl<D: Device, A: Allocator + Copy> Store<D, A> {
    /// Opens the vault that two files hold, and gives its book with the store. A refusal hands the devices back. It begins with a sync
    /// of each device and writes nothing.
    ///
    /// It reads the head of each file, and its first byte once more. It reads the file of the greater generation up to its tail gate,
    /// with three device calls a frame. It reads a snapshot of more than 2 MiB piece by piece; where a piece ends inside a place, it
    /// reads the first part of that place once more. Beside the book it takes memory for the bytes of the snapshot, or of a piece and
    /// of the check-outs, for the bytes and the effects of one frame at a time, and for the frame to fill.
    pub fn open(
        alloc: A,
        first: D,
        second: D,
    ) -> Result<(Store<D, A>, Book<A>), Refused<D, OpenError>>
        ensures kept { IfOk result (λ opened. Keeps D.disk opened.0 (at_rest opened.1)) }
        ensures read { IsTrue (D.disk first).honest → IsTrue (D.disk second).honest
            → IfOk result (λ opened. AreRead (D.disk first).shown (D.disk second).shown (settled_reading opened.0 (at_rest opened.1))) }
        ensures one_vault { (AreOfTwoVaults (D.disk first).shown (D.disk second).shown → ⊥)
            → IfOk result (λ opened. IsOfOneVault D.disk opened.0) }
        ensures handed_on { IfOk result
            (λ opened. IsHandedOn (D.disk first) (D.disk (first_of opened.0)) × IsHandedOn (D.disk second) (D.disk (second_of opened.0))) }
        ensures refused { IsTrue (D.disk first).honest → IsTrue (D.disk second).honest
            → IfErr result (λ refused. IsNotOpened (D.disk first).shown (D.disk second).shown refused.why) }
        ensures settled { IfOk result (λ opened. AreSettled (D.disk (first_of opened.0)) (D.disk (second_of opened.0))) }
        ensures left_settled { IfErr result (λ refused. AreLeftSettled (D.disk refused.first) (D.disk refused.second) refused.why) }
        ensures cause { IfErr result (λ refused. refused.why ≡ DeviceFailed → HasCause (D.disk first) (D.disk refused.first)
            ⊎ HasCause (D.disk second) (D.disk refused.second)) }
        ensures memory { IfErr result
            (λ refused. refused.why ≡ Wanted → AreQuiet (D.disk first) (D.disk second) (D.disk refused.first) (D.disk refused.second)) }
        ensures quiet { IfOk result
            (λ opened. AreQuiet (D.disk first) (D.disk second) (D.disk (first_of opened.0)) (D.disk (second_of opened.0))) }
        ensures handed_back { IfErr result
            (λ refused. IsHandedOn (D.disk first) (D.disk refused.first) × IsHandedOn (D.disk second) (D.disk refused.second)) }
    {
        let mut first = first;
        let mut second = second;
        let Active {
            which,
            generation,
            spare_shut,
        } = match find_active(&mut first, &mut second) {
            Ok(active) => active,
            Err(why) => return Err(Refused { why, first, second }),
        };
        let (mut active, spare) = in_turn(which, first, second);
        match read_active(alloc, which, &mut active) {
            Ok((contents, frame)) => {
                let Contents {
                    version,
                    book,
                    frames: _,
                    tail,
                    journal_length,
                } = contents;
                let store = Store {
                    active,
                    spare,
                    which,
                    frame,
                    sealed: 0,
                    version,
                    generation,
                    tail,
                    journal_length,
                    phase: Phase::Idle,
                    broken: false,
                    spare_shut,
                    rest: None,
                    room: None,
                };
                Ok((store, book))
            }
            Err(why) => {
                let (first, second) = in_turn(which, active, spare);
                Err(Refused { why, first, second })
            }
        }
    }
}
