//! A file through system calls.
ghost use Rattle.std.specs.Prelude.{◌≡◌, ◌≢◌, ◌≤◌, ◌<◌, ◌+◌, ◌^◌, IsTrue, IfOk, IfErr, Ok, Err, Some, None, length, take, slice_range, unwrap_or};
ghost use Rattle.std.specs.IoError.{error_kind};
ghost use Rattle.vault_device.specs.Disk.{Disk, IsRead, IsSync, IsLawful};
ghost use Rattle.vault_device.specs.RawFile.{IsPartWrite, unknown, unknown_lawful};

use std::fs::File;
use std::io;
use std::io::ErrorKind;
use std::os::unix::fs::FileExt;

/// A file through system calls, each of which may move fewer bytes than asked, and says why it failed. `FileDevice` makes a device of it.
pub trait RawFile {
    ghost bytes: { Self → Disk };

    /// How many bytes there are.
    fn len(&mut self) -> io::Result<u64>
        ensures honesty { (bytes self.new).honest ≡ (bytes self.old).honest }
        ensures kept { IsTrue (bytes self.old).honest → IsRead (bytes self.old) (bytes self.new) }
        ensures length { IsTrue (bytes self.old).honest → IfOk result (λ n. n ≡ length (bytes self.old).shown) };

    /// Reads some bytes to the buffer's front, and says how many; `None` where a signal came first.
    fn read_some(&mut self, at: u64, buffer: &mut [u8]) -> io::Result<Option<usize>>
        requires { IsTrue (bytes self.old).honest → at + length buffer.old ≤ length (bytes self.old).shown }
        ensures honesty { (bytes self.new).honest ≡ (bytes self.old).honest }
        ensures bound { IfOk result (λ moved. unwrap_or moved 0 ≤ length buffer.old) }
        ensures kept { IsTrue (bytes self.old).honest → IsRead (bytes self.old) (bytes self.new) }
        ensures bytes { IsTrue (bytes self.old).honest
            → IfOk result (λ moved. take (unwrap_or moved 0) buffer.new ≡ slice_range (bytes self.old).shown at (at + unwrap_or moved 0)) };

    /// Writes some bytes from the front, and says how many; `None` where a signal came first.
    fn write_some(&mut self, at: u64, text: &[u8]) -> io::Result<Option<usize>>
        requires begin { IsTrue (bytes self.old).honest → at ≤ length (bytes self.old).shown }
        requires end { IsTrue (bytes self.old).honest → at + length text.now < 2 ^ 63 }
        ensures honesty { (bytes self.new).honest ≡ (bytes self.old).honest }
        ensures bound { IfOk result (λ moved. unwrap_or moved 0 ≤ length text.now) }
        ensures write { IsTrue (bytes self.old).honest → IsPartWrite at text.now result (bytes self.old) (bytes self.new) };

    /// Makes bytes and length durable.
    fn settle(&mut self) -> io::Result<()>
        ensures honesty { (bytes self.new).honest ≡ (bytes self.old).honest }
        ensures sync { IsTrue (bytes self.old).honest → IsSync result (bytes self.old) (bytes self.new) };

    // What holds of an honest file at any time.
    ghost lawful: { (file : Self) → IsTrue (bytes file).honest → IsLawful (bytes file) };
}

// What a call moved; an interrupted one moved nothing.
fn moved(answer: io::Result<usize>) -> io::Result<Option<usize>>
    ensures moved { IfOk answer (λ count. result ≡ Ok (Some count)) }
    ensures interrupted { IfErr answer (λ e. error_kind e ≡ ErrorKind.Interrupted → result ≡ Ok None) }
    ensures failed { IfErr answer (λ e. error_kind e ≢ ErrorKind.Interrupted → result ≡ Err e) }
{
    match answer {
        Ok(count) => Ok(Some(count)),
        Err(error) => {
            if error.kind() == ErrorKind::Interrupted {
                return Ok(None);
            }
            Err(error)
        }
    }
}

// No contract of the standard library says what a file holds, so nothing is claimed of its bytes. Its honesty is a premise.
impl RawFile for File {
    ghost bytes = { λ file. unknown };

    ghost lawful = { λ file honest. unknown_lawful honest };

    fn len(&mut self) -> io::Result<u64> {
        Ok(self.metadata()?.len())
    }

    fn read_some(&mut self, at: u64, buffer: &mut [u8]) -> io::Result<Option<usize>> {
        moved(self.read_at(buffer, at))
    }

    fn write_some(&mut self, at: u64, text: &[u8]) -> io::Result<Option<usize>> {
        moved(self.write_at(text, at))
    }

    // Of std's two sync calls, this one makes the length durable too, on any file system.
    fn settle(&mut self) -> io::Result<()> {
        self.sync_all()
    }
}
