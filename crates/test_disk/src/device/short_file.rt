//! An honest file that moves few bytes at a time, and that a signal interrupts at every other call.
ghost use Rattle.std.specs.Prelude.{◌≡◌};

use std::io::{self, ErrorKind};
use vault_device::{Device, Fault, RawFile};

#[derive(Drop)]
pub struct ShortFile<D> {
    device: D,
    interrupts: bool,
}

impl<D: Device> ShortFile<D> {
    /// A file over a device, in short parts.
    pub(crate) fn over(device: D) -> ShortFile<D>
        ensures { result.device ≡ device }
    {
        ShortFile {
            device,
            interrupts: false,
        }
    }
}

// Why a call of the file failed.
fn why(_fault: Fault) -> io::Error {
    io::Error::from(ErrorKind::Other)
}

impl<D: Device> RawFile for ShortFile<D> {
    ghost bytes = { λ f. D.disk f.device };

    ghost lawful = { λ f honest. D.lawful f.device honest };

    fn len(&mut self) -> io::Result<u64> {
        self.device.len().map_err(why)
    }

    fn read_some(&mut self, at: u64, buffer: &mut [u8]) -> io::Result<Option<usize>> {
        self.interrupts = !self.interrupts;
        if self.interrupts {
            return Ok(None);
        }
        let count = buffer.len().min(3);
        self.device.read_at(at, &mut buffer[..count]).map_err(why)?;
        Ok(Some(count))
    }

    fn write_some(&mut self, at: u64, text: &[u8]) -> io::Result<Option<usize>> {
        self.interrupts = !self.interrupts;
        if self.interrupts {
            return Ok(None);
        }
        let count = text.len().min(3);
        self.device.write_at(at, &text[..count]).map_err(why)?;
        Ok(Some(count))
    }

    fn settle(&mut self) -> io::Result<()> {
        self.device.sync().map_err(why)
    }
}
