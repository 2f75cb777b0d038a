//! Scripts and reports to odd writers, and when a script's output begins.

use super::streams::OneByte;
use std::alloc::Global;
use std::io::{self, Read, Write};
use std::sync::atomic::{AtomicBool, Ordering};
use vault_device::MemDevice;
use vault_inspector::{Report, print};
use vault_protocol::run_script;

// A writer that takes one byte per call.
#[derive(Drop)]
struct Dripping {
    held: Vec<u8>,
}

impl Write for Dripping {
    fn write(&mut self, buf: &[u8]) -> io::Result<usize> {
        let Some(first) = buf.first() else {
            return Ok(0);
        };
        self.held.push(*first)?;
        Ok(1)
    }

    fn flush(&mut self) -> io::Result<()> {
        Ok(())
    }
}

const SCRIPT: &[u8] = b"@1 hello anna\n@1 make /e\n@1 checkout w:/e\nx\n@1 list /\n";

const OUTPUT: &[u8] = b"@1 OK session 1\n@1 OK place 1\n@1 OK held c1\n! ERR 10\n@1 OK list 1 e\n";

// What a script prints to a writer that takes one byte per call, if the script ends well.
fn dripped(alloc: Global, script: &[u8]) -> Option<Vec<u8>> {
    let mut reader = script;
    let mut writer = Dripping {
        held: Vec::new(alloc),
    };
    run_script(alloc, &mut reader, &mut writer).ok()?;
    Some(writer.held)
}

#[test]
fn script_to_a_writer_of_single_bytes(rt: HostRuntime) {
    let held = dripped(rt.alloc(), SCRIPT).expect(&rt, "a script that ends well");
    assert!(rt; held.as_slice() == OUTPUT);
    drop(held);
}

// What a report prints to such a writer.
fn printed(alloc: Global, report: &Report) -> Option<Vec<u8>> {
    let mut writer = Dripping {
        held: Vec::new(alloc),
    };
    print(report, &mut writer).ok()?;
    Some(writer.held)
}

// What the report on two empty files prints to such a writer.
fn reported(alloc: Global) -> Option<Vec<u8>> {
    let mut a = MemDevice::new(alloc).ok()?;
    let mut b = MemDevice::new(alloc).ok()?;
    let found = vault_inspector::inspect(alloc, &mut a, &mut b);
    drop(a);
    drop(b);
    let report = found.ok()?;
    let text = printed(alloc, &report);
    drop(report);
    text
}

#[test]
fn report_to_a_writer_of_single_bytes(rt: HostRuntime) {
    let held = reported(rt.alloc()).expect(&rt, "a report");
    assert!(rt; held.as_slice() == b"file a: closed\nfile b: closed\nno vault\n".as_slice());
    drop(held);
}

// A reader that gives one byte per call, and fails once something was written.
#[derive(Drop)]
struct Watching<'a> {
    inner: OneByte<'a>,
    wrote: &'a AtomicBool,
}

impl Read for Watching<'_> {
    fn read(&mut self, buf: &mut [u8]) -> io::Result<usize> {
        if self.wrote.load(Ordering::SeqCst) {
            return Err(io::Error::from(io::ErrorKind::Other));
        }
        self.inner.read(buf)
    }
}

// A writer that marks that something was written.
#[derive(Drop)]
struct Marking<'a> {
    held: Vec<u8>,
    wrote: &'a AtomicBool,
}

impl Write for Marking<'_> {
    fn write(&mut self, buf: &[u8]) -> io::Result<usize> {
        self.wrote.store(true, Ordering::SeqCst);
        self.held.extend_from_slice(buf)?;
        Ok(buf.len())
    }

    fn flush(&mut self) -> io::Result<()> {
        Ok(())
    }
}

// What a script prints, if it ends well, when its reader fails once something was written.
fn watched(alloc: Global, script: &[u8]) -> Option<Vec<u8>> {
    let wrote = AtomicBool::new(false);
    let inner = OneByte {
        rest: script,
        broken: false,
    };
    let mut reader = Watching {
        inner,
        wrote: &wrote,
    };
    let mut writer = Marking {
        held: Vec::new(alloc),
        wrote: &wrote,
    };
    run_script(alloc, &mut reader, &mut writer).ok()?;
    Some(writer.held)
}

#[test]
fn nothing_is_printed_before_the_script_was_read(rt: HostRuntime) {
    let held = watched(rt.alloc(), SCRIPT).expect(&rt, "a script that ends well");
    assert!(rt; held.as_slice() == OUTPUT);
    drop(held);
}
