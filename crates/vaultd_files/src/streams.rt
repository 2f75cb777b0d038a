//! The standard streams of a program that was started without them.

use crate::failure::Failure;
use std::fs::{File, OpenOptions};

/// Files that stand in for closed standard streams. They are kept for as long as the program runs.
#[derive(Drop)]
pub struct Streams {
    _files: [File; 3],
}

/// Opens the null device.
fn null_device(rt: &HostRuntime) -> Result<File, Failure> {
    let mut options = OpenOptions::new();
    options.read(true).write(true);
    options.open(rt, "/dev/null").or(Err(Failure::Device))
}

/// Opens the null device three times, once for each standard stream. Each time it takes the lowest free descriptor. So no file that is
/// opened later gets the descriptor of a stream, and no line of the program is written into a file.
pub fn take_streams(rt: &HostRuntime) -> Result<Streams, Failure> {
    let files = [null_device(rt)?, null_device(rt)?, null_device(rt)?];
    Ok(Streams { _files: files })
}
