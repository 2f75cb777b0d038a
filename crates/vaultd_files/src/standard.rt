//! Standard input and output. Each call that fails is reported to the teller.

use crate::failure::Failure;
use crate::reason::{Action, Cause, Subject};
use crate::teller::Teller;
use std::fmt::Display;
use std::io::{self, BufWriter, Printer, Read, Write};

/// Standard output.
#[derive(Drop)]
pub struct Output<'a, 'p, R> {
    printer: Printer<'a, R>,
    teller: &'a Teller<'p, R>,
}

impl<R: Print + Eprint> Write for Output<'_, '_, R> {
    fn write(&mut self, buf: &[u8]) -> io::Result<usize> {
        let answer = self.printer.write(buf);
        if let Err(error) = answer {
            note_output(self.teller, error);
        }
        answer
    }

    fn flush(&mut self) -> io::Result<()> {
        self.printer.flush()
    }
}

fn note_output<R: Eprint>(teller: &Teller<'_, R>, error: io::Error) {
    teller.note(Subject::Output, Action::Written, Cause::System(error));
}

/// Writes to standard output in large pieces.
pub fn buffered_output<'a, 'p>(
    rt: &'a HostRuntime,
    teller: &'a Teller<'p, HostRuntime>,
) -> Result<BufWriter<Output<'a, 'p, HostRuntime>>, Failure> {
    let printer = io::writer(rt);
    BufWriter::new(rt.alloc(), Output { printer, teller }).or(Err(Failure::NoMemory))
}

/// Writes a line to standard output.
pub fn print_line<R: Print + Eprint, D: Display + Drop>(
    rt: &R,
    teller: &Teller<'_, R>,
    line: D,
) -> Result<(), Failure> {
    rt.println(line).map_err(|error| {
        note_output(teller, error);
        Failure::Write
    })
}

/// Standard input.
#[derive(Drop)]
pub struct Input<'a, 'p, I, R> {
    /// What it reads from.
    pub reader: I,
    /// What it reports to.
    pub teller: &'a Teller<'p, R>,
}

impl<I: Read, R: Eprint> Read for Input<'_, '_, I, R> {
    fn read(&mut self, buf: &mut [u8]) -> io::Result<usize> {
        let answer = self.reader.read(buf);
        if let Err(error) = answer {
            self.teller
                .note(Subject::Input, Action::Read, Cause::System(error));
        }
        answer
    }
}
