//! Why something failed, as the system says it.

use std::fmt::{self, Display, Formatter};
use std::io;

/// What was asked of the system.
#[derive(Clone, Copy)]
pub enum Action {
    Opened,
    Locked,
    Measured,
    ReadAt(u64),
    WrittenAt(u64),
    Synced,
    Bound,
    Accepted,
    Read,
    Written,
}

impl Display for Action {
    fn fmt<W: fmt::Write>(&self, f: &mut Formatter<W>) -> fmt::Result {
        match *self {
            Action::Opened => write!(f, "opened"),
            Action::Locked => write!(f, "locked"),
            Action::Measured => write!(f, "measured"),
            Action::ReadAt(at) => write!(f, "read at {at}"),
            Action::WrittenAt(at) => write!(f, "written at {at}"),
            Action::Synced => write!(f, "synced"),
            Action::Bound => write!(f, "bound"),
            Action::Accepted => write!(f, "accepted"),
            Action::Read => write!(f, "read"),
            Action::Written => write!(f, "written"),
        }
    }
}

/// What it was asked about.
#[derive(Clone, Copy)]
pub enum Subject<'a> {
    /// The file of this path.
    File(&'a str),
    /// This address.
    Address(&'a str),
    Input,
    Output,
}

impl Display for Subject<'_> {
    fn fmt<W: fmt::Write>(&self, f: &mut Formatter<W>) -> fmt::Result {
        match *self {
            // In quotes and escaped, so that no name looks like a line of the program.
            Subject::File(name) | Subject::Address(name) => write!(f, "{name:?}"),
            Subject::Input => write!(f, "standard input"),
            Subject::Output => write!(f, "standard output"),
        }
    }
}

/// What the system said.
#[derive(Clone, Copy)]
pub enum Cause {
    System(io::Error),
    /// Another program has the file.
    Taken,
    /// The call moved no byte.
    Ended,
}

impl Display for Cause {
    fn fmt<W: fmt::Write>(&self, f: &mut Formatter<W>) -> fmt::Result {
        match *self {
            Cause::System(error) => write!(f, "{error}"),
            Cause::Taken => write!(f, "another program has locked it"),
            Cause::Ended => write!(f, "no byte was moved"),
        }
    }
}

/// What failed, in one line.
#[derive(Clone, Copy)]
pub struct Reason<'a> {
    pub subject: Subject<'a>,
    pub action: Action,
    pub cause: Cause,
}

impl Display for Reason<'_> {
    fn fmt<W: fmt::Write>(&self, f: &mut Formatter<W>) -> fmt::Result {
        let Reason {
            subject,
            action,
            cause,
        } = *self;
        write!(f, "{subject}, {action}: {cause}")
    }
}
