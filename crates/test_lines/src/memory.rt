//! Each memory request refused in turn.

use std::alloc::{Allocator, Global};
use test_memory::{Outcome, Refusing, requests};
use vault_lines::{LineError, outside_text, read_line_of, text_of};
use vault_model::{
    ClaimId, Command, CommandIn, Intent, Listing, Name, NoMemory, Outside, Path, PathItem, Reply,
    ShownClaim, Standing,
};

/// A reply.
#[derive(Clone, Copy)]
enum Told {
    Queued(ClaimId, ClaimId),
    /// Three places of this name.
    Children(&'static [u8]),
    Content(&'static [u8]),
    /// A claim of a designer of this name, on two items at this path.
    Shown(&'static [u8], &'static [u8]),
    /// This claim twice.
    ClaimsAt(ClaimId),
    /// This path three times.
    DraftsOf(&'static [u8]),
}

/// What is tried, and the result that it must have.
#[derive(Clone, Copy)]
enum Call {
    /// A line is read. Its command has this number of items or bytes.
    Reads(&'static [u8], usize),
    /// A reply's text is made.
    Tells(Told, &'static [u8]),
    /// The text of an outside refusal is made.
    Refuses(Outside, &'static [u8]),
}

/// The calls by their names, and the number of requests that each makes.
static ROWS: [(&str, Call, u64); 12] = [
    (
        "read_line_of, checkout",
        Call::Reads(b"checkout r:/e w:/", 2),
        2,
    ),
    ("read_line_of, hold", Call::Reads(b"hold r:/e w:/", 2), 2),
    (
        "read_line_of, extend",
        Call::Reads(b"extend c1 r:/e w:/", 2),
        2,
    ),
    ("read_line_of, save", Call::Reads(b"save c1 /e 6162", 2), 2),
    ("read_line_of, quit", Call::Reads(b"quit", 0), 1),
    (
        "text_of, Queued",
        Call::Tells(
            Told::Queued(ClaimId::Long(2), ClaimId::Long(1)),
            b"OK queued c2 behind c1\n",
        ),
        5,
    ),
    (
        "text_of, Children",
        Call::Tells(
            Told::Children(b"aaaaaaaaaaaaaaaaaaaaaaaaaaaaaaaa"),
            b"OK list 3 aaaaaaaaaaaaaaaaaaaaaaaaaaaaaaaa aaaaaaaaaaaaaaaaaaaaaaaaaaaaaaaa aaaaaaaaaaaaaaaaaaaaaaaaaaaaaaaa\n",
        ),
        5,
    ),
    (
        "text_of, Content",
        Call::Tells(Told::Content(b"ab"), b"OK content 6162\n"),
        3,
    ),
    (
        "text_of, Shown",
        Call::Tells(
            Told::Shown(b"ben", b"/e/b/p1"),
            b"OK claim h2 ben queued behind c1 w:/e/b/p1 w:/e/b/p1\n",
        ),
        6,
    ),
    (
        "text_of, ClaimsAt",
        Call::Tells(
            Told::ClaimsAt(ClaimId::Long(4_294_967_295)),
            b"OK claims 2 c4294967295 c4294967295\n",
        ),
        3,
    ),
    (
        "text_of, DraftsOf",
        Call::Tells(
            Told::DraftsOf(b"/e/b/p1"),
            b"OK drafts 3 /e/b/p1 /e/b/p1 /e/b/p1\n",
        ),
        3,
    ),
    ("outside_text", Call::Refuses(Outside::Busy, b"ERR 80\n"), 1),
];

/// The number of items that a command asks for, or of bytes that it saves.
fn length_of<A: Allocator>(command: &CommandIn<A>) -> usize {
    match command {
        Command::CheckOut(items) | Command::Extend(_, items) | Command::Hold(items) => {
            items.as_slice().len()
        }
        Command::Save(_, _, content) => content.as_slice().len(),
        _ => 0,
    }
}

/// Whether a line is read as a command of this number of items or bytes. `None` if a request for it
/// was refused.
fn is_read(memory: &Refusing<Global>, line: &[u8], length: usize) -> Option<bool> {
    match read_line_of(memory, line) {
        Ok(command) => {
            let is_right = length_of(&command) == length;
            drop(command);
            Some(is_right)
        }
        Err(LineError::NoMemory) => None,
        Err(LineError::BadLine) => Some(false),
    }
}

/// Whether a text is this one. `None` if a request for it was refused.
fn is_text<A: Allocator>(text: Result<Vec<u8, A>, NoMemory>, want: &[u8]) -> Option<bool> {
    let Ok(text) = text else {
        return None;
    };
    let is_right = text.as_slice() == want;
    drop(text);
    Some(is_right)
}

/// A hold of a designer of this name that waits, on two items at this path.
fn shown(global: Global, name: &[u8], path: &[u8]) -> Option<ShownClaim> {
    let item = PathItem {
        intent: Intent::Change,
        path: Path::read(path)?,
    };
    let items = Vec::from_slice(global, &[item; 2]).ok()?;
    Some(ShownClaim {
        id: ClaimId::Short(2),
        designer: Name::read(name)?,
        standing: Standing::Queued(ClaimId::Long(1)),
        items: Listing::from_vec(items),
    })
}

/// The reply, in ample memory.
fn reply_of(global: Global, told: Told) -> Option<Reply> {
    match told {
        Told::Queued(claim, other) => Some(Reply::Queued(claim, other)),
        Told::Children(name) => {
            let name = Name::read(name)?;
            let names = Vec::from_slice(global, &[name; 3]).ok()?;
            Some(Reply::Children(Listing::from_vec(names)))
        }
        Told::Content(bytes) => {
            let bytes = Vec::from_slice(global, bytes).ok()?;
            Some(Reply::Content(Listing::from_vec(bytes)))
        }
        Told::Shown(name, path) => Some(Reply::Shown(shown(global, name, path)?)),
        Told::ClaimsAt(id) => {
            let ids = Vec::from_slice(global, &[id; 2]).ok()?;
            Some(Reply::ClaimsAt(Listing::from_vec(ids)))
        }
        Told::DraftsOf(path) => {
            let path = Path::read(path)?;
            let paths = Vec::from_slice(global, &[path; 3]).ok()?;
            Some(Reply::DraftsOf(Listing::from_vec(paths)))
        }
    }
}

/// Whether a reply has this text. `None` if a request for it was refused.
fn is_told(memory: &Refusing<Global>, global: Global, told: Told, want: &[u8]) -> Option<bool> {
    let Some(reply) = reply_of(global, told) else {
        return Some(false);
    };
    let is_right = is_text(text_of(memory, &reply), want);
    drop(reply);
    is_right
}

/// Tries a call, with its request of this number refused.
fn tries(memory: &Refusing<Global>, global: Global, call: Call, number: u64) -> Outcome {
    memory.refuse(number);
    let is_right = match call {
        Call::Reads(line, length) => is_read(memory, line, length),
        Call::Tells(told, want) => is_told(memory, global, told, want),
        Call::Refuses(outside, want) => is_text(outside_text(memory, outside), want),
    };
    memory.outcome(is_right)
}

#[test]
fn each_request_is_refused(rt: HostRuntime) {
    let memory = Refusing::new(rt.alloc());
    for (name, call, wanted) in &ROWS {
        let made = requests(|number| tries(&memory, rt.alloc(), *call, number));
        assert_eq!(rt; made, Some(*wanted), "{name}");
    }
}
