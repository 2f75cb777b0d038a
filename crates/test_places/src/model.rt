//! How words are read, what values are made of, and copies.

use std::alloc::Global;
use std::process::Abort;
use test_memory::{Outcome, Refusing};
use vault_model::{
    ClaimId, Command, Effect, Intent, Listing, Name, Note, Path, PathItem, PlaceId, Refusal, Reply,
};
use vault_state::split::cut;

/// Whether a word is read as it must be: as a name or not, and as a path of this number of names or
/// as none.
fn is_read_so(word: &[u8], is_name: bool, count: Option<usize>) -> bool {
    let is_name_so = match Name::read(word) {
        Some(name) => is_name && name.as_bytes() == word,
        None => !is_name,
    };
    let is_path_so = match Path::read(word) {
        Some(path) => count == Some(path.names().len()),
        None => count.is_none(),
    };
    is_name_so && is_path_so
}

#[test]
fn words_are_read(rt: HostRuntime) {
    for (word, is_name, count) in &WORDS {
        assert!(rt; is_read_so(word, *is_name, *count), "{word:?}");
    }
}

/// A word, whether it is a name, and how many names it has as a path, if it is one.
static WORDS: [(&[u8], bool, Option<usize>); 21] = [
    (b"a-_9", true, None),
    (b"z", true, None),
    (b"abcdefghijklmnopqrstuvwxyz012345", true, None),
    (b"", false, None),
    (b"abcdefghijklmnopqrstuvwxyz0123456", false, None),
    (b"A", false, None),
    (b"a b", false, None),
    (b"a/b", false, None),
    (b"\xc3\xa4", false, None),
    (b"/", false, Some(0)),
    (b"/e", false, Some(1)),
    (b"/e/b", false, Some(2)),
    (b"/e/b/p1", false, Some(3)),
    (b"e", true, None),
    (b"//", false, None),
    (b"/e/", false, None),
    (b"/e//b", false, None),
    (b"/e/B", false, None),
    (b"/a/b/c/d/e/f/g", false, Some(7)),
    (b"/a/b/c/d/e/f/g/h", false, None),
    (b"/abcdefghijklmnopqrstuvwxyz0123456", false, None),
];

/// Whether a note may have 64 bytes and no more, and keeps its bytes.
fn are_notes_read() -> bool {
    let bytes = [255; 65];
    let longest = &bytes[..64];
    let Some(note) = Note::read(longest) else {
        return false;
    };
    note.as_bytes() == longest
        && Note::read(&bytes).is_none()
        && Note::read(b"") == Some(Note::new())
        && Note::read(b"ab") != Some(note)
}

/// Whether a path has the names that it was made of, and the library's path has none.
fn are_names_had() -> bool {
    let (Some(e), Some(b)) = (Name::read(b"e"), Name::read(b"b")) else {
        return false;
    };
    let path = Path::root().joined(e).joined(b);
    Path::read(b"/e/b") == Some(path)
        && matches!(path.split_last(), Some((last, [front])) if last == b && *front == e)
        && Path::root().split_last().is_none()
        && path.len() == 2
}

/// Whether a text is cut only at the first separator.
fn are_texts_cut() -> bool {
    cut(b"ab cd ", b' ') == (b"ab".as_slice(), Some(b"cd ".as_slice()))
        && cut(b"ab", b' ') == (b"ab".as_slice(), None)
}

#[test]
fn values_have_their_parts(rt: HostRuntime) {
    assert!(rt; are_notes_read(), "notes");
    assert!(rt; are_names_had(), "names of a path");
    assert!(rt; are_texts_cut(), "texts");
}

/// What is copied: a list, or a command, a reply or an effect of a kind.
#[derive(Clone, Copy)]
pub(crate) enum Copied {
    List,
    CheckOut,
    Extend,
    Save,
    Hold,
    Leave,
    Make,
    Children,
    Content,
    Refused,
    Saved,
    CheckedIn,
}

fn list<T: Copy>(rt: &impl Abort, alloc: Global, items: &[T]) -> Listing<T> {
    Listing::from_vec(Vec::from_slice(alloc, items).expect(rt, "memory"))
}

/// Tries to copy a list. The list must give its items, too.
fn copies_list(memory: &Refusing<Global>, list: Listing<u8>) -> Outcome {
    let Ok(copy) = list.copy(memory) else {
        drop(list);
        return Outcome::Refused;
    };
    let is_same = copy.as_slice() == list.as_slice();
    drop(copy);
    let bytes = list.into_vec();
    let has_all = bytes.as_slice() == b"abc".as_slice();
    drop(bytes);
    Outcome::done(is_same && has_all)
}

/// Tries to copy a command. A copy of the copy must equal the command.
fn copies_command(memory: &Refusing<Global>, alloc: Global, command: Command) -> Outcome {
    let Ok(copy) = command.copy(memory) else {
        drop(command);
        return Outcome::Refused;
    };
    let Ok(again) = copy.copy(alloc) else {
        drop(copy);
        drop(command);
        return Outcome::Wrong;
    };
    let is_same = again == command;
    drop(again);
    drop(copy);
    drop(command);
    Outcome::done(is_same)
}

/// Tries to copy a reply in the same way.
fn copies_reply(memory: &Refusing<Global>, alloc: Global, reply: Reply) -> Outcome {
    let Ok(copy) = reply.copy(memory) else {
        drop(reply);
        return Outcome::Refused;
    };
    let Ok(again) = copy.copy(alloc) else {
        drop(copy);
        drop(reply);
        return Outcome::Wrong;
    };
    let is_same = again == reply;
    drop(again);
    drop(copy);
    drop(reply);
    Outcome::done(is_same)
}

/// Tries to copy an effect in the same way.
fn copies_effect(memory: &Refusing<Global>, alloc: Global, effect: Effect) -> Outcome {
    let Ok(copy) = effect.copy(memory) else {
        drop(effect);
        return Outcome::Refused;
    };
    let Ok(again) = copy.copy(alloc) else {
        drop(copy);
        drop(effect);
        return Outcome::Wrong;
    };
    let is_same = again == effect;
    drop(again);
    drop(copy);
    drop(effect);
    Outcome::done(is_same)
}

/// Three items.
fn items(rt: &impl Abort, alloc: Global) -> Listing<PathItem> {
    let item = PathItem {
        intent: Intent::Change,
        path: Path::root(),
    };
    list(rt, alloc, &[item; 3])
}

/// Tries to copy a value of this kind, which is in ample memory.
pub(crate) fn copies(
    rt: &impl Abort,
    memory: &Refusing<Global>,
    alloc: Global,
    copied: Copied,
) -> Outcome {
    match copied {
        Copied::List => copies_list(memory, list(rt, alloc, b"abc")),
        Copied::CheckOut => copies_command(memory, alloc, Command::CheckOut(items(rt, alloc))),
        Copied::Extend => {
            let extend = Command::Extend(ClaimId::Long(1), items(rt, alloc));
            copies_command(memory, alloc, extend)
        }
        Copied::Save => {
            let save = Command::Save(1, Path::root(), list(rt, alloc, b"abc"));
            copies_command(memory, alloc, save)
        }
        Copied::Hold => copies_command(memory, alloc, Command::Hold(items(rt, alloc))),
        Copied::Leave => copies_command(memory, alloc, Command::Leave),
        Copied::Make => copies_command(memory, alloc, Command::Make(Path::root(), Some(1))),
        Copied::Children => {
            let names = [Name::read(b"e").expect(rt, "a name"); 3];
            copies_reply(memory, alloc, Reply::Children(list(rt, alloc, &names)))
        }
        Copied::Content => { copies_reply(memory, alloc, Reply::Content(list(rt, alloc, b"abc"))) }
        Copied::Refused => {
            let refusal = Refusal::Overlaps(ClaimId::Short(1));
            copies_reply(memory, alloc, Reply::Refused(refusal))
        }
        Copied::Saved => {
            let saved = Effect::Saved(1, PlaceId(3), list(rt, alloc, b"abc"));
            copies_effect(memory, alloc, saved)
        }
        Copied::CheckedIn => copies_effect(memory, alloc, Effect::CheckedIn(1)),
    }
}
