//! A vault in two real files.
use std::alloc::Global;
use std::fs;
use std::fs::{File, OpenOptions};
use std::rt::Files;
use std::test::Fail;
use vault_device::FileDevice;
use vault_model::{Effect, EffectIn, Name, Path, PlaceId};
use vault_store::{Advanced, Store};

// What the first file holds after the commit, 47 bytes.
const WITH_E: &[u8; 47] =
    b"\x01LLVAULT\0\0\0\x02\0\0\0\0\0\0\0\x01\0\0\0\x0a\0\0\0\0\0\0\0\x01\0\0\x01\0\0\0\x07\x01\0\0\0\0\x01e\0";

const FIRST: &str = "first_of_a_test";

const SECOND: &str = "second_of_a_test";

// Whether a project is noted in a new vault, and becomes durable with the last of four steps.
fn commits_e(store: &mut Store<FileDevice>, name: Name) -> bool {
    if !store.room() {
        return false;
    }
    let made: EffectIn<Global> = Effect::Made(PlaceId(0), name);
    store.note(&made);
    drop(made);
    for _ in 1..4 {
        if store.advance() != Ok(Advanced::Moved) {
            return false;
        }
    }
    store.advance() == Ok(Advanced::Settled)
}

// A vault in two new files, with one project committed.
fn write(rt: &HostRuntime) -> Result<bool, Fail> {
    let e = Name::read(b"e").ok_or("a name")?;
    let first = FileDevice::over(File::create_new(rt, FIRST)?);
    let second = FileDevice::over(File::create_new(rt, SECOND)?);
    let Ok(mut store) = Store::create(rt.alloc(), first, second) else {
        return Ok(false);
    };
    let is_settled = commits_e(&mut store, e);
    drop(store);
    Ok(is_settled)
}

// The place at this path in the vault of the files.
fn find(rt: &HostRuntime, path: &Path) -> Result<Option<PlaceId>, Fail> {
    let mut options = OpenOptions::new();
    options.read(true).write(true);
    let first = FileDevice::over(options.open(rt, FIRST)?);
    let second = FileDevice::over(options.open(rt, SECOND)?);
    match Store::open(rt.alloc(), first, second) {
        Ok((store, book)) => {
            let found = book.tree().find(path);
            drop(store);
            drop(book);
            Ok(found)
        }
        Err(_) => Err("a vault".into()),
    }
}

#[test]
fn two_real_files(rt: HostRuntime) -> Result<(), Fail> {
    let _ = fs::remove_file(&rt, FIRST);
    let _ = fs::remove_file(&rt, SECOND);
    assert!(rt; write(&rt)?);
    assert!(rt; fs::read(&rt, FIRST)?.as_slice() == WITH_E.as_slice());
    assert!(rt; fs::read(&rt, SECOND)?.is_empty());
    let path = Path::read(b"/e").ok_or("a path")?;
    assert_eq!(rt; find(&rt, &path)?, Some(PlaceId(1)));
    fs::remove_file(&rt, FIRST)?;
    fs::remove_file(&rt, SECOND)?;
    Ok(())
}
