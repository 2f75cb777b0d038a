//! How numbers are read, and the texts of outside refusals. Lines and replies are data of
//! `vault_scripts`.

use std::alloc::Global;
use vault_lines::{outside_text, read_number};
use vault_model::Outside;

static NUMBERS: [(&[u8], Option<u32>); 6] = [
    (b"0", Some(0)),
    (b"4294967295", Some(u32::MAX)),
    (b"4294967296", None),
    (b"07", None),
    (b"-1", None),
    (b"", None),
];

#[test]
fn numbers_are_read(rt: HostRuntime) {
    for (word, number) in &NUMBERS {
        assert_eq!(rt; read_number(word), *number);
    }
}

static TEXTS: [(Outside, &[u8]); 4] = [
    (Outside::BadLine, b"ERR 10\n"),
    (Outside::Busy, b"ERR 80\n"),
    (Outside::NoMemory, b"ERR 81\n"),
    (Outside::Broken, b"ERR 82\n"),
];

/// Whether an outside refusal has this text.
fn is_told(memory: Global, outside: Outside, want: &[u8]) -> bool {
    let Ok(text) = outside_text(memory, outside) else {
        return false;
    };
    let is_right = text.as_slice() == want;
    drop(text);
    is_right
}

#[test]
fn texts_of_outside_refusals(rt: HostRuntime) {
    for (outside, want) in &TEXTS {
        assert!(rt; is_told(rt.alloc(), *outside, want), "{outside:?}");
    }
}
