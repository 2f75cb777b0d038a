//! Fields, written one behind another and read back.

use vault_journal::{
    content_at, item_at, items_at, name_at, note_at, put_bytes, put_content, put_item, put_items,
    put_name, put_note, put_u8, put_u16, put_u32, put_u64, u8_at, u16_at, u32_at, u64_at,
};
use vault_model::{Intent, Item, Items, Name, Note, PlaceId};

const ITEM: Item = Item {
    intent: Intent::Change,
    place: PlaceId(2),
};

const NUMBERS: &[u8] = b"-\xab\x12\x34\x01\x02\x03\x04\x01\x02\x03\x04\x05\x06\x07\x08";

const OTHERS: &[u8] = b"raw\x04anna\0\x04text\x01\0\0\0\x02\x01\x01\0\0\0\x02\x02\xff\0----";

/// Whether numbers are written as `NUMBERS`.
fn are_numbers_put() -> bool {
    let mut out = [b'-'; 16];
    let at = put_u8(&mut out, 1, 0xab);
    let at = put_u16(&mut out, at, 0x1234);
    let at = put_u32(&mut out, at, 0x0102_0304);
    let at = put_u64(&mut out, at, 0x0102_0304_0506_0708);
    at == 16 && &out[..] == NUMBERS
}

/// Whether other fields are written as `OTHERS`.
fn are_others_put() -> bool {
    let (Some(name), Some(note)) = (Name::read(b"anna"), Note::read(b"\xff\0")) else {
        return false;
    };
    let items = Items::new().with(ITEM);
    let mut out = [b'-'; 32];
    let at = put_bytes(&mut out, 0, b"raw");
    let at = put_name(&mut out, at, &name);
    let at = put_content(&mut out, at, b"text");
    let at = put_item(&mut out, at, &ITEM);
    let at = put_items(&mut out, at, items.as_slice());
    let at = put_note(&mut out, at, &note);
    at == 28 && &out[..] == OTHERS
}

/// Whether numbers are read from `NUMBERS`, each with the bytes behind it.
fn are_numbers_read() -> bool {
    let out = NUMBERS;
    u8_at(&out[1..]) == Some((0xab, &out[2..]))
        && u16_at(&out[2..]) == Some((0x1234, &out[4..]))
        && u32_at(&out[4..]) == Some((0x0102_0304, &out[8..]))
        && u64_at(&out[8..]) == Some((0x0102_0304_0506_0708, &out[16..]))
}

/// Whether other fields are read from `OTHERS`, each with the bytes behind it.
fn are_others_read() -> bool {
    let out = OTHERS;
    let items = Items::new().with(ITEM);
    let (Some(name), Some(note)) = (Name::read(b"anna"), Note::read(b"\xff\0")) else {
        return false;
    };
    name_at(&out[3..]) == Some((name, &out[8..]))
        && content_at(&out[8..]) == Some((b"text", &out[14..]))
        && item_at(&out[14..]) == Some((ITEM, &out[19..]))
        && items_at(&out[19..]) == Some((items, &out[25..]))
        && note_at(&out[25..]) == Some((note, &out[28..]))
}

#[test]
fn fields(rt: HostRuntime) {
    assert!(rt; are_numbers_put() && are_others_put());
    assert!(rt; are_numbers_read() && are_others_read());
}
