use super::*;
use std::alloc::Global;

// Tries to make a list of one byte, and to append another.
fn two_bytes(memory: &Refusing<Global>, number: u64) -> Outcome {
    memory.refuse(number);
    let mut bytes = Vec::new(memory);
    let is_made = bytes.push(1).is_ok() && bytes.push(2).is_ok();
    let has_refused = memory.has_refused();
    if is_made {
        Outcome::done(!has_refused && bytes.as_slice() == [1, 2].as_slice())
    } else {
        Outcome::refused(has_refused && bytes.len() < 2)
    }
}

// A call that takes no memory. It gives this outcome, unless the request counts as refused.
fn nothing(memory: &Refusing<Global>, number: u64, told: Outcome) -> Outcome {
    memory.refuse(number);
    if memory.has_refused() {
        Outcome::Refused
    } else {
        told
    }
}

#[test]
fn requests_are_counted(rt: HostRuntime) {
    let memory = Refusing::new(rt.alloc());
    assert_eq!(rt; requests(|number| two_bytes(&memory, number)), Some(1));
    for (told, count) in [
        (Outcome::Done, Some(0)),
        (Outcome::Wrong, None),
        (Outcome::Refused, None),
    ] {
        assert_eq!(rt; requests(|number| nothing(&memory, number, told)), count);
    }
}

// Tries to make a list of this byte. Only a list of the byte 1 is judged right.
fn one_byte(memory: &Refusing<Global>, number: u64, byte: u8) -> Outcome {
    memory.refuse(number);
    let told = Vec::from_slice(memory, &[byte]);
    memory.judge(told, AllocError, |bytes| bytes.as_slice() == [1].as_slice())
}

// The outcome of a call that was judged already, after its request was refused or not.
fn looked_at(memory: &Refusing<Global>, is_refused: bool, is_right: Option<bool>) -> Outcome {
    memory.refuse(if is_refused { 0 } else { 1 });
    memory.outcome(is_right)
}

#[test]
fn what_a_call_told_is_judged(rt: HostRuntime) {
    let memory = Refusing::new(rt.alloc());
    assert_eq!(rt; requests(|number| one_byte(&memory, number, 1)), Some(1));
    assert_eq!(rt; requests(|number| one_byte(&memory, number, 2)), None);
    for (is_refused, is_right, tried) in [
        (false, Some(true), Outcome::Done),
        (false, Some(false), Outcome::Wrong),
        (false, None, Outcome::Wrong),
        (true, None, Outcome::Refused),
        (true, Some(true), Outcome::Wrong),
    ] {
        assert_eq!(rt; looked_at(&memory, is_refused, is_right), tried);
    }
    assert_eq!(rt; Outcome::Done.and(true), Outcome::Done);
    assert_eq!(rt; Outcome::Refused.and(false), Outcome::Wrong);
}
