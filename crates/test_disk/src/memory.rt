//! Each request for memory by a device, a frame and a reading is refused in turn.

use crate::device::{grows, makes_device};
use crate::journal::{makes_frame, pushes, reads};
use std::alloc::Global;
use test_memory::{Outcome, Refusing, requests};

/// What is tried.
#[derive(Clone, Copy)]
enum Call {
    MakesDevice,
    Writes,
    MakesFrame,
    Pushes,
    Reads,
}

/// Tries a call with its request of this number refused.
fn tries(memory: &Refusing<Global>, alloc: Global, call: Call, number: u64) -> Outcome {
    memory.refuse(number);
    match call {
        Call::MakesDevice => makes_device(memory),
        Call::Writes => grows(memory, memory, number),
        Call::MakesFrame => makes_frame(memory),
        Call::Pushes => pushes(memory, alloc, number),
        Call::Reads => reads(memory),
    }
}

#[test]
fn each_request_of_a_disk_is_refused(rt: HostRuntime) {
    let memory = Refusing::new(rt.alloc());
    for (name, call, wanted) in &WANTED {
        let made = requests(|number| tries(&memory, rt.alloc(), *call, number));
        assert_eq!(rt; made, Some(*wanted), "{name}");
    }
}

/// A call's name, what is tried, and how many requests it makes. A write makes four: for its bytes, the bytes shown, the durable
/// ones, and the history. A reading makes three: for one content, and for the list, which grows once.
static WANTED: [(&str, Call, u64); 5] = [
    ("MemDevice::new", Call::MakesDevice, 1),
    ("MemDevice::write_at", Call::Writes, 4),
    ("Frame::new", Call::MakesFrame, 1),
    ("Frame::push_effect", Call::Pushes, 0),
    ("read_effects", Call::Reads, 3),
];
