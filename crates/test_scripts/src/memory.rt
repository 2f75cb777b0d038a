//! Each memory request refused in turn.

use std::alloc::Global;
use test_memory::{Outcome, Refusing, requests};
use vault_protocol::{ScriptError, run_script};

/// A script, and what it prints.
type Script = (&'static [u8], &'static [u8]);

static OF_A_CHECK_OUT: Script = (
    b"@1 hello anna\n@1 make /e\n@1 checkout w:/e\n",
    b"@1 OK session 1\n@1 OK place 1\n@1 OK held c1\n",
);

static OF_SHORT_CLAIMS: Script = (
    b"@1 hello anna\n@1 hold r:/\n@1 extend h1 w:/\n@1 list /\n@1 release h1\n@1 quit\n",
    b"@1 OK session 1\n@1 OK held h1\n@1 OK held h1\n@1 OK list 0\n@1 OK released\n@1 OK left\n",
);

static OF_A_CHECK_IN: Script = (
    b"@1 hello anna\n@1 make /e\n@1 make /e/b\n@1 make /e/b/p\n@1 checkout w:/e/b/p\n@1 save c1 /e/b/p 6162\n@1 checkin c1\n@1 fetch /e/b/p 1\n",
    b"@1 OK session 1\n@1 OK place 1\n@1 OK place 2\n@1 OK place 3\n@1 OK held c1\n@1 OK saved\n@1 OK checked in 1\n@1 OK content 6162\n",
);

static OF_A_SNAPSHOT: Script = (
    b"@1 hello anna\n@1 make /e\n!snapshot\n!pump\n!pump\n!pump\n!pump\n!pump\n!pump\n@1 make /f\n!pump\n!crash 07\n@1 hello ben\n@1 list /\n",
    b"@1 OK session 1\n@1 OK place 1\n@1 OK session 1\n@1 OK list 1 e\n",
);

/// Tries to run a script. Even if it is refused, what it wrote must be the start of its output.
fn runs(
    memory: &Refusing<Global>,
    alloc: Global,
    (script, output): (&[u8], &[u8]),
    number: u64,
) -> Outcome {
    let mut reader = script;
    let mut held = Vec::new(alloc);
    memory.refuse(number);
    let end = run_script(memory, &mut reader, &mut held);
    let is_part = output.starts_with(&held);
    let tried = memory.judge(end, ScriptError::NoMemory, |_| held.as_slice() == output);
    tried.and(is_part)
}

/// The number of requests that a script makes.
fn count_of(alloc: Global, (script, output): Script) -> Option<u64> {
    let memory = Refusing::new(alloc);
    requests(|number| runs(&memory, alloc, (script, output), number))
}

#[test]
fn each_request_of_a_script_is_refused(rt: HostRuntime) {
    let made = count_of(rt.alloc(), OF_A_CHECK_OUT);
    assert_eq!(rt; made, Some(55), "run_script");
}

#[test]
fn each_request_of_short_claims_is_refused(rt: HostRuntime) {
    let made = count_of(rt.alloc(), OF_SHORT_CLAIMS);
    assert_eq!(rt; made, Some(61), "run_script, of short claims");
}

#[test]
fn each_request_of_a_check_in_is_refused(rt: HostRuntime) {
    let made = count_of(rt.alloc(), OF_A_CHECK_IN);
    assert_eq!(rt; made, Some(105), "run_script, of a check-in");
}

#[test]
fn each_request_of_a_snapshot_is_refused(rt: HostRuntime) {
    let made = count_of(rt.alloc(), OF_A_SNAPSHOT);
    assert_eq!(rt; made, Some(64), "run_script, of a snapshot and a crash");
}
