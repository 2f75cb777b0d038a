ghost use Rattle.std.specs.Prelude.{◌<◌, length};

mod call;
mod creations;
mod growth;
mod memory;
mod past;
mod pasts;
mod play;
mod scripts;
mod told;

use crate::inspector::holding;
use creations::{CREATIONS, created};
use group_commit::{File, OpenError, Vault};
use pasts::{PASTS, found};
use play::{device, end, played};
use scripts::SCRIPTS;
use std::alloc::Global;
use std::process::Abort;

#[test]
fn scripts_are_played(rt: HostRuntime) {
    for script in &SCRIPTS {
        let all = (script.calls.len(), true, script.next.len());
        assert_eq!(rt; played(&rt, rt.alloc(), script), all, "{}", script.name);
    }
}

// Why no vault is opened in a file with these bytes, beside an empty one.
fn refusal(rt: &impl Abort, alloc: Global, bytes: &[u8]) -> Option<OpenError>
    requires { length bytes.now < 200 }
{
    match Vault::open(alloc, holding(rt, alloc, bytes), device(rt, alloc), 1) {
        Ok(vault) => {
            end(vault);
            None
        }
        Err(refused) => {
            let why = refused.why;
            drop(refused);
            Some(why)
        }
    }
}

#[test]
fn no_vault_to_open(rt: HostRuntime) {
    let damaged = OpenError::Damaged {
        file: File::First,
        offset: 1,
    };
    assert!(rt; refusal(&rt, rt.alloc(), &[]) == Some(OpenError::NoVault));
    assert!(rt; refusal(&rt, rt.alloc(), &[1; 24]) == Some(damaged));
}

#[test]
fn no_vault_is_made(rt: HostRuntime) {
    for creation in &CREATIONS {
        let (why, opens) = created(&rt, rt.alloc(), creation);
        assert_eq!(rt; why, creation.why, "{}", creation.name);
        assert_eq!(rt; opens, creation.opens, "{}", creation.name);
    }
}

#[test]
fn receipts_are_found_again(rt: HostRuntime) {
    for past in &PASTS {
        assert_eq!(rt;
            found(&rt, rt.alloc(), past),
            past.calls.len(),
            "{}",
            past.name
        );
    }
}
