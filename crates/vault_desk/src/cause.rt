//! Why a line got no reply, as the vault or the reading of the line said it.
ghost use Rattle.std.specs.Prelude.{◌≡◌};
ghost use Rattle.group_commit.specs.Calls.{IsReason};
ghost use Rattle.vault_model.specs.declared.replies.Outside.TheVariants.{BadLine, Broken, NoMemory};
ghost use Rattle.vault_desk.specs.Lost.{IsLost};

use group_commit::{Ticket, Vault};
use std::alloc::Allocator;
use std::marker::Model;
use vault_device::Device;
use vault_model::Outside;

/// Why a line got no reply. A cause that speaks of the vault can only be made from a vault in that state: none says that a vault is
/// broken or has no room unless the vault said so.
#[derive(Drop)]
pub struct Cause {
    outside: Outside,
}

impl Model for Cause {
    ghost use Rattle.vault_model.specs.declared.replies.Outside.{Outside};

    ghost Value = { Outside };

    ghost view = { λ c. c.outside };
}

/// Why a vault didn't stage a command: only its refusal makes one. So one that says that memory was refused is of a vault that isn't broken.
#[derive(Drop)]
pub struct NotStaged {
    outside: Outside,
}

impl Model for NotStaged {
    ghost use Rattle.vault_model.specs.declared.replies.Outside.{Outside};

    ghost Value = { Outside };

    ghost view = { λ n. n.outside };
}

impl NotStaged {
    // This vault refused the command.
    pub(crate) fn of_vault<D: Device, A: Allocator>(
        vault: &Vault<D, A>,
        outside: Outside,
    ) -> NotStaged
        requires { IsReason vault.now outside }
        ensures { result ≡ outside }
    {
        let _ = vault;
        NotStaged { outside }
    }

    /// The cause, as the client would get it.
    pub fn outside(&self) -> Outside
        ensures { result ≡ self.now }
    {
        self.outside
    }

    // The same, for the answer to a line.
    pub(crate) fn into_cause(self) -> Cause
        ensures { result ≡ self }
    {
        Cause {
            outside: self.outside,
        }
    }
}

impl Cause {
    /// The cause, as the client gets it.
    pub fn outside(&self) -> Outside
        ensures { result ≡ self.now }
    {
        self.outside
    }

    // The line is no command.
    pub(crate) fn bad_line() -> Cause
        ensures { result ≡ BadLine }
    {
        Cause {
            outside: Outside::BadLine,
        }
    }

    // Memory for reading the line was refused.
    pub(crate) fn no_memory() -> Cause
        ensures { result ≡ NoMemory }
    {
        Cause {
            outside: Outside::NoMemory,
        }
    }

    // This vault doesn't know what became of this ticket's command.
    pub(crate) fn of_ticket<D: Device, A: Allocator>(
        vault: &Vault<D, A>,
        ticket: &Ticket<A>,
    ) -> Cause
        requires { IsLost vault.now ticket.now }
        ensures { result ≡ Broken }
    {
        let _ = vault;
        let _ = ticket;
        Cause {
            outside: Outside::Broken,
        }
    }
}
