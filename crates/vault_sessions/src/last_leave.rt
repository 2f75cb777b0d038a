//! How a conversation left its session at its end.
ghost use Rattle.std.specs.Prelude.{◌≡◌};
ghost use Rattle.vault_model.specs.declared.commands.Command.TheVariants.{Leave};
ghost use Rattle.vault_model.specs.declared.replies.Outside.TheVariants.{Broken};

use group_commit::Ticket;
use std::alloc::Allocator;
use std::marker::Model;
use vault_desk::NotStaged;

/// What a conversation needs to be over: its session has its last leave, or can't get one. It is made only where no session is open,
/// from the ticket of a leave, or from the refusal of a vault that is broken. Contracts see the session's number, 0 for none.
#[derive(Drop)]
pub struct LastLeave {
    session: u32,
}

impl Model for LastLeave {
    ghost use Rattle.std.specs.Prelude.{ℕ};

    ghost Value = { ℕ };

    ghost view = { λ l. l.session };
}

impl LastLeave {
    // No session is open.
    pub(crate) fn of_none() -> LastLeave
        ensures { result ≡ 0 }
    {
        LastLeave { session: 0 }
    }

    // The session's leave was staged, for this ticket.
    pub(crate) fn staged<A: Allocator>(ticket: &Ticket<A>, session: u32) -> LastLeave
        requires { (ticket.now.session ≡ session) × (ticket.now.command ≡ Leave) }
        ensures { result ≡ session }
    {
        let _ = ticket;
        LastLeave { session }
    }

    // No leave of the session can be staged: the vault is broken.
    pub(crate) fn refused(why: &NotStaged, session: u32) -> LastLeave
        requires { why.now ≡ Broken }
        ensures { result ≡ session }
    {
        let _ = why;
        LastLeave { session }
    }
}
