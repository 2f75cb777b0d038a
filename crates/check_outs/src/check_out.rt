//! Check-outs, typed by their standing.
ghost use Rattle.std.specs.Prelude.{◌≡◌, [], OnOk, OnErr};
ghost use Rattle.check_outs.specs.CheckOuts.{IsRising, with_own};

use std::alloc::{AllocFailed, Allocator, Global};
use std::marker::Model;
use vault_model::{DraftIn, Drafts, Listing, NoMemory};

/// A designer's long claim, by its number: `CheckOut<Waiting>` while it waits, and `CheckOut<Held>`
/// once it is granted. Drafts are saved only in a granted one.
#[derive(Drop)]
pub struct CheckOut<State> {
    number: u32,
    state: State,
}

impl<State> Model for CheckOut<State> {
    ghost use Rattle.check_outs.specs.CheckOuts.{CheckOutSeen};

    ghost Value = { CheckOutSeen State };

    ghost view = { λ c. record { number = c.number; state = c.state } };
}

/// The state of a waiting check-out: no drafts, and the allocator for later ones.
#[derive(Drop)]
pub struct Waiting<A: Allocator = Global> {
    alloc: A,
}

impl<A: Allocator> Model for Waiting<A> {
    ghost Value = { Unit {0} };

    ghost view = { λ w. tt };
}

/// The state of a granted check-out: its drafts, at most one for each part, by rising place.
#[derive(Drop)]
pub struct Held<A: Allocator = Global> {
    drafts: Vec<DraftIn<A>, A>,
}

impl<A: Allocator> Model for Held<A> {
    ghost use Rattle.std.specs.Prelude.{List};
    ghost use Rattle.vault_state.specs.Shelf.{Draft};
    ghost use Rattle.check_outs.specs.CheckOuts.{IsRising};

    ghost Value = { List Draft };

    ghost view = { λ h. h.drafts.items };

    // The invariant of lib.rt.
    ghost invariant = { λ h. IsRising h.drafts.items };
}

impl<State> CheckOut<State> {
    /// The number of the claim.
    pub fn number(&self) -> u32
        ensures { result ≡ self.now.number }
    {
        self.number
    }
}

impl<State: Drop> CheckOut<State> {
    /// Gives the check-out up, with its drafts. Returns the number of its claim.
    pub fn withdraw(self) -> u32
        ensures { result ≡ self.number }
    {
        self.number
    }
}

impl<A: Allocator> CheckOut<Waiting<A>> {
    /// A check-out that waits.
    pub fn asked(alloc: A, number: u32) -> Self
        ensures { result ≡ record { number = number; state = tt } }
    {
        CheckOut {
            number,
            state: Waiting { alloc },
        }
    }

    /// The check-out, now granted. It has no drafts yet, and the call takes no memory.
    pub fn grant(self) -> CheckOut<Held<A>>
        ensures { result ≡ record { number = self.number; state = [] } }
    {
        CheckOut {
            number: self.number,
            state: Held {
                drafts: Vec::new(self.state.alloc),
            },
        }
    }
}

fn save_in<A: Allocator>(
    drafts: &mut Vec<DraftIn<A>, A>,
    draft: DraftIn<A>,
) -> Result<(), AllocFailed<DraftIn<A>>>
    requires { IsRising drafts.old.items }
    ensures rising { IsRising drafts.new.items }
    ensures ok { OnOk result (drafts.new.items ≡ with_own drafts.old.items draft) }
    ensures err { OnErr result (drafts.new.items ≡ drafts.old.items) }
{
    match drafts.binary_search_by_key(&draft.place, |other| other.place) {
        Ok(index) => {
            drafts[index] = draft;
            Ok(())
        }
        Err(index) => drafts.insert(index, draft),
    }
}

impl<A: Allocator + Copy> CheckOut<Held<A>> {
    /// The check-out, waiting again. It must have no drafts.
    pub fn recall(self) -> CheckOut<Waiting<A>>
        requires { self.state ≡ [] }
        ensures { result ≡ record { number = self.number; state = tt } }
    {
        CheckOut {
            number: self.number,
            state: Waiting {
                alloc: *self.state.drafts.allocator(),
            },
        }
    }
}

impl<A: Allocator> CheckOut<Held<A>> {
    /// A granted check-out that begins with these drafts.
    pub fn reopened(number: u32, drafts: Drafts<A>) -> Self
        requires { IsRising drafts }
        ensures { result ≡ record { number = number; state = drafts } }
    {
        CheckOut {
            number,
            state: Held {
                drafts: drafts.into_vec(),
            },
        }
    }

    /// The drafts, by rising place.
    pub fn drafts(&self) -> &[DraftIn<A>]
        ensures drafts { result.now ≡ self.now.state }
        ensures rising { IsRising self.now.state }
    {
        self.state.drafts.as_slice()
    }

    /// Saves a draft. It replaces one of the same part; if there is none, the call may take memory.
    pub fn save(&mut self, draft: DraftIn<A>) -> Result<(), NoMemory>
        ensures ok { OnOk result (self.new ≡ record self.old { state = with_own self.old.state draft }) }
        ensures err { OnErr result (self.new ≡ self.old) }
    {
        match save_in(&mut self.state.drafts, draft) {
            Ok(()) => Ok(()),
            Err(_) => Err(NoMemory),
        }
    }

    /// Ends the check-out, and returns its drafts, by rising place.
    pub fn close(self) -> Drafts<A>
        ensures drafts { result ≡ self.state }
        ensures rising { IsRising result }
    {
        Listing::from_vec(self.state.drafts)
    }
}
