//! Who waits for a claim, by `wait`, and when those who wait look again.
ghost use Rattle.std.specs.Prelude.{◌≡◌, ◌||◌, ◌+◌, ◌-◌, ◌^◌, ◌<◌, false};

use vault_model::{ClaimId, Command};

/// A `wait` that was heard and isn't staged yet. Only `Waits`, which counts them, makes one and takes one back.
pub struct PendingWait {
    /// The claim that it waits for.
    pub claim: ClaimId,
    /// Whether it is staged next, however the claim stands.
    pub is_let_go: bool,
    // No other module makes one.
    _counted: (),
}

impl PendingWait {
    /// The same one. With `goes` it is staged next.
    pub fn let_go(self, goes: bool) -> PendingWait
        ensures { (result.claim ≡ self.claim) × (result.is_let_go ≡ (self.is_let_go || goes)) }
    {
        let PendingWait {
            claim,
            is_let_go,
            _counted: _,
        } = self;
        PendingWait {
            claim,
            is_let_go: is_let_go || goes,
            _counted: (),
        }
    }
}

/// How many wait for a claim, and when it is worth while to look again: at the queue of claims, for a reply, or for room.
#[derive(Debug, Clone, Copy, PartialEq, Eq)]
pub(crate) struct Waits {
    // The number of commands staged that may have moved the queue of claims. A failed device call counts as one more.
    pub moves: u64,
    // How often a commit or a snapshot came to its end, or a pump found nothing to do or failed.
    pub settlings: u64,
    // How many wait for a claim.
    pub count: usize,
}

impl Waits {
    /// Nobody waits.
    pub fn new() -> Waits
        ensures { result.count ≡ 0 }
    {
        Waits {
            moves: 0,
            settlings: 0,
            count: 0,
        }
    }

    /// The queue of claims may have moved, or the vault broke: those who wait look again.
    pub fn moved(&mut self)
        ensures { self.new.count ≡ self.old.count }
    {
        self.moves = self.moves.wrapping_add(1);
    }

    /// A command was staged. Where it may have moved the queue of claims, those who wait look again.
    pub fn staged(&mut self, moves: bool)
        ensures { self.new.count ≡ self.old.count }
    {
        if moves {
            self.moved();
        }
    }

    /// There may be a reply now, or room.
    pub fn settled(&mut self)
        ensures { self.new.count ≡ self.old.count }
    {
        self.settlings = self.settlings.wrapping_add(1);
    }

    /// One more waits, for this claim.
    pub fn enter(&mut self, claim: ClaimId) -> PendingWait
        requires { self.old.count < 2 ^ 64 - 1 }
        ensures kept { (result.claim ≡ claim) × (result.is_let_go ≡ false) }
        ensures counted { self.new.count ≡ self.old.count + 1 }
    {
        self.count += 1;
        PendingWait {
            claim,
            is_let_go: false,
            _counted: (),
        }
    }

    /// This one waits no longer. The claim that it waited for.
    pub fn leave(&mut self, kept: PendingWait) -> ClaimId
        ensures claim { result ≡ kept.claim }
        ensures counted { self.new.count ≡ self.old.count - 1 }
    {
        let PendingWait {
            claim,
            is_let_go: _,
            _counted: _,
        } = kept;
        self.count = self.count.saturating_sub(1);
        claim
    }
}

/// Whether a command may end a claim, so that others are granted. A wrong answer would only cost time for those who wait.
pub(crate) fn may_move<W, C>(command: &Command<W, C>) -> bool {
    matches!(
        command,
        Command::CheckIn(_) | Command::Abandon(_) | Command::Release(_) | Command::Leave
    )
}
