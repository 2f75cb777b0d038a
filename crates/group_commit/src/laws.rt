//! The laws of the history, over every run.
ghost use Rattle.std.specs.Prelude.{ℕ};
ghost use Rattle.vault_state.specs.Vault.{Vault};
ghost use Rattle.group_commit.specs.Rows.{Rows};
ghost use Rattle.group_commit.specs.Laws.{ActsAreOfTheView, CrashesOpen, HistoryIsLegal, ToldStays, ToldIsSettled, WorldsAreOrderly, PrefixesAreGuarded, RecoveryGivesAPrefix, LeftIsRecovered, EffectsAreTheChange, CountsAreOfTheLife, ReachableGoesOn};

/// A caller's view of a vault (its present life) acts as the whole world (all its lives) does: the present life is all that its
/// calls need.
pub fn each_act_is_of_the_view()
    ensures acts { ActsAreOfTheView }
    ensures crashes { CrashesOpen }
{}

/// The history of every run is legal, acknowledged entries stand for good, no two granted claims overlap, and recovery gives
/// one prefix of the history, with all acknowledged entries.
pub fn the_history_is_kept()
    ensures legal { HistoryIsLegal }
    ensures told { ToldStays }
    ensures settled { ToldIsSettled }
    ensures orderly { WorldsAreOrderly }
    ensures guarded { PrefixesAreGuarded }
    ensures recovery { RecoveryGivesAPrefix }
    ensures left { LeftIsRecovered }
{}

/// The effects of a part of the history are its durable change: what is written for its entries leads from the durable vault
/// before them to the one after them.
pub fn effects_are_the_change()
    ensures { EffectsAreTheChange }
{}

/// Neither a session nor the door (session 0) has counted more commands than the present life has entries.
pub fn counts_are_of_the_life()
    ensures { CountsAreOfTheLife }
{}

/// If some run reaches a vault's view, some run also reaches the view after each call, and the one after a crash and an opening
/// of what that left.
pub fn reachable_goes_on()
    ensures { (snapshot : Vault → ℕ) → ReachableGoesOn snapshot }
{}

/// The definitions give the runs that were worked out by hand.
pub fn rows_are_given()
    ensures { Rows }
{}
