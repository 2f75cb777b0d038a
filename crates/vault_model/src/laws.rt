//! Laws of the definitions, on which the program's theorems rest.
ghost use Rattle.vault_model.specs.Laws.{PathIsItsText, UnderIsByParents, OverlapIsAMeeting, OverlapIsSymmetric, WellFormedStays, CountsRise, HeldStays, HeldIsDurable, HeldAreApart, EffectIsTheDurableChange, DurableStays, PathLeadsBack, CheckInKeepsTheWeight, CheckInIsRefusedForFullParts, SecondSaveReplaces};
ghost use Rattle.vault_model.specs.Rows.{Rows};

/// A text is read as a path exactly where it is the path's spelling.
pub fn path_is_its_text()
    ensures { PathIsItsText }
{}

/// A place is under another exactly where it is that place, or its parent is under it.
pub fn under_is_by_parents()
    ensures { UnderIsByParents }
{}

/// Two claims overlap exactly where some place is in the change set of one and the look set of the other.
pub fn overlap_is_a_meeting()
    ensures { OverlapIsAMeeting }
{}

/// Overlap goes both ways.
pub fn overlap_is_symmetric()
    ensures { OverlapIsSymmetric }
{}

/// A well-formed vault stays well formed under each step, and at a restart.
pub fn well_formed_stays()
    ensures { WellFormedStays }
{}

/// A step raises each command count by at most one.
pub fn counts_rise()
    ensures { CountsRise }
{}

/// A granted claim that is still there after a step is still granted.
pub fn held_stays()
    ensures { HeldStays }
{}

/// A granted long claim is granted in the durable vault, too.
pub fn held_is_durable()
    ensures { HeldIsDurable }
{}

/// Two granted claims don't overlap.
pub fn held_are_apart()
    ensures { HeldAreApart }
{}

/// A step changes the durable vault as its effect does, and not at all where it has none.
pub fn effect_is_the_durable_change()
    ensures { EffectIsTheDurableChange }
{}

/// A well-formed durable vault stays so under each effect that is applicable.
pub fn durable_stays()
    ensures { DurableStays }
{}

/// The path of a place leads back to it.
pub fn path_leads_back()
    ensures { PathLeadsBack }
{}

/// A check-in leaves the weight as it is: the drafts become versions, or it is refused.
pub fn check_in_keeps_the_weight()
    ensures { CheckInKeepsTheWeight }
{}

/// A limit refuses the check-in of a check-out that may be used exactly where a part of which it has a draft has 65,535 versions.
pub fn check_in_is_refused_for_full_parts()
    ensures { CheckInIsRefusedForFullParts }
{}

/// A second save of a place replaces the first: its reply and the vault after it are as without the first.
pub fn second_save_replaces()
    ensures { SecondSaveReplaces }
{}

/// The definitions give the conversations that were worked out by hand.
pub fn rows_are_given()
    ensures { Rows }
{}
