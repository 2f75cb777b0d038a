//! Laws of the questions' answers.
ghost use Rattle.question_laws.specs.Questions.{ClaimsAreThoseNear, CheckOutIsShownAsAsked, HoldIsShownAsAsked, ExtensionIsShownAsAsked, DraftsAreWhatCheckInMakes};
ghost use Rattle.question_laws.specs.Longest.{RepliesAreShort};

/// `claims` lists the claims with an item at the place, above it or beneath it, all of them and no other, in the order of the queue.
pub fn claims_are_those_near()
    ensures { ClaimsAreThoseNear }
{}

/// A check-out is shown with the items that were asked for, in their order, and with its owner and how it stands.
pub fn check_out_is_shown_as_asked()
    ensures { CheckOutIsShownAsAsked }
{}

/// So is a hold.
pub fn hold_is_shown_as_asked()
    ensures { HoldIsShownAsAsked }
{}

/// An extended claim is shown with its former items and those that were asked for behind them.
pub fn extension_is_shown_as_asked()
    ensures { ExtensionIsShownAsAsked }
{}

/// The parts that `drafts` lists are those that get a version if the check-out is checked in, and `draft` shows its content.
pub fn drafts_are_what_check_in_makes()
    ensures { DraftsAreWhatCheckInMakes }
{}

/// No reply to a command is longer than the table says.
pub fn replies_are_short()
    ensures { RepliesAreShort }
{}
