//! Laws of a crash of a device in memory.
ghost use Rattle.vault_device.specs.Picks.{FilledOrSettled, PicksDecide};

/// After a crash with `Bytes(b)` each offset holds b, or the durable (settled) byte, which a read gave there, too.
pub fn a_crash_fills_what_is_unsettled()
    ensures { FilledOrSettled }
{}

/// Where a read gives a 1 and the durable byte isn't 1, the pick alone decides whether a crash leaves a 1: `Old`
/// doesn't, `New` does, and `Bytes(b)` does exactly if b is 1.
pub fn picks_decide_an_unsettled_one()
    ensures { PicksDecide }
{}
