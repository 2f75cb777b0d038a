//! What the counts of a report are for any well-formed vault. Each law is the contract of a function that does nothing.
ghost use Rattle.vault_inspector.specs.Counts.{CountsAreTotals};
ghost use Rattle.vault_inspector.specs.Figures.{WeightIsTotal};

/// The versions of all places are all versions of the shelf, and the drafts of all claims are all drafts.
pub fn counts_are_totals()
    ensures { CountsAreTotals }
{}

/// The reported weight of a vault is what all its versions and drafts weigh.
pub fn weight_is_total()
    ensures { WeightIsTotal }
{}
