//! The first difference that was found, and what was covered.

use crate::counts::Counts;

/// The first difference that was found, and what was covered.
#[derive(Clone, Copy)]
pub struct Verdict {
    pub found: Option<&'static str>,
    pub counts: Counts,
}

impl Verdict {
    /// No difference yet. The counts go on from these.
    pub fn new(counts: Counts) -> Verdict {
        Verdict {
            found: None,
            counts,
        }
    }

    /// If this doesn't hold, and no difference was found before, it is the difference.
    pub fn sure(&mut self, holds: bool, difference: &'static str) {
        if !holds && self.found.is_none() {
            self.found = Some(difference);
        }
    }

    /// Whether no difference was found.
    pub fn is_sound(&self) -> bool {
        self.found.is_none()
    }
}
