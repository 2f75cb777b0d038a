//! How much of each limit is used.
ghost use Rattle.std.specs.Prelude.{◌≡◌, ◌<◌, ◌≤◌, ◌^◌, Some};
ghost use Rattle.vault_inspector.specs.Checks.{limit_of, limit_text, limits_of, name_of, per_cent_of};

use crate::Figures;
use std::fmt;
use vault_model::{
    LAST_NUMBER, MAX_CHILDREN, MAX_CLAIMS, MAX_DRAFTS, MAX_PLACES, MAX_VERSIONS, MAX_WEIGHT,
};

/// What is limited.
#[derive(Clone, Copy, Debug, PartialEq, Eq)]
pub enum Limited {
    Places,
    Projects,
    /// The places right beneath the place that has the most.
    Children,
    Claims,
    /// The drafts of the check-out that has the most.
    Drafts,
    /// The versions of the part that has the most.
    Versions,
    Weight,
    /// The numbers given to check-outs.
    CheckOuts,
}

impl Limited {
    /// Its name.
    pub fn name(self) -> &'static str
        ensures { result.now ≡ name_of self }
    {
        match self {
            Limited::Places => "places",
            Limited::Projects => "projects",
            Limited::Children => "places-beneath-one",
            Limited::Claims => "claims",
            Limited::Drafts => "drafts-of-a-check-out",
            Limited::Versions => "versions",
            Limited::Weight => "weight",
            Limited::CheckOuts => "check-outs",
        }
    }
}

/// A limit of a vault, how much of it is used, and how much that is in per cent, rounded down.
#[derive(Clone, Copy, Debug, PartialEq, Eq)]
pub struct Limit {
    pub limited: Limited,
    pub used: u64,
    pub limit: u64,
    pub per_cent: u64,
}

impl fmt::Display for Limit {
    ghost output = { λ limit. Some (limit_text limit) };

    fn fmt<W: fmt::Write>(&self, f: &mut fmt::Formatter<W>) -> fmt::Result {
        let Limit {
            limited,
            used,
            limit,
            per_cent,
        } = *self;
        let name = limited.name();
        write!(f, "{name}: {used} of {limit}, {per_cent} per cent")
    }
}

// How much of a limit is used in per cent, rounded down. More than the limit counts as 100.
fn per_cent(used: u64, limit: u64) -> u64
    requires some { 0 < limit }
    requires fits { limit < 2 ^ 57 }
    ensures { result ≡ per_cent_of used limit }
{
    if used < limit {
        used * 100 / limit
    } else {
        100
    }
}

// A limit, and how much of it is used.
fn limit_of(limited: Limited, used: u64, limit: u64) -> Limit
    requires some { 0 < limit }
    requires fits { limit < 2 ^ 57 }
    ensures { result ≡ limit_of limited used limit }
{
    Limit {
        limited,
        used,
        limit,
        per_cent: per_cent(used, limit),
    }
}

impl Figures {
    /// Each limit that a vault's files show, with what is used of it.
    pub fn limits(&self) -> [Limit; 8]
        ensures { result ≡ limits_of self.now }
    {
        [
            limit_of(Limited::Places, self.places as u64, MAX_PLACES as u64),
            limit_of(Limited::Projects, self.projects as u64, MAX_CHILDREN as u64),
            limit_of(Limited::Children, self.children as u64, MAX_CHILDREN as u64),
            limit_of(Limited::Claims, self.claims as u64, MAX_CLAIMS as u64),
            limit_of(Limited::Drafts, self.claim_drafts as u64, MAX_DRAFTS as u64),
            limit_of(
                Limited::Versions,
                u64::from(self.part_versions),
                MAX_VERSIONS as u64,
            ),
            limit_of(Limited::Weight, self.weight as u64, MAX_WEIGHT as u64),
            limit_of(
                Limited::CheckOuts,
                u64::from(self.last_check_out),
                u64::from(LAST_NUMBER),
            ),
        ]
    }
}
