//! A line made of stored long claims.
ghost use Rattle.std.specs.Prelude.{◌≡◌, ◌≤◌, ◌↔◌, IsTrue, [], length, map, All, IfOk, IfErr, OnOk};
ghost use Rattle.std.specs.List.{IsDistinct, list_any};
ghost use Rattle.vault_state.specs.declared.claims.Claim.{Claim};
ghost use Rattle.vault_state.specs.Claims.{same_id};
ghost use Rattle.vault_state.specs.Limits.{most_claims};
ghost use Rattle.vault_state.specs.Tree.{IsTree};
ghost use Rattle.vault_state.specs.Vault.{AreThere, IsGiven, Owns, IsNoteOf, IsClaim};
ghost use Rattle.lock_table.specs.Tables.{IsTableOf};
ghost use Rattle.long_locks.specs.LongClaims.{AreLongClaims, line_of, IsRefusalOf};

use crate::claims::Claims;
use crate::line::{Line, put_last};
use crate::remembered::Remembered;
use design_tree::Tree;
use lock_table::Table;
use std::alloc::Allocator;
use thiserror::Error;
use vault_state::{Claim, ClaimId, Item, MAX_CLAIMS, NoMemory, Owner};

/// Why no line could be made of some claims.
#[derive(Clone, Copy, Debug, PartialEq, Eq, Error)]
pub enum FromClaimsError {
    #[error("these are no long claims of one line")]
    NotWellFormed,
    #[error("want of memory")]
    NoMemory,
}

impl From<NoMemory> for FromClaimsError {
    ghost use Rattle.long_locks.specs.declared.from_claims.FromClaimsError.TheVariants.{NoMemory};

    ghost from_gives = { λ _ e. e ≡ NoMemory };

    fn from(_: NoMemory) -> FromClaimsError {
        FromClaimsError::NoMemory
    }
}

/// Whether items name places of the tree.
pub(crate) fn are_there<A: Allocator>(tree: &Tree<A>, items: &[Item]) -> bool
    ensures { IsTrue result ↔ AreThere tree.now items.now }
{
    let count = tree.len();
    items
        .iter()
        .all(|item| (item.place.number() as usize) < count)
}

// Whether a claim is a long one, of a designer, with a number up to the last.
fn is_long(last_long: u32, claim: &Claim) -> bool
    ensures { IsTrue result
        ↔ (IsGiven last_long 0 claim.now.id × Owns [] claim.now.owner claim.now.id × IsNoteOf claim.now.id claim.now.note) }
{
    // Any note is short enough; this call shows that to the proof.
    let _ = claim.note.as_bytes();
    match (claim.id, claim.owner) {
        (ClaimId::Long(number), Owner::Designer(_)) => 1 <= number && number <= last_long,
        (ClaimId::Long(_), Owner::Session(_)) => false,
        (ClaimId::Short(_), _) => false,
    }
}

fn is_long_claim<A: Allocator>(tree: &Tree<A>, last_long: u32, claim: &Claim) -> bool
    ensures { IsTrue result ↔ IsClaim tree.now [] last_long 0 claim.now }
{
    is_long(last_long, claim) && claim.items.len() > 0 && are_there(tree, claim.items.as_slice())
}

fn has_id(claims: &[Claim], id: ClaimId) -> bool
    ensures { result ≡ list_any (λ (c : Claim). same_id c.id id) claims.now }
{
    claims.iter().any(|claim| claim.id == id)
}

// Whether no two claims have one id.
fn are_apart(claims: &[Claim]) -> bool
    ensures { IsTrue result ↔ IsDistinct same_id (map (λ (c : Claim). c.id) claims.now) }
{
    for index in 0..claims.len() {
        let claim = claims[index];
        if has_id(&claims[..index], claim.id) {
            return false;
        }
    }
    true
}

fn are_long_claims<A: Allocator>(tree: &Tree<A>, last_long: u32, claims: &[Claim]) -> bool
    ensures { IsTrue result ↔ AreLongClaims tree.now last_long claims.now }
{
    claims.len() <= MAX_CLAIMS
        && claims
            .iter()
            .all(|claim| is_long_claim(tree, last_long, claim))
        && are_apart(claims)
}

// The claims by their ids, and their lock table.
fn line_up<A: Allocator + Copy>(
    alloc: A,
    tree: &Tree<A>,
    claims: &[Claim],
) -> Result<(Claims<A>, Table<A>), NoMemory>
    requires tree { IsTree tree.now }
    requires there { All (λ (c : Claim). AreThere tree.now c.items) claims.now }
    requires few { length claims.now ≤ most_claims }
    requires apart { IsDistinct same_id (map (λ (c : Claim). c.id) claims.now) }
    ensures claims { IfOk result (λ made. made.0.claims ≡ claims.now) }
    ensures table { IfOk result (λ made. IsTableOf tree.now claims.now made.1) }
{
    let mut line = Claims::new(alloc);
    let mut table = Table::new(alloc)?;
    for claim in claims {
        put_last(&mut line, &mut table, tree, *claim)?;
    }
    Ok((line, table))
}

impl<A: Allocator + Copy> Line<A> {
    /// The line of just these claims, in their order, over this tree. All must be long. `last_long` is
    /// the last number given to a long claim. No short claim has a number yet.
    ///
    /// Claims that no line can have are refused before memory is requested. Each claim's id is compared with those of all before it.
    /// Each claim is weighed as in `ask_long`, at the queues of its own places.
    pub fn from_claims(
        alloc: A,
        tree: &Tree<A>,
        last_long: u32,
        claims: Vec<Claim, A>,
    ) -> Result<Line<A>, FromClaimsError>
        ensures made { IfOk result (λ line. line ≡ line_of tree.now last_long claims.items) }
        ensures well_formed { OnOk result (AreLongClaims tree.now last_long claims.items) }

        // It runs out of memory only with claims that make a line.
        ensures refused { IfErr result (IsRefusalOf tree.now last_long claims.items) }
    {
        if !are_long_claims(tree, last_long, &claims) {
            return Err(FromClaimsError::NotWellFormed);
        }
        tree.see_whole();
        let (line, table) = line_up(alloc, tree, &claims)?;
        Ok(Line {
            claims: line,
            table,
            tree: Remembered::of(tree),
            last_long,
            last_short: 0,
        })
    }
}
