//! A book made of stored parts.
ghost use Rattle.std.specs.Prelude.{◌≡◌, length, All, IfOk, IfErr};
ghost use Rattle.check_outs.specs.CheckOuts.{IsRising};
ghost use Rattle.check_outs.specs.Parts.{Parts, IsVaultOf, opened_all};
ghost use Rattle.vault_checkout.specs.FromParts.{IsRefusalOf};
ghost use Rattle.vault_state.specs.Vault.{Vault};

use crate::book::Book;
use crate::granting::grant_held;
use crate::parts::are_fit;
use check_outs::{AnyCheckOut, number_in, opened, put_in};
use design_tree::Tree;
use long_locks::{FromClaimsError, Line};
use part_versions::Shelf;
use std::alloc::Allocator;
use thiserror::Error;
use vault_model::{Claim, Drafts, NoMemory};

/// Why parts make no book.
#[derive(Clone, Copy, Debug, PartialEq, Eq, Error)]
pub enum FromPartsError {
    #[error("these are not the parts of a durable vault")]
    NotWellFormed,
    #[error("want of memory")]
    NoMemory,
}

fn opened_all<A: Allocator + Copy>(
    alloc: A,
    line: &Line<A>,
    drafts: Vec<Drafts<A>, A>,
) -> Result<Vec<AnyCheckOut<A>, A>, NoMemory>
    requires same { length line.now.claims ≡ length drafts.items }
    requires rising { All IsRising drafts.items }
    ensures { IfOk result (λ check_outs. check_outs.items ≡ opened_all line.now.claims drafts.items) }
{
    let mut check_outs = Vec::with_capacity(alloc, drafts.len())?;
    let mut rest = drafts;
    while let Some(own) = rest.pop() {
        let Some(claim) = line.at(rest.len()) else {
            unreachable!()
        };
        put_in(&mut check_outs, opened(alloc, number_in(claim.id), own));
    }
    Ok(check_outs)
}

impl<A: Allocator + Copy> Book<A> {
    /// The book of the durable vault that has exactly these parts; there is at most one. `last_long` is
    /// the last number given to a check-out. The claims are in the order of the queue and, in the same
    /// order, there are the drafts of each claim by rising place. The book uses the claims' allocator.
    /// Parts of no vault are refused before memory is asked for. Each claim with drafts is compared with
    /// all before it.
    pub fn from_parts(
        tree: Tree<A>,
        shelf: Shelf<A>,
        last_long: u32,
        claims: Vec<Claim, A>,
        drafts: Vec<Drafts<A>, A>,
    ) -> Result<Book<A>, FromPartsError>
        ensures made { IfOk result
            (IsVaultOf (record { tree = tree; shelf = shelf; last_long = last_long; claims = claims.items; drafts = drafts.items })) }
        ensures only { (v : Vault)
            → IsVaultOf (record { tree = tree; shelf = shelf; last_long = last_long; claims = claims.items; drafts = drafts.items }) v
            → IfOk result (λ book. book ≡ v) }
        ensures refused { IfErr result
            (IsRefusalOf (record { tree = tree; shelf = shelf; last_long = last_long; claims = claims.items; drafts = drafts.items })) }
    {
        if !are_fit(&tree, &shelf, &claims, &drafts) {
            return Err(FromPartsError::NotWellFormed);
        }
        let alloc = *claims.allocator();
        let line = match Line::from_claims(alloc, &tree, last_long, claims) {
            Ok(line) => line,
            Err(FromClaimsError::NotWellFormed) => return Err(FromPartsError::NotWellFormed),
            Err(FromClaimsError::NoMemory) => return Err(FromPartsError::NoMemory),
        };
        let Ok(mut check_outs) = opened_all(alloc, &line, drafts) else {
            return Err(FromPartsError::NoMemory);
        };
        grant_held(&mut check_outs, &line);
        Ok(Book {
            tree,
            shelf,
            line,
            check_outs,
            sessions: Vec::new(alloc),
            last_session: 0,
            door_count: 0,
        })
    }
}
