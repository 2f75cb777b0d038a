//! The line of claims. Their lock modes decide which are granted.
ghost use Rattle.std.specs.Prelude.{◌≡◌, ◌+◌, ◌<◌, ◌≤◌, List, [], ◌∷◌, ◌++◌, length, map, slice_get, is_some, None, Some, true, All, IfOk, OnOk, OnErr};
ghost use Rattle.std.specs.Option.{option_copied};
ghost use Rattle.std.specs.List.{IsDistinct};
ghost use Rattle.vault_state.specs.declared.claims.Claim.{Claim};
ghost use Rattle.vault_state.specs.declared.place.Place.{Place};
ghost use Rattle.vault_state.specs.Tree.{IsTree};
ghost use Rattle.vault_state.specs.declared.ids.ClaimId.TheVariants.{Long};
ghost use Rattle.vault_state.specs.Claims.{same_id, standing_behind, standing_of, claim_of, without, covering, changed, given_to, noted_as, claims_at};
ghost use Rattle.vault_state.specs.Vault.{AreThere};
ghost use Rattle.vault_state.specs.Limits.{most_claims, last_number};
ghost use Rattle.lock_table.specs.Tables.{IsTableOf, extension_by};
ghost use Rattle.long_locks.specs.Lines.{without_session, without_short, new_line, asked_long, asked_short, IsGrownFrom, in_way_of, put_first, extended_by};

use crate::claims::Claims;
use crate::ending::{Ending, drop_all};
use crate::looking::claims_at;
use crate::remembered::Remembered;
use design_tree::Tree;
use lock_table::{Extension, Table, lock_set};
use std::alloc::{Allocator, Global};
use std::marker::Model;
use vault_state::{Claim, ClaimId, Items, Listing, Name, NoMemory, Note, Owner, PlaceId, Standing};

/// The claims of a vault in order of arrival. Contracts see them as a list, with the last number
/// given to a claim of each kind, and the tree over which a claim was weighed last.
#[derive(Drop)]
pub struct Line<A: Allocator = Global> {
    /// The claims, in line order.
    pub(crate) claims: Claims<A>,
    /// The same claims by their lock modes. It gives each claim's standing.
    pub(crate) table: Table<A>,
    /// The tree over which a claim was weighed last. It takes no bytes.
    pub(crate) tree: Remembered<Tree<A>>,
    /// The last number given to a check-out.
    pub(crate) last_long: u32,
    /// The last number given to a hold.
    pub(crate) last_short: u32,
}

impl<A: Allocator> Model for Line<A> {
    ghost use Rattle.long_locks.specs.Lines.{LineSeen, IsLine};

    ghost Value = { LineSeen };

    ghost view = { λ l. record {
      claims = l.claims.claims;
      last_long = l.last_long;
      last_short = l.last_short;
      tree = l.tree.value;
    } };

    ghost invariant = { λ l. IsLine (record {
      claims = l.claims.claims;
      last_long = l.last_long;
      last_short = l.last_short;
      tree = l.tree.value;
    }) l.table };
}

pub(crate) fn put_last<A: Allocator + Copy>(
    claims: &mut Claims<A>,
    table: &mut Table<A>,
    tree: &Tree<A>,
    claim: Claim,
) -> Result<Standing, NoMemory>
    requires tree { IsTree tree.now }
    requires claims { All (λ (c : Claim). AreThere tree.now c.items) claims.old.claims }
    requires table { IsTableOf tree.now claims.old.claims table.old }
    requires items { AreThere tree.now claim.items }
    requires new { claim_of claims.old.claims claim.id ≡ None }
    requires room { length claims.old.claims < most_claims }
    ensures standing { IfOk result (λ standing. standing ≡ standing_behind tree.now claims.old.claims claim.items) }
    ensures asked { OnOk result (claims.new.claims ≡ claims.old.claims ++ claim ∷ []) }
    ensures table { OnOk result (IsTableOf tree.now claims.new.claims table.new) }
    ensures unchanged { OnErr result (claims.new.claims ≡ claims.old.claims) }
    ensures same_table { OnErr result (table.new ≡ table.old) }
{
    let locks = lock_set(tree, claim.items.as_slice());
    claims.reserve_one()?;
    let kept = claims.keep(claim)?;
    let standing = table.ask(claim.id, locks)?;
    claims.put_last(kept);
    Ok(standing)
}

fn extend<A: Allocator + Copy>(
    claims: &mut Claims<A>,
    table: &mut Table<A>,
    tree: &Tree<A>,
    id: ClaimId,
    items: Items,
) -> Result<Extension, NoMemory>
    requires tree { IsTree tree.now }
    requires claims { All (λ (c : Claim). AreThere tree.now c.items) claims.old.claims }
    requires table { IsTableOf tree.now claims.old.claims table.old }
    requires items { AreThere tree.now items }
    requires held { standing_of tree.now claims.old.claims id ≡ Some Standing.Held }
    ensures answer { IfOk result (λ extension. extension ≡ extension_by (in_way_of tree.now claims.old.claims id items)) }
    ensures extended { OnOk result
        (claims.new.claims ≡ extended_by (in_way_of tree.now claims.old.claims id items) claims.old.claims id items) }
    ensures table { OnOk result (IsTableOf tree.now claims.new.claims table.new) }
    ensures memory { OnErr result (in_way_of tree.now claims.old.claims id items ≡ None) }
    ensures unchanged { OnErr result (claims.new.claims ≡ claims.old.claims) }
    ensures same_table { OnErr result (table.new ≡ table.old) }
{
    let locks = lock_set(tree, items.as_slice());
    match table.extend(id, locks)? {
        Extension::Done => {
            claims.put_first(id, items);
            Ok(Extension::Done)
        }
        Extension::InTheWay(other) => Ok(Extension::InTheWay(other)),
    }
}

impl<A: Allocator + Copy> Line<A> {
    /// An empty line.
    pub fn new(alloc: A) -> Result<Line<A>, NoMemory>
        ensures { IfOk result (λ line. line ≡ new_line) }
    {
        let tree = Tree::new(alloc)?;
        Ok(Line {
            claims: Claims::new(alloc),
            table: Table::new(alloc)?,
            tree: Remembered::of(&tree),
            last_long: 0,
            last_short: 0,
        })
    }

    /// A copy of the line, in memory from its own allocator. It takes no more memory than this line.
    pub fn copy(&self) -> Result<Line<A>, NoMemory>
        ensures { IfOk result (λ copy. copy ≡ self.now) }
    {
        Ok(Line {
            claims: self.claims.copy()?,
            table: self.table.copy()?,
            tree: self.tree.again(),
            last_long: self.last_long,
            last_short: self.last_short,
        })
    }
}

impl<A: Allocator> Line<A> {
    /// The number of claims.
    pub fn len(&self) -> usize
        ensures { result ≡ length self.now.claims }
    {
        self.claims.len()
    }

    /// The last number given to a long claim, or 0.
    pub fn last_long(&self) -> u32
        ensures { result ≡ self.now.last_long }
    {
        self.last_long
    }

    /// The last number given to a short claim, or 0.
    pub fn last_short(&self) -> u32
        ensures { result ≡ self.now.last_short }
    {
        self.last_short
    }

    /// The claim of this id, by one look-up.
    pub fn get(&self, id: ClaimId) -> Option<&Claim>
        ensures { option_copied result ≡ claim_of self.now.claims id }
    {
        self.claims.get(id)
    }

    /// The claim at a position of the line, counted from 0.
    pub fn at(&self, position: usize) -> Option<&Claim>
        ensures { option_copied result ≡ slice_get self.now.claims position }
    {
        self.claims.at(position)
    }

    /// A claim's standing, over the line's tree and every tree grown from it. It takes one look-up.
    pub fn standing(&self, id: ClaimId) -> Option<Standing>
        ensures { (tree : List Place) → IsTree tree → IsGrownFrom self.now.tree tree →
            result ≡ standing_of tree self.now.claims id }
    {
        let position = self.claims.position_of(id)?;
        self.table.standing_at(position)
    }

    /// The first granted claim that covers a place.
    pub fn covers(&self, tree: &Tree<A>, place: PlaceId) -> Option<ClaimId>
        requires grown { IsGrownFrom self.now.tree tree.now }
        requires there { place ≤ length tree.now }
        ensures { result ≡ covering tree.now self.now.claims place }
    {
        tree.see_whole();
        self.table.held_over(tree, place)
    }
}

impl<A: Allocator + Copy> Line<A> {
    /// The claims, granted or waiting, that look at a place or at one under it, in line order. The work grows with the number of
    /// items in the line, and the memory with the number of claims listed.
    pub fn claims_at(&self, tree: &Tree<A>, place: PlaceId) -> Result<Listing<ClaimId, A>, NoMemory>
        requires grown { IsGrownFrom self.now.tree tree.now }
        requires there { place ≤ length tree.now }
        ensures { IfOk result (λ ids. ids ≡ claims_at tree.now self.now.claims place) }
    {
        let ids = claims_at(self.claims.allocator(), &self.claims, tree, place)?;
        Ok(Listing::from_vec(ids))
    }

    /// Puts a new long claim of a designer last, with the next number, and returns its standing.
    pub fn ask_long(
        &mut self,
        tree: &Tree<A>,
        owner: Name,
        items: Items,
    ) -> Result<Standing, NoMemory>
        requires grown { IsGrownFrom self.old.tree tree.now }
        requires items { AreThere tree.now items }
        requires room { length self.old.claims < most_claims }
        requires number { self.old.last_long < last_number }
        ensures standing { IfOk result (λ standing. standing ≡ standing_behind tree.now self.old.claims items) }
        ensures asked { OnOk result (self.new ≡ asked_long self.old tree.now owner items) }
        ensures unchanged { OnErr result (self.new ≡ self.old) }
    {
        tree.see_whole();
        let claim = Claim {
            id: ClaimId::Long(self.last_long + 1),
            owner: Owner::Designer(owner),
            items,
            note: Note::new(),
        };
        let standing = put_last(&mut self.claims, &mut self.table, tree, claim)?;
        self.last_long += 1;
        self.tree = Remembered::of(tree);
        Ok(standing)
    }

    /// Puts a new short claim of a session last, with the next number, and returns its standing.
    pub fn ask_short(
        &mut self,
        tree: &Tree<A>,
        session: u32,
        items: Items,
    ) -> Result<Standing, NoMemory>
        requires grown { IsGrownFrom self.old.tree tree.now }
        requires items { AreThere tree.now items }
        requires room { length self.old.claims < most_claims }
        requires number { self.old.last_short < last_number }
        ensures standing { IfOk result (λ standing. standing ≡ standing_behind tree.now self.old.claims items) }
        ensures asked { OnOk result (self.new ≡ asked_short self.old tree.now session items) }
        ensures unchanged { OnErr result (self.new ≡ self.old) }
    {
        tree.see_whole();
        let claim = Claim {
            id: ClaimId::Short(self.last_short + 1),
            owner: Owner::Session(session),
            items,
            note: Note::new(),
        };
        let standing = put_last(&mut self.claims, &mut self.table, tree, claim)?;
        self.last_short += 1;
        self.tree = Remembered::of(tree);
        Ok(standing)
    }

    /// Replaces a granted claim's items with these, and moves the claim to the front of the line, if
    /// they overlap no other granted claim.
    pub fn extend(
        &mut self,
        tree: &Tree<A>,
        id: ClaimId,
        items: Items,
    ) -> Result<Extension, NoMemory>
        requires grown { IsGrownFrom self.old.tree tree.now }
        requires items { AreThere tree.now items }
        requires held { standing_of tree.now self.old.claims id ≡ Some Standing.Held }
        ensures answer { IfOk result (λ extension. extension ≡ extension_by (in_way_of tree.now self.old.claims id items)) }
        ensures extended { OnOk result (self.new ≡ record self.old {
          claims = extended_by (in_way_of tree.now self.old.claims id items) self.old.claims id items;
          tree = tree.now;
        }) }

        // It runs out of memory only where nothing is in the way.
        ensures memory { OnErr result (in_way_of tree.now self.old.claims id items ≡ None) }
        ensures unchanged { OnErr result (self.new ≡ self.old) }
    {
        tree.see_whole();
        let extension = extend(&mut self.claims, &mut self.table, tree, id, items)?;
        self.tree = Remembered::of(tree);
        Ok(extension)
    }

    /// Replaces a claim's items with these, and moves the claim to the front of the line, without a
    /// check: it replays an extension that a journal records as granted.
    pub fn put_first(&mut self, tree: &Tree<A>, id: ClaimId, items: Items) -> Result<(), NoMemory>
        requires grown { IsGrownFrom self.old.tree tree.now }
        requires items { AreThere tree.now items }
        requires there { is_some (claim_of self.old.claims id) ≡ true }
        ensures put { OnOk result (self.new ≡ record self.old { claims = put_first self.old.claims id items; tree = tree.now }) }
        ensures unchanged { OnErr result (self.new ≡ self.old) }
    {
        tree.see_whole();
        self.table.put_first(id, lock_set(tree, items.as_slice()))?;
        self.claims.put_first(id, items);
        self.tree = Remembered::of(tree);
        Ok(())
    }
}

impl<A: Allocator> Line<A> {
    /// Removes a claim from the line. If there is none of this id, nothing changes.
    pub fn drop_claim(&mut self, id: ClaimId)
        ensures { self.new ≡ record self.old { claims = without self.old.claims id } }
    {
        self.claims.remove(id);
        self.table.release(id);
    }

    /// Gives the check-out of this number to a designer. Its position in the line, its items and its note stay. If there is none of this
    /// number, nothing changes. Takes no memory.
    pub fn give(&mut self, number: u32, designer: Name)
        ensures { self.new ≡ record self.old { claims = changed self.old.claims (Long number) (given_to designer) } }
    {
        self.claims.give(ClaimId::Long(number), designer);
    }

    /// Replaces the note of the check-out of this number. The rest of it stays. If there is none of this number, nothing changes.
    /// Takes no memory.
    pub fn set_note(&mut self, number: u32, note: Note)
        ensures { self.new ≡ record self.old { claims = changed self.old.claims (Long number) (noted_as note) } }
    {
        self.claims.set_note(ClaimId::Long(number), note);
    }

    /// Removes every claim of a session from the line, when the session ends.
    pub fn drop_session(&mut self, session: u32)
        ensures { self.new ≡ record self.old { claims = without_session session self.old.claims } }
    {
        self.table.see_whole();
        drop_all(&mut self.claims, &mut self.table, Ending::Session(session));
    }

    /// Removes every short claim from the line, and starts their numbers again at 1.
    pub fn restart(&mut self)
        ensures { self.new ≡ record self.old { claims = without_short self.old.claims; last_short = 0 } }
    {
        self.table.see_whole();
        drop_all(&mut self.claims, &mut self.table, Ending::AllShort);
        self.last_short = 0;
    }
}
