//! The lock table: which claims are granted or waiting, by their modes.
ghost use Rattle.std.specs.Prelude.{◌≡◌, ℕ, ◌+◌, ◌<◌, ◌≤◌, nat_le, true, false, List, [], ◌∷◌, ◌++◌, length, map, is_some, position, slice_get, take, set, vec_len, if◌then◌else◌, Option, None, Some, All, IfOk, OnOk, OnErr};
ghost use Rattle.std.specs.List.{remove};
ghost use Rattle.std.specs.Option.{option_map};
ghost use Rattle.vault_state.specs.Claims.{same_id, is_short, standing_by};
ghost use Rattle.vault_state.specs.Limits.{most_claims};
ghost use Rattle.lock_queue.specs.declared.queue.Request.{Request};
ghost use Rattle.lock_table.specs.declared.entry.Entry.{Entry};
ghost use Rattle.lock_table.specs.Queues.{AreQueues, is_taken, blocker_at, blockers_of, requests_at, room_at, requests_by, queue_of, group_in, held_group_in, waits_behind};
ghost use Rattle.lock_table.specs.Tables.{IsTable, first_in_way, entry_of, entries_before, entries_without, long_entries, blocker_in, standing_in, is_held_in, held_in_way, extension_by, put_first, extended_by, held_over_in};

use crate::again::Again;
use crate::entry::KeptEntry;
use crate::queues::{
    admit, cover_at, earlier_of, group_at, held_at, held_in_way, index_of, position_of, put_last,
    reserve, take_out, take_short_out,
};
use crate::waits::{first_behind, id_at, wait_behind, weigh_again};
use crate::{Extension, LockSet, queues};
use design_tree::Tree;
use lock_modes::Group;
use lock_queue::{PlaceQueue, is_short};
use std::alloc::{Allocator, Global};
use std::marker::Model;
use vault_state::{ClaimId, MAX_CLAIMS, NoMemory, PlaceId, Standing};

/// Claims in line order, each with its modes and its blocker (the claim that it waits for); and for each
/// place the queue of the claims that have a mode there. Contracts see the list of its entries.
#[derive(Drop)]
pub struct Table<A: Allocator = Global> {
    /// The claims in line order, each as its id and a pointer to its lock set.
    entries: Vec<KeptEntry<A>, A>,
    /// The blocker of each entry, at the entry's position; none where it is granted.
    blockers: Vec<Option<ClaimId>, A>,
    /// The queue and the two groups of each place, by its number, up to the highest number ever locked.
    queues: Vec<PlaceQueue<A>, A>,
}

impl<A: Allocator> Model for Table<A> {
    ghost use Rattle.std.specs.Prelude.{◌≡◌, List};
    ghost use Rattle.lock_table.specs.declared.entry.Entry.{Entry};

    ghost Value = { List Entry };

    ghost use Rattle.lock_table.specs.Tables.{IsTable};
    ghost use Rattle.lock_table.specs.Queues.{AreQueues, blockers_of};

    ghost view = { λ t. t.entries.items };

    // Invariants 2 and 3 of lib.rt, then 4, then 5.
    ghost invariant = { λ t. IsTable t.entries.items × AreQueues t.entries.items t.queues.items
        × (t.blockers.items ≡ blockers_of t.entries.items) };
}

fn standing_by(blocker: Option<ClaimId>) -> Standing
    ensures { result ≡ standing_by blocker }
{
    match blocker {
        None => Standing::Held,
        Some(id) => Standing::Queued(id),
    }
}

// Removes the claim at a position from the queues of its places.
fn leave<A: Allocator>(
    entries: &[KeptEntry<A>],
    blockers: &[Option<ClaimId>],
    queues: &mut Vec<PlaceQueue<A>, A>,
    index: usize,
)
    requires there { index < length entries.now }
    requires table { IsTable entries.now }
    requires queues { (p : ℕ) → requests_at queues.old.items p ≡ queue_of entries.now p }
    requires blockers { blockers.now ≡ blockers_of entries.now }
    ensures requests { (e : Entry) → slice_get entries.now index ≡ Some e → (p : ℕ)
        → requests_at queues.new.items p ≡ requests_by (is_held_in entries.now) (entries_without entries.now e.id) p }
    ensures room { (p : ℕ) → room_at queues.old.items p ≤ room_at queues.new.items p }
{
    let entry = &entries[index];
    take_out(queues, entry.id(), entry.locks(), blockers[index].is_none());
}

// Removes the item at a position, and puts another one first.
fn move_first<T: Drop, A: Allocator>(items: &mut Vec<T, A>, index: usize, item: T)
    requires { index < vec_len items.old }
    ensures { items.new.items ≡ item ∷ remove items.old.items index }
{
    let _ = items.remove(index);
    items.insert(0, item).unwrap();
}

// Removes the claim at a position from the line.
fn take_away<A: Allocator>(
    entries: &mut Vec<KeptEntry<A>, A>,
    blockers: &mut Vec<Option<ClaimId>, A>,
    queues: &mut Vec<PlaceQueue<A>, A>,
    id: ClaimId,
    index: usize,
)
    requires table { IsTable entries.old.items }
    requires queues { AreQueues entries.old.items queues.old.items }
    requires blockers { blockers.old.items ≡ blockers_of entries.old.items }
    requires there { position (λ (e : Entry). same_id e.id id) entries.old.items ≡ Some index }
    ensures done { entries.new.items ≡ entries_without entries.old.items id }
    ensures table { IsTable entries.new.items }
    ensures queues { AreQueues entries.new.items queues.new.items }
    ensures blockers { blockers.new.items ≡ blockers_of entries.new.items }
{
    leave(entries, blockers, queues, index);
    let _ = entries.remove(index);
    let _ = blockers.remove(index);
    weigh_again(entries, blockers, queues, Again::Behind(id), index);
}

// Removes the entry at a position and its blocker, if the claim is short.
fn remove_short<A: Allocator>(
    entries: &mut Vec<KeptEntry<A>, A>,
    blockers: &mut Vec<Option<ClaimId>, A>,
    index: usize,
)
    requires there { index < vec_len entries.old }
    requires many { vec_len blockers.old ≡ vec_len entries.old }
    ensures done { (e : Entry) → slice_get entries.old.items index ≡ Some e
        → entries.new.items ≡ (if is_short e.id then remove entries.old.items index else entries.old.items) }
    ensures beside { (old : Entry → Option ClaimId) → blockers.old.items ≡ map old entries.old.items
        → blockers.new.items ≡ map old entries.new.items }
    ensures many { vec_len blockers.new ≡ vec_len entries.new }
{
    if is_short(entries[index].id()) {
        let _ = entries.remove(index);
        let _ = blockers.remove(index);
    }
}

// Removes the entries of all short claims, and their blockers.
fn keep_long<A: Allocator>(
    entries: &mut Vec<KeptEntry<A>, A>,
    blockers: &mut Vec<Option<ClaimId>, A>,
)
    requires { vec_len blockers.old ≡ vec_len entries.old }
    ensures done { entries.new.items ≡ long_entries entries.old.items }
    ensures beside { (old : Entry → Option ClaimId) → blockers.old.items ≡ map old entries.old.items
        → blockers.new.items ≡ map old entries.new.items }
{
    let mut index = entries.len();
    while index > 0 {
        index -= 1;
        remove_short(entries, blockers, index);
    }
}

// Removes all short claims from the line.
fn take_short_away<A: Allocator>(
    entries: &mut Vec<KeptEntry<A>, A>,
    blockers: &mut Vec<Option<ClaimId>, A>,
    queues: &mut Vec<PlaceQueue<A>, A>,
)
    requires table { IsTable entries.old.items }
    requires queues { AreQueues entries.old.items queues.old.items }
    requires blockers { blockers.old.items ≡ blockers_of entries.old.items }
    ensures done { entries.new.items ≡ long_entries entries.old.items }
    ensures table { IsTable entries.new.items }
    ensures queues { AreQueues entries.new.items queues.new.items }
    ensures blockers { blockers.new.items ≡ blockers_of entries.new.items }
{
    take_short_out(queues);
    keep_long(entries, blockers);
    weigh_again(entries, blockers, queues, Again::BehindShort, 0);
}

fn put_first<A: Allocator + Copy>(
    entries: &mut Vec<KeptEntry<A>, A>,
    blockers: &mut Vec<Option<ClaimId>, A>,
    queues: &mut Vec<PlaceQueue<A>, A>,
    id: ClaimId,
    locks: LockSet,
    again: Again,
) -> Result<(), NoMemory>
    requires table { IsTable entries.old.items }
    requires queues { AreQueues entries.old.items queues.old.items }
    requires blockers { blockers.old.items ≡ blockers_of entries.old.items }
    requires there { is_some (entry_of entries.old.items id) ≡ true }
    requires enough { All (λ (e : Entry). is_taken again (waits_behind entries.old.items id locks e) ≡ false
        → waits_behind entries.old.items id locks e ≡ blocker_at (put_first entries.old.items id locks) e)
        (entries_without entries.old.items id) }
    ensures done { OnOk result (entries.new.items ≡ put_first entries.old.items id locks) }
    ensures table { IsTable entries.new.items }
    ensures queues { AreQueues entries.new.items queues.new.items }
    ensures blockers { blockers.new.items ≡ blockers_of entries.new.items }
    ensures unchanged { OnErr result (entries.new.items ≡ entries.old.items) }
{
    let index = index_of(entries, id).unwrap();
    let kept = KeptEntry::new(*entries.allocator(), id, &locks)?;
    reserve(queues, &locks)?;
    leave(entries, blockers, queues, index);
    queues::put_first(queues, id, &locks);
    move_first(entries, index, kept);
    move_first(blockers, index, None);
    wait_behind(entries, blockers, queues, id, &locks);
    weigh_again(entries, blockers, queues, again, 0);
    Ok(())
}

impl<A: Allocator + Copy> Table<A> {
    /// A copy of the table, in memory from its own allocator: as much as the entries fill.
    pub fn copy(&self) -> Result<Table<A>, NoMemory>
        ensures { IfOk result (λ copy. copy ≡ self.now) }
    {
        let alloc = *self.entries.allocator();
        let entries = Vec::from_clones(alloc, &self.entries)?;
        let blockers = Vec::from_slice(alloc, &self.blockers)?;
        let mut queues = Vec::new(alloc);
        for index in 0..entries.len() {
            let entry = &entries[index];
            let locks = entry.locks();
            reserve(&mut queues, locks)?;
            let is_held = admit(&queues, locks);
            put_last(&mut queues, entry.id(), locks, is_held);
        }
        Ok(Table {
            entries,
            blockers,
            queues,
        })
    }

    /// An empty table.
    pub fn new(alloc: A) -> Result<Table<A>, NoMemory>
        ensures { IfOk result (λ table. table ≡ []) }
    {
        Ok(Table {
            entries: Vec::new(alloc),
            blockers: Vec::new(alloc),
            queues: Vec::new(alloc),
        })
    }

    /// Whether the table has as many claims as it may have.
    pub fn is_full(&self) -> bool
        ensures { result ≡ nat_le most_claims (length self.now) }
    {
        self.entries.len() >= MAX_CLAIMS
    }

    /// Puts a new claim last, and returns its standing.
    ///
    /// It asks the group of each of its places, and searches the queues of the places that refuse.
    pub fn ask(&mut self, id: ClaimId, locks: LockSet) -> Result<Standing, NoMemory>
        requires new { standing_in self.old id ≡ None }
        requires room { length self.old < most_claims }
        ensures standing { IfOk result (λ standing. standing ≡ standing_by (first_in_way self.old locks)) }
        ensures asked { OnOk result (self.new ≡ self.old ++ record { id = id; locks = locks } ∷ []) }
        ensures unchanged { OnErr result (self.new ≡ self.old) }
    {
        let kept = KeptEntry::new(*self.entries.allocator(), id, &locks)?;
        self.entries.reserve(1)?;
        self.blockers.reserve(1)?;
        reserve(&mut self.queues, &locks)?;
        let blocker = first_behind(&self.entries, &self.queues, &locks);
        put_last(&mut self.queues, id, &locks, blocker.is_none());
        self.entries.push(kept).unwrap();
        self.blockers.push(blocker).unwrap();
        Ok(standing_by(blocker))
    }

    /// Replaces a granted claim's lock set, and moves the claim to the front of the line, if no other
    /// granted claim is in the way.
    ///
    /// It asks the group of the granted claims at each of the new places, and searches the queues of the
    /// places that refuse. After the move, each claim that waits at one of these places with a conflicting
    /// mode waits for the moved one. The call looks each of these up in the line. Then it walks the line
    /// once, and weighs again these and the claims that waited for the moved one before, and no others.
    pub fn extend(&mut self, id: ClaimId, locks: LockSet) -> Result<Extension, NoMemory>
        requires held { standing_in self.old id ≡ Some Standing.Held }
        ensures answer { IfOk result (λ extension. extension ≡ extension_by (held_in_way self.old id locks)) }
        ensures extended { OnOk result (self.new ≡ extended_by (held_in_way self.old id locks) self.old id locks) }

        // It runs out of memory only where nothing is in the way.
        ensures memory { OnErr result (held_in_way self.old id locks ≡ None) }
        ensures unchanged { OnErr result (self.new ≡ self.old) }
    {
        if let Some(other) = self.other_in_way(id, &locks) {
            return Ok(Extension::InTheWay(other));
        }
        let entries = &mut self.entries;
        let blockers = &mut self.blockers;
        let again = Again::Behind(id);
        put_first(entries, blockers, &mut self.queues, id, locks, again)?;
        Ok(Extension::Done)
    }

    /// Replaces a claim's lock set, and moves the claim to the front of the line, without a check: it
    /// replays an extension that a journal records as granted.
    pub fn put_first(&mut self, id: ClaimId, locks: LockSet) -> Result<(), NoMemory>
        requires there { is_some (entry_of self.old id) ≡ true }
        ensures put { OnOk result (self.new ≡ put_first self.old id locks) }
        ensures unchanged { OnErr result (self.new ≡ self.old) }
    {
        let entries = &mut self.entries;
        let blockers = &mut self.blockers;
        let queues = &mut self.queues;
        put_first(entries, blockers, queues, id, locks, Again::Everyone)?;
        Ok(())
    }
}

impl<A: Allocator> Table<A> {
    /// Does nothing. Its contract states the invariant of every table, for a proof that needs it.
    pub fn see_whole(&self)
        ensures { IsTable self.now }
    {
        let _ = &self.entries;
    }

    /// Removes a claim from the table. If there is none of this id, nothing changes.
    ///
    /// It searches the queues of the claim's places, each from its end. Then it walks the line behind the
    /// claim, and weighs again the claims that waited for it.
    pub fn release(&mut self, id: ClaimId)
        ensures { self.new ≡ entries_without self.old id }
    {
        let Some(index) = index_of(&self.entries, id) else {
            return;
        };
        let entries = &mut self.entries;
        take_away(entries, &mut self.blockers, &mut self.queues, id, index);
    }

    /// Removes all short claims from the table, as a restart does.
    ///
    /// It walks the queues of all places once, then the line, and weighs again the claims that waited for
    /// a short claim.
    pub fn release_short(&mut self)
        ensures { self.new ≡ long_entries self.old }
    {
        take_short_away(&mut self.entries, &mut self.blockers, &mut self.queues);
    }

    // The blocker kept for a claim, if the claim is there.
    fn beside(&self, id: ClaimId) -> Option<Option<ClaimId>>
        ensures { result ≡ option_map (λ (e : Entry). first_in_way (entries_before self.now id) e.locks) (entry_of self.now id) }
    {
        let index = index_of(&self.entries, id)?;
        Some(self.blockers[index])
    }

    /// A claim's standing, if it is there. It searches the line once.
    pub fn standing(&self, id: ClaimId) -> Option<Standing>
        ensures standing { result ≡ standing_in self.now id }
        ensures table { IsTable self.now }
    {
        self.see_whole();
        let blocker = self.beside(id)?;
        Some(standing_by(blocker))
    }

    /// The standing of the claim at a position.
    pub fn standing_at(&self, position: usize) -> Option<Standing>
        ensures { result ≡ option_map standing_by (slice_get (blockers_of self.now) position) }
    {
        let blocker = *self.blockers.get(position)?;
        Some(standing_by(blocker))
    }

    /// The claim that a claim waits for.
    pub fn blocker(&self, id: ClaimId) -> Option<ClaimId>
        ensures { result ≡ blocker_in self.now id }
    {
        self.beside(id)?
    }

    // The first other granted claim in the way of these locks, which are to replace this claim's own.
    fn other_in_way(&self, id: ClaimId, locks: &LockSet) -> Option<ClaimId>
        requires { standing_in self.now id ≡ Some Standing.Held }
        ensures { result ≡ held_in_way self.now id locks.now }
    {
        let index = index_of(&self.entries, id).unwrap();
        let own = self.entries[index].locks();
        let first = held_in_way(&self.entries, &self.queues, id, own, locks);
        id_at(&self.entries, first)
    }

    /// The first granted claim that covers a place: it has S, SIX or X there, or at a place above.
    pub fn held_over<B: Allocator>(&self, tree: &Tree<B>, place: PlaceId) -> Option<ClaimId>
        requires { place ≤ length tree.now }
        ensures { result ≡ held_over_in tree.now self.now place }
    {
        let entries = self.entries.as_slice();
        let queues = self.queues.as_slice();
        let mut first = position_of(entries, cover_at(queues, place));
        let mut at = place;
        while let Some(parent) = tree.parent(at) {
            first = earlier_of(entries, first, cover_at(queues, parent));
            at = parent;
        }
        id_at(entries, first)
    }

    /// The group of all claims at a place.
    pub fn group_at(&self, place: PlaceId) -> Group
        ensures { result ≡ group_in self.now place }
    {
        group_at(&self.queues, place)
    }

    /// The group of the granted claims at a place.
    pub fn held_at(&self, place: PlaceId) -> Group
        ensures { result ≡ held_group_in self.now place }
    {
        held_at(&self.queues, place)
    }
}
