//! What each claim of a table waits for (its blocker). It is weighed again (its blocker is found
//! anew) where others came or left.
ghost use Rattle.std.specs.Prelude.{◌≡◌, ℕ, ◌+◌, ◌<◌, ◌≤◌, ◌==◌, Bool, length, map, is_none, position, slice_get, take, set, Option, None, Some};
ghost use Rattle.std.specs.List.{IsDistinct};
ghost use Rattle.std.specs.Option.{option_map, option_and_then};
ghost use Rattle.vault_state.specs.Claims.{same_id};
ghost use Rattle.lock_queue.specs.declared.queue.Request.{Request};
ghost use Rattle.lock_table.specs.declared.entry.Entry.{Entry};
ghost use Rattle.lock_table.specs.Queues.{HaveRequests, IsWeighing, IsHeldAs, held_by, is_taken, blockers_of, requests_at, room_at, requests_by, queue_of, is_queued_at, is_queued_in, is_queued_against, waits_where};
ghost use Rattle.lock_table.specs.Tables.{IsTable, first_in_way};

use crate::again::Again;
use crate::entry::KeptEntry;
use crate::queues::{admit, in_way, in_way_at, index_of, queue_at, stand};
use crate::{Lock, LockSet};
use lock_modes::Mode;
use lock_queue::{PlaceQueue, Request};
use std::alloc::Allocator;
use vault_state::ClaimId;

/// The id of the claim at a position, if there is one.
pub(crate) fn id_at<A: Allocator>(entries: &[KeptEntry<A>], index: Option<usize>) -> Option<ClaimId>
    ensures { result ≡ option_and_then (λ i. option_map (λ (e : Entry). e.id) (slice_get entries.now i)) index }
{
    let entry = entries.get(index?)?;
    Some(entry.id())
}

/// The claim that a newcomer waits for. The groups are asked first.
pub(crate) fn first_behind<A: Allocator>(
    entries: &[KeptEntry<A>],
    queues: &[PlaceQueue<A>],
    locks: &LockSet,
) -> Option<ClaimId>
    requires distinct { IsDistinct same_id (map (λ (e : Entry). e.id) entries.now) }
    requires requested { HaveRequests entries.now queues.now }
    ensures { result ≡ first_in_way entries.now locks.now }
{
    if admit(queues, locks) {
        return None;
    }
    id_at(entries, in_way(entries, queues, locks))
}

// The claim that the one at this position waits for.
fn blocker_of<A: Allocator>(
    entries: &[KeptEntry<A>],
    queues: &[PlaceQueue<A>],
    index: usize,
) -> Option<ClaimId>
    requires there { index < length entries.now }
    requires distinct { IsDistinct same_id (map (λ (e : Entry). e.id) entries.now) }
    requires requested { HaveRequests entries.now queues.now }
    ensures { (e : Entry) → slice_get entries.now index ≡ Some e → result ≡ first_in_way (take index entries.now) e.locks }
{
    let first = in_way(entries, queues, entries[index].locks())?;
    if first < index {
        return id_at(entries, Some(first));
    }
    None
}

// Weighs the claim at a position again.
fn weigh_at<A: Allocator>(
    entries: &[KeptEntry<A>],
    blockers: &mut Vec<Option<ClaimId>, A>,
    queues: &mut Vec<PlaceQueue<A>, A>,
    index: usize,
)
    requires there { index < length entries.now }
    requires table { IsTable entries.now }
    requires many { length blockers.old.items ≡ length entries.now }
    requires requested { HaveRequests entries.now queues.old.items }
    ensures blockers { (e : Entry) → slice_get entries.now index ≡ Some e
        → blockers.new.items ≡ set blockers.old.items index (first_in_way (take index entries.now) e.locks) }
    ensures requests { (held : Entry → Bool) (e : Entry) → slice_get entries.now index ≡ Some e → IsHeldAs held e blockers.old.items index
        → ((p : ℕ) → requests_at queues.old.items p ≡ requests_by held entries.now p) →
        (p : ℕ) → requests_at queues.new.items p
        ≡ requests_by (held_by held e.id (is_none (first_in_way (take index entries.now) e.locks))) entries.now p }
    ensures room { (p : ℕ) → room_at queues.old.items p ≤ room_at queues.new.items p }
{
    let blocker = blocker_of(entries, queues, index);
    let was_held = blockers[index].is_none();
    blockers[index] = blocker;
    if blocker.is_none() == was_held {
        return;
    }
    let entry = &entries[index];
    stand(queues, entry.id(), entry.locks(), blocker.is_none());
}

// Weighs the claim at a position again, if its blocker is among those of `again`.
fn weigh_next<A: Allocator>(
    entries: &[KeptEntry<A>],
    blockers: &mut Vec<Option<ClaimId>, A>,
    queues: &mut Vec<PlaceQueue<A>, A>,
    again: Again,
    index: usize,
)
    requires there { index < length entries.now }
    requires table { IsTable entries.now }
    requires many { length blockers.old.items ≡ length entries.now }
    requires weighing { IsWeighing again entries.now blockers.old.items queues.old.items index }
    ensures weighing { IsWeighing again entries.now blockers.new.items queues.new.items (index + 1) }
    ensures many { length blockers.new.items ≡ length entries.now }
    ensures room { (p : ℕ) → room_at queues.old.items p ≤ room_at queues.new.items p }
{
    let is_taken = again.takes(blockers[index]);
    if !is_taken {
        return;
    }
    weigh_at(entries, blockers, queues, index);
}

/// The same for each claim from a position on, one after another.
pub(crate) fn weigh_again<A: Allocator>(
    entries: &[KeptEntry<A>],
    blockers: &mut Vec<Option<ClaimId>, A>,
    queues: &mut Vec<PlaceQueue<A>, A>,
    again: Again,
    from: usize,
)
    requires table { IsTable entries.now }
    requires weighing { IsWeighing again entries.now blockers.old.items queues.old.items from }
    ensures blockers { blockers.new.items ≡ blockers_of entries.now }
    ensures queues { (p : ℕ) → requests_at queues.new.items p ≡ queue_of entries.now p }
    ensures room { (p : ℕ) → room_at queues.old.items p ≤ room_at queues.new.items p }
{
    for index in from..entries.len() {
        weigh_next(entries, blockers, queues, again, index);
    }
}

// Makes a request's claim wait for the claim `id`, if the request is waiting and in the way of `mode`.
fn wait_at_request<A: Allocator>(
    entries: &[KeptEntry<A>],
    blockers: &mut Vec<Option<ClaimId>, A>,
    request: Request,
    id: ClaimId,
    mode: Mode,
)
    requires distinct { IsDistinct same_id (map (λ (e : Entry). e.id) entries.now) }
    requires many { length blockers.old.items ≡ length entries.now }
    ensures waits { (old : Entry → Option ClaimId) → blockers.old.items ≡ map old entries.now
        → blockers.new.items ≡ map (waits_where (is_queued_at mode request) id old) entries.now }
    ensures many { length blockers.new.items ≡ length entries.now }
{
    if request.is_held || mode.compatible(request.mode) {
        return;
    }
    if let Some(index) = index_of(entries, request.id) {
        blockers[index] = Some(id);
    }
}

// The same for each of some requests.
fn wait_in_queue<A: Allocator>(
    entries: &[KeptEntry<A>],
    blockers: &mut Vec<Option<ClaimId>, A>,
    requests: &[Request],
    id: ClaimId,
    mode: Mode,
)
    requires distinct { IsDistinct same_id (map (λ (e : Entry). e.id) entries.now) }
    requires many { length blockers.old.items ≡ length entries.now }
    ensures wait { (old : Entry → Option ClaimId) → blockers.old.items ≡ map old entries.now
        → blockers.new.items ≡ map (waits_where (is_queued_in mode requests.now) id old) entries.now }
    ensures many { length blockers.new.items ≡ length entries.now }
{
    for request in requests {
        wait_at_request(entries, blockers, *request, id, mode);
    }
}

// The same for each request at a lock's place. The group is asked first.
fn wait_at<A: Allocator>(
    entries: &[KeptEntry<A>],
    blockers: &mut Vec<Option<ClaimId>, A>,
    queues: &[PlaceQueue<A>],
    id: ClaimId,
    lock: Lock,
)
    requires distinct { IsDistinct same_id (map (λ (e : Entry). e.id) entries.now) }
    requires many { length blockers.old.items ≡ length entries.now }
    ensures wait { (old : Entry → Option ClaimId) → blockers.old.items ≡ map old entries.now
        → blockers.new.items ≡ map (waits_where (is_queued_in lock.mode (requests_at queues.now lock.place)) id old) entries.now }
    ensures many { length blockers.new.items ≡ length entries.now }
{
    let Lock { place, mode } = lock;
    if in_way_at(queues, lock).is_none() {
        return;
    }
    wait_in_queue(entries, blockers, queue_at(queues, place), id, mode);
}

/// Makes each waiting claim with a mode in the way of these locks wait for their claim, `id`.
pub(crate) fn wait_behind<A: Allocator>(
    entries: &[KeptEntry<A>],
    blockers: &mut Vec<Option<ClaimId>, A>,
    queues: &[PlaceQueue<A>],
    id: ClaimId,
    locks: &LockSet,
)
    requires distinct { IsDistinct same_id (map (λ (e : Entry). e.id) entries.now) }
    requires many { length blockers.old.items ≡ length entries.now }
    ensures wait { (old : Entry → Option ClaimId) → blockers.old.items ≡ map old entries.now
        → blockers.new.items ≡ map (waits_where (is_queued_against queues.now locks.now) id old) entries.now }
    ensures many { length blockers.new.items ≡ length entries.now }
{
    for lock in locks.as_slice() {
        wait_at(entries, blockers, queues, id, *lock);
    }
}
