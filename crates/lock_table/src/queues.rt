//! The queues of all places.
ghost use Rattle.std.specs.Prelude.{◌≡◌, ◌≢◌, ℕ, ◌+◌, ◌<◌, ◌≤◌, [], ◌∷◌, ◌++◌, true, Some, length, take, position, slice_get, vec_len, is_none, IfOk, OnOk, OnErr};
ghost use Rattle.std.specs.List.{list_all};
ghost use Rattle.vault_state.specs.Claims.{same_id};
ghost use Rattle.vault_state.specs.Limits.{most_claims};
ghost use Rattle.lock_modes.specs.declared.mode.Mode.{Mode};
ghost use Rattle.lock_table.specs.declared.entry.Entry.{Entry};
ghost use Rattle.lock_modes.specs.Modes.{compatible};
ghost use Rattle.lock_modes.specs.Groups.{group_of, members};
ghost use Rattle.lock_table.specs.Locks.{mode_at, AreApart};
ghost use Rattle.lock_queue.specs.Queue.{request_modes, held_requests, first_of, is_in_way, is_held_in_way, is_cover, IsOwn, HasRequest, requests_without, long_requests, restood, by_lock};
ghost use Rattle.lock_table.specs.Queues.{requests_at, room_at, HaveRoom, request_of, earlier, position_of, request_in_way, held_request_in_way};

use crate::entry::KeptEntry;
use crate::{Lock, LockSet};
use lock_modes::{Group, Mode};
use lock_queue::{PlaceQueue, Request, is_same};
use std::alloc::{AllocError, Allocator};
use vault_state::{ClaimId, PlaceId};

/// The group of all claims at a place.
pub(crate) fn group_at<A: Allocator>(queues: &[PlaceQueue<A>], place: PlaceId) -> Group
    ensures { result ≡ group_of (request_modes (requests_at queues.now place)) }
{
    match queues.get(place.number() as usize) {
        Some(queue) => queue.all(),
        None => Group::empty(),
    }
}

/// The group of the granted claims at a place.
pub(crate) fn held_at<A: Allocator>(queues: &[PlaceQueue<A>], place: PlaceId) -> Group
    ensures { result ≡ group_of (request_modes (held_requests (requests_at queues.now place))) }
{
    match queues.get(place.number() as usize) {
        Some(queue) => queue.held(),
        None => Group::empty(),
    }
}

/// A claim's position in the line.
pub(crate) fn index_of<A: Allocator>(entries: &[KeptEntry<A>], id: ClaimId) -> Option<usize>
    ensures { result ≡ position (λ (e : Entry). same_id e.id id) entries.now }
{
    entries.iter().position(|entry| is_same(entry.id(), id))
}

/// The same, if there is an id.
pub(crate) fn position_of<A: Allocator>(
    entries: &[KeptEntry<A>],
    id: Option<ClaimId>,
) -> Option<usize>
    ensures { result ≡ position_of entries.now id }
{
    index_of(entries, id?)
}

// The entries before a position.
fn before<A: Allocator>(entries: &[KeptEntry<A>], position: usize) -> &[KeptEntry<A>]
    ensures { result.now ≡ take position entries.now }
{
    if position < entries.len() {
        &entries[..position]
    } else {
        entries
    }
}

/// The earlier of a position and a claim's position. It searches only the line before the given position.
pub(crate) fn earlier_of<A: Allocator>(
    entries: &[KeptEntry<A>],
    first: Option<usize>,
    id: Option<ClaimId>,
) -> Option<usize>
    ensures { result ≡ earlier first (position_of entries.now id) }
{
    let Some(id) = id else {
        return first;
    };
    match first {
        None => index_of(entries, id),
        Some(most) => index_of(before(entries, most), id).or(first),
    }
}

/// The claim of the first request at a lock's place that is in the lock's way.
pub(crate) fn in_way_at<A: Allocator>(queues: &[PlaceQueue<A>], lock: Lock) -> Option<ClaimId>
    ensures { result ≡ first_of (is_in_way lock.mode) (requests_at queues.now lock.place) }
{
    match queues.get(lock.place.number() as usize) {
        Some(queue) => queue.in_way(lock.mode),
        None => None,
    }
}

/// The requests at a place.
pub(crate) fn queue_at<A: Allocator>(queues: &[PlaceQueue<A>], place: PlaceId) -> &[Request]
    ensures { result.now ≡ requests_at queues.now place }
{
    match queues.get(place.number() as usize) {
        Some(queue) => queue.requests(),
        None => &[],
    }
}

fn held_in_way_at<A: Allocator>(
    queues: &[PlaceQueue<A>],
    id: ClaimId,
    own: Option<Mode>,
    lock: Lock,
) -> Option<ClaimId>
    requires { IsOwn id own (requests_at queues.now lock.place) }
    ensures { result ≡ first_of (is_held_in_way id lock.mode) (requests_at queues.now lock.place) }
{
    match queues.get(lock.place.number() as usize) {
        Some(queue) => queue.held_in_way(id, own, lock.mode),
        None => None,
    }
}

/// The first granted claim that covers a place by its mode at that very place.
pub(crate) fn cover_at<A: Allocator>(queues: &[PlaceQueue<A>], place: PlaceId) -> Option<ClaimId>
    ensures { result ≡ first_of is_cover (requests_at queues.now place) }
{
    match queues.get(place.number() as usize) {
        Some(queue) => queue.cover(),
        None => None,
    }
}

/// Whether, at each lock's place, the group of all claims admits the lock's mode.
pub(crate) fn admit<A: Allocator>(queues: &[PlaceQueue<A>], locks: &LockSet) -> bool
    ensures { result ≡ list_all
        (λ lock. list_all (λ member. compatible member lock.mode)
        (members (group_of (request_modes (requests_at queues.now lock.place))))) locks.now }
{
    locks
        .as_slice()
        .iter()
        .all(|lock| group_at(queues, lock.place).admits(lock.mode))
}

/// The position of the first claim in the way of these locks.
pub(crate) fn in_way<A: Allocator>(
    entries: &[KeptEntry<A>],
    queues: &[PlaceQueue<A>],
    locks: &LockSet,
) -> Option<usize>
    ensures { result ≡ request_in_way entries.now queues.now locks.now }
{
    let mut first = None;
    for lock in locks.as_slice() {
        first = earlier_of(entries, first, in_way_at(queues, *lock));
    }
    first
}

/// The position of the first other granted claim in the way of these locks, which are to replace this
/// claim's own.
pub(crate) fn held_in_way<A: Allocator>(
    entries: &[KeptEntry<A>],
    queues: &[PlaceQueue<A>],
    id: ClaimId,
    own: &LockSet,
    locks: &LockSet,
) -> Option<usize>
    requires { (p : ℕ) → IsOwn id (mode_at own.now p) (requests_at queues.now p) }
    ensures { result ≡ held_request_in_way entries.now queues.now id locks.now }
{
    let mut first = None;
    for lock in locks.as_slice() {
        let other = held_in_way_at(queues, id, own.mode_at(lock.place), *lock);
        first = earlier_of(entries, first, other);
    }
    first
}

// Appends empty queues until this place has one.
fn grow<A: Allocator + Copy>(
    queues: &mut Vec<PlaceQueue<A>, A>,
    place: PlaceId,
) -> Result<(), AllocError>
    ensures there { OnOk result (place < vec_len queues.new) }
    ensures requests { (p : ℕ) → requests_at queues.new.items p ≡ requests_at queues.old.items p }
    ensures room { (p : ℕ) → room_at queues.old.items p ≤ room_at queues.new.items p }
{
    let alloc = *queues.allocator();
    let index = place.number() as usize;
    if index < queues.len() {
        return Ok(());
    }
    queues.reserve(index + 1 - queues.len())?;
    while queues.len() <= index {
        queues.push(PlaceQueue::new(alloc)).unwrap();
    }
    Ok(())
}

/// Makes room for one more request at the place of each lock.
pub(crate) fn reserve<A: Allocator + Copy>(
    queues: &mut Vec<PlaceQueue<A>, A>,
    locks: &LockSet,
) -> Result<(), AllocError>
    ensures there { OnOk result (HaveRoom queues.new.items locks.now) }
    ensures apart { AreApart locks.now }
    ensures requests { (p : ℕ) → requests_at queues.new.items p ≡ requests_at queues.old.items p }
    ensures room { (p : ℕ) → room_at queues.old.items p ≤ room_at queues.new.items p }
{
    for lock in locks.as_slice() {
        grow(queues, lock.place)?;
        queues[lock.place.number() as usize].reserve()?;
    }
    Ok(())
}

fn put_last_at<A: Allocator>(
    queues: &mut Vec<PlaceQueue<A>, A>,
    id: ClaimId,
    lock: Lock,
    is_held: bool,
)
    requires room { length (requests_at queues.old.items lock.place) < room_at queues.old.items lock.place }
    requires few { length (requests_at queues.old.items lock.place) < most_claims }
    ensures here { requests_at queues.new.items lock.place ≡ requests_at queues.old.items lock.place
        ++ record { id = id; mode = lock.mode; is_held = is_held } ∷ [] }
    ensures elsewhere { (p : ℕ) → p ≢ lock.place → requests_at queues.new.items p ≡ requests_at queues.old.items p }
    ensures room { (p : ℕ) → room_at queues.old.items p ≤ room_at queues.new.items p }
{
    queues[lock.place.number() as usize].put_last(Request {
        id,
        mode: lock.mode,
        is_held,
    });
}

/// Puts a claim last at the place of each of its locks.
pub(crate) fn put_last<A: Allocator>(
    queues: &mut Vec<PlaceQueue<A>, A>,
    id: ClaimId,
    locks: &LockSet,
    is_held: bool,
)
    requires room { HaveRoom queues.old.items locks.now }
    requires few { (p : ℕ) → length (requests_at queues.old.items p) < most_claims }
    ensures requests { (p : ℕ) → requests_at queues.new.items p ≡ requests_at queues.old.items p ++ request_of is_held id (mode_at locks.now p) }
    ensures room { (p : ℕ) → room_at queues.old.items p ≤ room_at queues.new.items p }
{
    for lock in locks.as_slice() {
        put_last_at(queues, id, *lock, is_held);
    }
}

fn put_first_at<A: Allocator>(queues: &mut Vec<PlaceQueue<A>, A>, id: ClaimId, lock: Lock)
    requires room { length (requests_at queues.old.items lock.place) < room_at queues.old.items lock.place }
    requires few { length (requests_at queues.old.items lock.place) < most_claims }
    ensures here { requests_at queues.new.items lock.place ≡ record { id = id; mode = lock.mode; is_held = true }
        ∷ requests_at queues.old.items lock.place }
    ensures elsewhere { (p : ℕ) → p ≢ lock.place → requests_at queues.new.items p ≡ requests_at queues.old.items p }
    ensures room { (p : ℕ) → room_at queues.old.items p ≤ room_at queues.new.items p }
{
    queues[lock.place.number() as usize].put_first(Request {
        id,
        mode: lock.mode,
        is_held: true,
    });
}

/// Puts a claim first, and granted, at the place of each of its locks.
pub(crate) fn put_first<A: Allocator>(
    queues: &mut Vec<PlaceQueue<A>, A>,
    id: ClaimId,
    locks: &LockSet,
)
    requires room { HaveRoom queues.old.items locks.now }
    requires few { (p : ℕ) → length (requests_at queues.old.items p) < most_claims }
    ensures requests { (p : ℕ) → requests_at queues.new.items p ≡ request_of true id (mode_at locks.now p) ++ requests_at queues.old.items p }
    ensures room { (p : ℕ) → room_at queues.old.items p ≤ room_at queues.new.items p }
{
    for lock in locks.as_slice() {
        put_first_at(queues, id, *lock);
    }
}

fn take_out_at<A: Allocator>(
    queues: &mut Vec<PlaceQueue<A>, A>,
    id: ClaimId,
    lock: Lock,
    is_held: bool,
)
    requires { HasRequest id lock.mode is_held (requests_at queues.old.items lock.place) }
    ensures here { requests_at queues.new.items lock.place ≡ requests_without id (requests_at queues.old.items lock.place) }
    ensures elsewhere { (p : ℕ) → p ≢ lock.place → requests_at queues.new.items p ≡ requests_at queues.old.items p }
    ensures room { (p : ℕ) → room_at queues.old.items p ≤ room_at queues.new.items p }
{
    let index = lock.place.number() as usize;
    if index >= queues.len() {
        return;
    }
    queues[index].take_out(id, lock.mode, is_held);
}

/// Removes a claim's requests. The caller knows its locks and its standing.
pub(crate) fn take_out<A: Allocator>(
    queues: &mut Vec<PlaceQueue<A>, A>,
    id: ClaimId,
    locks: &LockSet,
    is_held: bool,
)
    requires { (p : ℕ) (m : Mode) → mode_at locks.now p ≡ Some m → HasRequest id m is_held (requests_at queues.old.items p) }
    ensures requests { (p : ℕ) → requests_at queues.new.items p
        ≡ by_lock (λ m. requests_without id) (mode_at locks.now p) (requests_at queues.old.items p) }
    ensures room { (p : ℕ) → room_at queues.old.items p ≤ room_at queues.new.items p }
{
    for lock in locks.as_slice() {
        take_out_at(queues, id, *lock, is_held);
    }
}

fn take_short_out_at<A: Allocator>(queues: &mut Vec<PlaceQueue<A>, A>, index: usize)
    requires few { length (requests_at queues.old.items index) ≤ most_claims }
    ensures here { requests_at queues.new.items index ≡ long_requests (requests_at queues.old.items index) }
    ensures elsewhere { (p : ℕ) → p ≢ index → requests_at queues.new.items p ≡ requests_at queues.old.items p }
    ensures room { (p : ℕ) → room_at queues.old.items p ≤ room_at queues.new.items p }
    ensures many { vec_len queues.new ≡ vec_len queues.old }
{
    if index >= queues.len() {
        return;
    }
    queues[index].take_short_out();
}

/// Removes the requests of all short claims, place by place.
pub(crate) fn take_short_out<A: Allocator>(queues: &mut Vec<PlaceQueue<A>, A>)
    requires { (p : ℕ) → length (requests_at queues.old.items p) ≤ most_claims }
    ensures requests { (p : ℕ) → requests_at queues.new.items p ≡ long_requests (requests_at queues.old.items p) }
    ensures room { (p : ℕ) → room_at queues.old.items p ≤ room_at queues.new.items p }
{
    for index in 0..queues.len() {
        take_short_out_at(queues, index);
    }
}

fn stand_at<A: Allocator>(
    queues: &mut Vec<PlaceQueue<A>, A>,
    id: ClaimId,
    place: PlaceId,
    is_held: bool,
)
    requires { length (requests_at queues.old.items place) ≤ most_claims }
    ensures here { requests_at queues.new.items place ≡ restood id is_held (requests_at queues.old.items place) }
    ensures elsewhere { (p : ℕ) → p ≢ place → requests_at queues.new.items p ≡ requests_at queues.old.items p }
    ensures room { (p : ℕ) → room_at queues.old.items p ≤ room_at queues.new.items p }
{
    let index = place.number() as usize;
    if index >= queues.len() {
        return;
    }
    queues[index].stand(id, is_held);
}

/// Makes a claim granted, or waiting, at the place of each of its locks.
pub(crate) fn stand<A: Allocator>(
    queues: &mut Vec<PlaceQueue<A>, A>,
    id: ClaimId,
    locks: &LockSet,
    is_held: bool,
)
    requires { (p : ℕ) → length (requests_at queues.old.items p) ≤ most_claims }
    ensures requests { (p : ℕ) → requests_at queues.new.items p ≡ by_lock (λ m. restood id is_held) (mode_at locks.now p)
        (requests_at queues.old.items p) }
    ensures room { (p : ℕ) → room_at queues.old.items p ≤ room_at queues.new.items p }
{
    for lock in locks.as_slice() {
        stand_at(queues, id, lock.place, is_held);
    }
}
