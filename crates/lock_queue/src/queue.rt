//! The queue of one place, with counts of its modes.
ghost use Rattle.std.specs.Prelude.{◌≡◌, suc, ◌+◌, ◌<◌, ◌≤◌, [], ◌∷◌, ◌++◌, true, false, length, position, vec_capacity, OnOk, OnErr};
ghost use Rattle.vault_state.specs.Claims.{same_id, is_short};
ghost use Rattle.vault_state.specs.Limits.{most_claims};
ghost use Rattle.lock_modes.specs.Groups.{group_of, with_one, size, count_of};
ghost use Rattle.lock_queue.specs.declared.queue.Request.{Request};
ghost use Rattle.lock_queue.specs.Queue.{AreCounted, request_modes, held_requests, long_requests, first_of, with_own, HasOwn, IsOwn, HasRequest, requests_without, restood, is_in_way, is_held_in_way, is_cover};

use lock_modes::{Group, Mode};
use std::alloc::{AllocError, Allocator, Global};
use std::marker::Model;
use vault_state::ClaimId;

/// A claim's lock request in the queue of one place: its mode there, and whether it is granted (held).
#[derive(Clone, Copy, Debug, PartialEq, Eq)]
pub struct Request {
    pub id: ClaimId,
    pub mode: Mode,
    pub is_held: bool,
}

/// The requests at one place in line order, with the group of all and the group of the granted ones.
#[derive(Drop)]
pub struct PlaceQueue<A: Allocator = Global> {
    queue: Vec<Request, A>,
    all: Group,
    held: Group,
}

impl<A: Allocator> Model for PlaceQueue<A> {
    ghost use Rattle.std.specs.Prelude.{vec_capacity};
    ghost use Rattle.lock_queue.specs.Queue.{QueueSeen, AreCounted};

    ghost Value = { QueueSeen };

    ghost view = { λ c. record { requests = c.queue.items; room = vec_capacity c.queue } };

    // The invariant of lib.rt.
    ghost invariant = { λ c. AreCounted c.queue.items c.all c.held };
}

/// Whether two ids are the same.
pub fn is_same(id: ClaimId, other: ClaimId) -> bool
    ensures { result ≡ same_id id other }
{
    match (id, other) {
        (ClaimId::Long(m), ClaimId::Long(n)) => m == n,
        (ClaimId::Short(m), ClaimId::Short(n)) => m == n,
        (ClaimId::Long(_), ClaimId::Short(_)) => false,
        (ClaimId::Short(_), ClaimId::Long(_)) => false,
    }
}

/// Whether this is the id of a short claim.
pub fn is_short(id: ClaimId) -> bool
    ensures { result ≡ is_short id }
{
    match id {
        ClaimId::Long(_) => false,
        ClaimId::Short(_) => true,
    }
}

// The group of all these requests, and the group of the granted ones.
fn groups_of(requests: &[Request]) -> (Group, Group)
    requires { length requests.now ≤ most_claims }
    ensures { AreCounted requests.now result.0 result.1 }
{
    let mut all = Group::empty();
    let mut held = Group::empty();
    for request in requests {
        all.add(request.mode);
        if request.is_held {
            held.add(request.mode);
        }
    }
    (all, held)
}

// The group with one member of this mode removed; the group itself if there is no mode.
fn without(group: Group, own: Option<Mode>) -> Group
    requires { HasOwn own group }
    ensures { group ≡ with_own own result }
{
    let mut others = group;
    match own {
        None => others,
        Some(mode) => {
            others.remove(mode);
            others
        }
    }
}

// The group with one more member of this mode, or with one fewer.
fn changed(group: Group, mode: Mode, is_more: bool) -> Group
    requires more { is_more ≡ true → size group < most_claims }
    requires less { is_more ≡ false → 0 < count_of group mode }
    ensures more { is_more ≡ true → result ≡ with_one group mode }
    ensures less { is_more ≡ false → group ≡ with_one result mode }
{
    let mut group = group;
    if is_more {
        group.add(mode);
        return group;
    }
    group.remove(mode);
    group
}

fn index_of(requests: &[Request], id: ClaimId) -> Option<usize>
    ensures { result ≡ position (λ (s : Request). same_id s.id id) requests.now }
{
    requests.iter().position(|request| is_same(request.id, id))
}

// The index of a claim's only request. The search begins at the end, since claims that end together
// leave from the last to the first.
fn index_from_end(requests: &[Request], id: ClaimId) -> Option<usize>
    requires one { length requests.now ≡ suc (length (requests_without id requests.now)) }
    ensures { result ≡ position (λ (s : Request). same_id s.id id) requests.now }
{
    let mut index = requests.len();
    while index > 0 {
        index -= 1;
        if is_same(requests[index].id, id) {
            return Some(index);
        }
    }
    None
}

impl<A: Allocator> PlaceQueue<A> {
    /// An empty queue.
    pub fn new(alloc: A) -> PlaceQueue<A>
        ensures { result.requests ≡ [] }
    {
        PlaceQueue {
            queue: Vec::new(alloc),
            all: Group::empty(),
            held: Group::empty(),
        }
    }

    /// Makes room for one more request.
    pub fn reserve(&mut self) -> Result<(), AllocError>
        ensures requests { self.new.requests ≡ self.old.requests }
        ensures room { OnOk result (length self.new.requests < self.new.room) }
        ensures more { self.old.room ≤ self.new.room }
    {
        self.queue.reserve(1)
    }

    /// Puts a request last.
    pub fn put_last(&mut self, request: Request)
        requires room { length self.old.requests < self.old.room }
        requires few { length self.old.requests < most_claims }
        ensures requests { self.new.requests ≡ self.old.requests ++ request ∷ [] }
        ensures room { self.old.room ≤ self.new.room }
    {
        self.all.add(request.mode);
        if request.is_held {
            self.held.add(request.mode);
        }
        self.queue.push(request).unwrap();
    }

    /// Puts a request first.
    pub fn put_first(&mut self, request: Request)
        requires room { length self.old.requests < self.old.room }
        requires few { length self.old.requests < most_claims }
        ensures requests { self.new.requests ≡ request ∷ self.old.requests }
        ensures room { self.old.room ≤ self.new.room }
    {
        self.all.add(request.mode);
        if request.is_held {
            self.held.add(request.mode);
        }
        self.queue.insert(0, request).unwrap();
    }

    /// Removes a claim's request. The caller knows its mode and its standing.
    pub fn take_out(&mut self, id: ClaimId, mode: Mode, is_held: bool)
        requires { HasRequest id mode is_held self.old.requests }
        ensures { self.new ≡ record self.old { requests = requests_without id self.old.requests } }
    {
        self.all.remove(mode);
        self.held = without(self.held, is_held.then_some(mode));
        let index = index_from_end(&self.queue, id).unwrap();
        let _ = self.queue.remove(index);
    }

    /// Removes the requests of all short claims.
    pub fn take_short_out(&mut self)
        requires { length self.old.requests ≤ most_claims }
        ensures requests { self.new.requests ≡ long_requests self.old.requests }
        ensures room { self.new.room ≡ self.old.room }
    {
        self.queue.retain(|request| !is_short(request.id));
        let (all, held) = groups_of(&self.queue);
        self.all = all;
        self.held = held;
    }

    /// Makes a claim's request granted or waiting, where it has one.
    pub fn stand(&mut self, id: ClaimId, is_held: bool)
        requires { length self.old.requests ≤ most_claims }
        ensures { self.new ≡ record self.old { requests = restood id is_held self.old.requests } }
    {
        let Some(index) = index_of(&self.queue, id) else {
            return;
        };
        let request = self.queue[index];
        if request.is_held == is_held {
            return;
        }
        self.held = changed(self.held, request.mode, is_held);
        self.queue[index] = Request { is_held, ..request };
    }

    /// The requests.
    pub fn requests(&self) -> &[Request]
        ensures { result.now ≡ self.now.requests }
    {
        &self.queue
    }

    /// The group of all requests.
    pub fn all(&self) -> Group
        ensures { result ≡ group_of (request_modes self.now.requests) }
    {
        self.all
    }

    /// The group of the granted requests.
    pub fn held(&self) -> Group
        ensures { result ≡ group_of (request_modes (held_requests self.now.requests)) }
    {
        self.held
    }

    /// The claim of the first request that is incompatible with this mode. The group is asked first.
    pub fn in_way(&self, mode: Mode) -> Option<ClaimId>
        ensures { result ≡ first_of (is_in_way mode) self.now.requests }
    {
        if self.all.admits(mode) {
            return None;
        }
        let request = self
            .queue
            .iter()
            .find(|request| !mode.compatible(request.mode))?;
        Some(request.id)
    }

    /// The claim of the first granted request that is another claim's and incompatible with this mode.
    /// The group of the granted requests, without this claim's own, is asked first.
    pub fn held_in_way(&self, id: ClaimId, own: Option<Mode>, mode: Mode) -> Option<ClaimId>
        requires { IsOwn id own self.now.requests }
        ensures { result ≡ first_of (is_held_in_way id mode) self.now.requests }
    {
        if without(self.held, own).admits(mode) {
            return None;
        }
        let request = self.queue.iter().find(|request| {
            !is_same(request.id, id) && !mode.compatible(request.mode) && request.is_held
        })?;
        Some(request.id)
    }

    /// The claim of the first granted request that covers the place. The group is asked first.
    pub fn cover(&self) -> Option<ClaimId>
        ensures { result ≡ first_of is_cover self.now.requests }
    {
        if self.held.admits(Mode::IX) {
            return None;
        }
        let request = self.queue.iter().find(|request| {
            request.mode.at_least(Mode::S) && request.is_held
        })?;
        Some(request.id)
    }
}
