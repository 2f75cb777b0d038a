//! One desk under one lock.
ghost use Rattle.std.specs.Prelude.{◌≡◌, ◌+◌, ◌<◌, ◌≤◌, ◌^◌, ◌↔◌, IfOk, IfErr, IsOk, All, sum_by, vec_len, false};
ghost use Rattle.group_commit.specs.View.{length_of};
ghost use Rattle.vault_desk.specs.Acts.{GoesOn};
ghost use Rattle.vault_desk.specs.Sights.{WentThrough};

use crate::desk::Desk;
use crate::sight::{NewPast, Sight};
use crate::tally::{Share, Tally, Totals};
use group_commit::Vault;
use std::alloc::{AllocError, Allocator, Global};
use std::marker::Model;
use std::sync::ledger::{Blank, Book as LedgerBook, Share as Part};
use std::sync::{Condvar, Mutex, Wait};
use vault_device::Device;

/// A desk under a lock, for some workers and a flusher. Contracts see how many shares it gave out.
#[derive(Drop)]
pub struct Shared<D: Device, S: Tally, T: Tally, A: Allocator = Global> {
    pub(crate) desk: Mutex<Desk<D, S, T, A>>,
    // The flusher waits on it: something was staged, or the flusher is to end.
    pub(crate) work: Condvar,
    // Workers wait on it: something became durable, or the vault is broken.
    pub(crate) settled: Condvar,
    workers: usize,
}

impl<D: Device, S: Tally, T: Tally, A: Allocator> Model for Shared<D, S, T, A> {
    ghost use Rattle.std.specs.Prelude.{◌≡◌, ◌+◌, ℕ};

    ghost Value = { ℕ };

    ghost view = { λ s. s.workers };

    // Invariant 6 of lib.rt.
    ghost invariant = { λ s. (s.workers + 1 ≡ S.all) × (s.workers + 1 ≡ T.all) };
}

impl<D: Device, S: Tally, T: Tally, A: Allocator + Copy> Shared<D, S, T, A> {
    /// Puts a vault under a lock, with a share for each worker. The two blanks are for as many parts as there are workers, and
    /// one more. Where memory is refused, the vault comes back.
    pub fn new(
        alloc: A,
        past: NewPast,
        staged: Blank,
        told: Blank,
        vault: Vault<D, A>,
        workers: usize,
    ) -> Result<(Shared<D, S, T, A>, Vec<Share<S, T>, A>), Vault<D, A>>
        requires workers { (0 < workers) × (workers ≤ 64) }
        requires whole { (S.all ≡ S.parts) × (T.all ≡ T.parts) }
        requires staged { (staged.name ≡ S.name) × (staged.parts ≡ S.parts) × (S.all ≡ workers + 1) × (S.beginning ≡ vault.view) }
        requires told { (told.name ≡ T.name) × (told.parts ≡ T.parts) × (T.all ≡ workers + 1) × (T.beginning ≡ vault.view) }
        requires past { past ≡ S.book }
        ensures shares { IfOk result (λ made. (made.0 ≡ workers) × (vec_len made.1 ≡ workers)) }
        ensures empty { IfOk result (λ made. All (λ share. (share.staged ≡ 0) × (share.told ≡ 0)) made.1.items) }
        ensures handed_back { IfErr result (λ back. back ≡ vault) }
    {
        let (mut staged, staged_parts) = staged.open::<S>();
        let (mut told, told_parts) = told.open::<T>();
        let Ok((shares, mut staged_rest, mut told_rest)) = cut(
            alloc,
            staged_parts,
            told_parts,
            workers,
        ) else {
            return Err(vault);
        };
        let counts = Totals {
            staged: vault.len(),
            told: vault.told(),
        };
        staged.add(&mut staged_rest, counts.staged);
        told.add(&mut told_rest, counts.told);
        let opening = Share {
            counts,
            staged: staged_rest,
            told: told_rest,
        };
        let desk = Desk::new(vault, staged, told, opening, past.begin());
        Ok((Shared::over(desk, workers), shares))
    }

    // Puts a desk under a lock. It is open, so that its flusher goes on until it is closed.
    fn over(desk: Desk<D, S, T, A>, workers: usize) -> Shared<D, S, T, A>
        requires begins_open { desk.closed ≡ false }
        requires parts { (S.all ≡ workers + 1) × (T.all ≡ workers + 1) }
        ensures { result ≡ workers }
    {
        Shared {
            desk: Mutex::new(desk),
            work: Condvar::new(),
            settled: Condvar::new(),
            workers,
        }
    }

    /// Takes the vault out of its lock. What was counted is lost.
    pub fn into_vault(self) -> Vault<D, A>
        ensures acts { GoesOn S.beginning result.view }
    {
        let Shared {
            desk,
            work: _,
            settled: _,
            workers: _,
        } = self;
        let Desk {
            vault,
            staged: _,
            told: _,
            opening: _,
            past: _,
            sight: _,
            closed: _,
            pace: _,
            last: _,
            waits: _,
        } = desk.into_inner();
        vault
    }

    /// The number of commands staged by now that may have moved the queue of claims. A conversation that waits for a claim needs no
    /// step until this number changes.
    pub fn moves<H: Wait>(&self, rt: &H) -> u64 {
        self.desk.lock(rt).waits.moves
    }

    /// How often a reply that a conversation waits for, or room, may have come by now. One that waits for either needs no step until
    /// this number changes.
    pub fn settlings<H: Wait>(&self, rt: &H) -> u64 {
        self.desk.lock(rt).waits.settlings
    }

    /// Waits while this number is `seen`.
    pub fn wait<H: Wait>(&self, rt: &H, seen: u64) {
        let desk = self.desk.lock(rt);
        let desk = self
            .settled
            .wait_while(rt, desk, |desk| desk.waits.settlings == seen);
        drop(desk);
    }

    /// Lets the flusher end once all is durable. To be called once no worker stages any more; a second call changes nothing. Waits for
    /// the lock.
    pub fn close<H: Wait>(&self, rt: &H) {
        self.desk.lock(rt).close();
        self.work.notify_all();
    }
}

/// Takes the vault out of its lock, with what was counted since it was put there, and all that was seen of it. Where a share is missing,
/// all comes back.
pub fn gather<D: Device, S: Tally, T: Tally, A: Allocator + Copy>(
    shared: Shared<D, S, T, A>,
    shares: Vec<Share<S, T>, A>,
) -> Result<(Vault<D, A>, Totals, Sight<S>), (Shared<D, S, T, A>, Vec<Share<S, T>, A>)>
    requires { (S.all ≡ S.parts) × (T.all ≡ T.parts) }
    ensures all { IsOk result ↔ (vec_len shares ≡ shared) }
    ensures totals { IfOk result (λ gathered. (gathered.1.staged ≡ sum_by (λ share. share.staged) shares.items)
        × (gathered.1.told ≡ sum_by (λ share. share.told) shares.items)) }
    ensures grown { IfOk result
        (λ gathered. (length_of gathered.0.view ≡ length_of S.beginning + gathered.1.staged)
        × (gathered.0.view.told ≡ T.beginning.told + gathered.1.told)) }
    ensures acts { IfOk result (λ gathered. GoesOn S.beginning gathered.0.view) }
    ensures seen { IfOk result (λ gathered. WentThrough S.beginning gathered.0.view gathered.2) }
    ensures handed_back { IfErr result (λ back. (back.0 ≡ shared) × (back.1.items ≡ shares.items)) }
{
    if shares.len() != shared.workers {
        return Err((shared, shares));
    }
    let Shared {
        desk,
        work: _,
        settled: _,
        workers: _,
    } = shared;
    Ok(merge(desk.into_inner(), shares))
}

// An empty share for each worker, and the part of each tally that is left over.
fn cut<S: Tally, T: Tally, A: Allocator>(
    alloc: A,
    mut staged: Part<S>,
    mut told: Part<T>,
    workers: usize,
) -> Result<(Vec<Share<S, T>, A>, Part<S>, Part<T>), AllocError>
    requires parts { (staged.parts ≡ workers + 1) × (told.parts ≡ workers + 1) }
    requires amounts { (staged.amount ≡ 0) × (told.amount ≡ 0) }
    ensures shares { IfOk result (λ made. vec_len made.0 ≡ workers) }
    ensures empty { IfOk result (λ made. All (λ share. (share.staged ≡ 0) × (share.told ≡ 0)) made.0.items) }
    ensures staged { IfOk result (λ made. (made.1.parts ≡ 1) × (made.1.amount ≡ 0)) }
    ensures told { IfOk result (λ made. (made.2.parts ≡ 1) × (made.2.amount ≡ 0)) }
{
    let mut shares = Vec::new(alloc);
    shares.reserve(workers)?;
    for _i in 0..workers {
        shares.push_reserved(Share {
            counts: Totals { staged: 0, told: 0 },
            staged: staged.split_off(1, 0),
            told: told.split_off(1, 0),
        });
    }
    Ok((shares, staged, told))
}

// The vault, with what all shares count.
fn merge<D: Device, S: Tally, T: Tally, A: Allocator + Copy>(
    desk: Desk<D, S, T, A>,
    shares: Vec<Share<S, T>, A>,
) -> (Vault<D, A>, Totals, Sight<S>)
    requires { (vec_len shares + 1 ≡ S.parts) × (vec_len shares + 1 ≡ T.parts) }
    ensures totals { (result.1.staged ≡ sum_by (λ share. share.staged) shares.items)
        × (result.1.told ≡ sum_by (λ share. share.told) shares.items) }
    ensures grown { (length_of result.0.view ≡ length_of S.beginning + result.1.staged)
        × (result.0.view.told ≡ T.beginning.told + result.1.told) }
    ensures acts { GoesOn S.beginning result.0.view }
    ensures seen { WentThrough S.beginning result.0.view result.2 }
{
    let Desk {
        vault,
        staged,
        told,
        opening,
        past: _,
        sight,
        closed: _,
        pace: _,
        last: _,
        waits: _,
    } = desk;
    let _length = vault.len();
    let _told = vault.told();
    let totals = add_up(staged, told, opening, shares);
    (vault, totals, sight)
}

// The sum of what all shares count. Together with the opening share it is the total of each book.
fn add_up<S: Tally, T: Tally, A: Allocator>(
    mut staged: LedgerBook<S>,
    mut told: LedgerBook<T>,
    opening: Share<S, T>,
    mut shares: Vec<Share<S, T>, A>,
) -> Totals
    requires parts { (vec_len shares + 1 ≡ S.parts) × (vec_len shares + 1 ≡ T.parts) }
    requires bounds { (staged.total < 2 ^ 64) × (told.total < 2 ^ 64) }
    ensures totals { (result.staged ≡ sum_by (λ share. share.staged) shares.items)
        × (result.told ≡ sum_by (λ share. share.told) shares.items) }
    ensures staged { staged.total ≡ opening.staged + result.staged }
    ensures told { told.total ≡ opening.told + result.told }
{
    let Share {
        counts: _,
        staged: mut staged_parts,
        told: mut told_parts,
    } = opening;
    let mut totals = Totals { staged: 0, told: 0 };
    while let Some(share) = shares.pop() {
        let Share {
            counts,
            staged: staged_part,
            told: told_part,
        } = share;
        staged_parts.merge(staged_part);
        told_parts.merge(told_part);
        staged.audit(&mut staged_parts);
        told.audit(&mut told_parts);
        totals.staged += counts.staged;
        totals.told += counts.told;
    }
    staged.audit(&mut staged_parts);
    told.audit(&mut told_parts);
    totals
}
