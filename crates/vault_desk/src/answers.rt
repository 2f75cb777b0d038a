//! The answers of a conversation: what contracts see of all of them, and their values where these are kept.
ghost use Rattle.std.specs.Prelude.{◌≡◌, ◌<◌, ◌++◌, ◌∷◌, [], List, true, false, length, IfOk, IfSome, MatchOption, vec_len, vec_capacity};
ghost use Rattle.vault_desk.specs.Answered.{has_value};
ghost use Rattle.vault_desk.specs.declared.report.Out.{Out};

use crate::report::Out;
use std::alloc::Allocator;
use std::marker::Model;
use std::snapshot::Snapshot;
use vault_model::NoMemory;

// Answers as contracts see them. It takes no bytes but those that tell its variants apart.
#[derive(Drop)]
pub(crate) enum Log<A: Allocator> {
    Empty,
    // All but the last one, and the last one.
    More(Snapshot<Log<A>>, Snapshot<Out<A>>),
}

/// The answers to the lines of a connection, in order. Contracts see all of them. A program sees how many there are and, if they are
/// kept, their values. Each kept one takes memory until the end.
#[derive(Drop)]
pub struct Answers<A: Allocator> {
    log: Log<A>,
    count: usize,
    kept: Option<Vec<Out<A>, A>>,
    has_room: bool,
}

impl<A: Allocator> Model for Answers<A> {
    ghost use Rattle.std.specs.Prelude.{◌≡◌, ◌<◌, ◌-◌, ◌^◌, true, length, IfSome, vec_len, vec_capacity};
    ghost use Rattle.vault_desk.specs.Answered.{Answered, has_value};
    ghost use Rattle.vault_desk.specs.Logs.{logged};

    ghost Value = { Answered A };

    ghost view = { λ a. record { outs = logged a.log; is_kept = has_value a.kept; has_room = a.has_room } };

    // The count, the values, and what room means.
    ghost invariant = { λ a. (a.count ≡ length (logged a.log)) × IfSome a.kept (λ kept. kept.items ≡ logged a.log)
        × (a.has_room ≡ true → a.count < 2 ^ 64 - 1) × (a.has_room ≡ true → IfSome a.kept (λ kept. vec_len kept < vec_capacity kept)) };
}

impl<A: Allocator + Copy> Answers<A> {
    /// No answers yet. `keeps` says whether their values are kept.
    pub fn new(alloc: A, keeps: bool) -> Answers<A>
        ensures { result ≡ record { outs = []; is_kept = keeps; has_room = false } }
    {
        let kept = kept_by(alloc, keeps);
        Answers {
            log: Log::Empty,
            count: 0,
            kept,
            has_room: false,
        }
    }

    /// How many there are.
    pub fn len(&self) -> usize
        ensures { result ≡ length self.now.outs }
    {
        self.count
    }

    /// Takes room for one more.
    pub fn reserve(&mut self) -> Result<(), NoMemory>
        ensures same { (self.new.outs ≡ self.old.outs) × (self.new.is_kept ≡ self.old.is_kept) }
        ensures room { IfOk result (λ _. self.new.has_room ≡ true) }
    {
        if self.count == usize::MAX {
            return Err(NoMemory);
        }
        if let Some(kept) = &mut self.kept {
            if kept.reserve(1).is_err() {
                return Err(NoMemory);
            }
        }
        self.has_room = true;
        Ok(())
    }

    /// Keeps one more, for which there is room.
    pub fn push(&mut self, out: Out<A>)
        requires { self.old.has_room ≡ true }
        ensures more { self.new.outs ≡ self.old.outs ++ out ∷ [] }
        ensures same { self.new.is_kept ≡ self.old.is_kept }
    {
        self.log = Log::More(Snapshot::of(&self.log), Snapshot::of(&out));
        self.count += 1;
        self.has_room = false;
        keep(&mut self.kept, out);
    }

    /// Their values, where they are kept.
    pub fn into_values(self) -> Option<Vec<Out<A>, A>>
        ensures { MatchOption result (self.is_kept ≡ false) (λ outs. (self.is_kept ≡ true) × (outs.items ≡ self.outs)) }
    {
        let Answers {
            log: _,
            count: _,
            kept,
            has_room: _,
        } = self;
        kept
    }
}

// Room for values, where they are kept.
fn kept_by<A: Allocator>(alloc: A, keeps: bool) -> Option<Vec<Out<A>, A>>
    ensures kept { has_value result ≡ keeps }
    ensures none { IfSome result (λ kept. kept.items ≡ []) }
{
    if keeps { Some(Vec::new(alloc)) } else { None }
}

// Keeps an answer's value where values are kept.
fn keep<A: Allocator>(kept: &mut Option<Vec<Out<A>, A>>, out: Out<A>)
    requires { IfSome kept.old (λ before. vec_len before < vec_capacity before) }
    ensures values { (outs : List (Out A)) → IfSome kept.old (λ before. before.items ≡ outs)
        → IfSome kept.new (λ after. after.items ≡ outs ++ out ∷ []) }
    ensures same { has_value kept.new ≡ has_value kept.old }
{
    match kept {
        Some(values) => values.push_reserved(out),
        None => drop(out),
    }
}
