//! What a conversation over one connection keeps from one step to the next.
ghost use Rattle.std.specs.Prelude.{◌≡◌, ◌≤◌, [], IfOk, IfErr, None, vec_capacity, false};
ghost use Rattle.vault_lines.specs.Limits.{longest_line};

use crate::answers::Answers;
use crate::sight::Sight;
use crate::tally::{Share, Tally};
use line_inlet::Inlet;
use std::alloc::Allocator;
use vault_lines::LONGEST_LINE;

/// A conversation, but for what it does next.
#[derive(Drop)]
pub struct Conversation<S: Tally, T: Tally, A: Allocator> {
    /// The number of its connection.
    pub connection: u32,
    /// The bytes that were read, and not taken into a line yet.
    pub inlet: Inlet,
    /// The bytes of the line that is being heard.
    pub line: Vec<u8, A>,
    /// Whether the line is too long, so that some of its bytes are left out.
    pub is_long: bool,
    /// The answers, in order.
    pub answers: Answers<A>,
    /// The session that it speaks for, or 0.
    pub session: u32,
    /// What it counted.
    pub share: Share<S, T>,
    /// What it saw of the vault. It grows with each command that is staged, and with each reply.
    pub sight: Option<Sight<S>>,
    ghost room: { longest_line ≤ vec_capacity line },
}

impl<S: Tally, T: Tally, A: Allocator + Copy> Conversation<S, T, A> {
    /// A new conversation, which has heard nothing. Where memory is refused, the share comes back.
    pub fn new(
        alloc: A,
        connection: u32,
        keeps: bool,
        share: Share<S, T>,
    ) -> Result<Conversation<S, T, A>, Share<S, T>>
        ensures made { IfOk result (λ talk. (talk.inlet ≡ record { pending = []; taken = 0 }) × (talk.line.items ≡ []) × (talk.is_long ≡ false)
            × (talk.answers ≡ record { outs = []; is_kept = keeps; has_room = false }) × (talk.session ≡ 0) × (talk.share ≡ share)
            × (talk.sight ≡ None)) }
        ensures handed_back { IfErr result (λ back. back ≡ share) }
    {
        let mut line = Vec::new(alloc);
        let Ok(()) = line.reserve(LONGEST_LINE) else {
            return Err(share);
        };
        Ok(Conversation {
            connection,
            inlet: Inlet::new(),
            line,
            is_long: false,
            answers: Answers::new(alloc, keeps),
            session: 0,
            share,
            sight: None,
        })
    }

    // Begins the next line: the one that was heard is done with, and no byte of the next one was taken.
    pub(crate) fn begin_line(&mut self)
        ensures begun { (self.new.line.items ≡ []) × (self.new.is_long ≡ false) }
        ensures same { (self.new.inlet ≡ self.old.inlet) × (self.new.answers ≡ self.old.answers) × (self.new.session ≡ self.old.session)
            × (self.new.share ≡ self.old.share) × (self.new.sight ≡ self.old.sight) }
    {
        self.line.clear();
        self.is_long = false;
    }
}
