//! One run: random commands, pumps, snapshots and redeems, with crashes between them. It begins with a new vault, or with old files.

use crate::dice::Dice;
use crate::line::Line;
use crate::mood::Mood;
use crate::speakers::Speakers;
use crate::speech::{claim, id, names_claim, spell};
use group_commit::{Phase, Vault};
use std::alloc::Global;
use test_oracle::{Files, Judge, Met, Verdict};
use vault_device::MemDevice;
use vault_model::{Claim, Reply};

/// What is known of a vault, and how it is treated. It has tickets, so it must be ended by `close`.
pub(crate) struct Run {
    pub(crate) judge: Judge,
    pub(crate) dice: Dice,
    pub(crate) mood: Mood,
    pub(crate) line: Line,
    /// How many commands are left to say.
    left: u32,
    pub(crate) speakers: Speakers,
}

impl Run {
    /// The run of a seed, with this number of commands. The counts go on from those of the verdict. None if out of memory.
    pub(crate) fn new(alloc: Global, seed: u64, commands: u32, verdict: Verdict) -> Option<Run> {
        let mut judge = Judge::new(alloc, verdict)?;
        judge.verdict.counts.up(Met::Run);
        let mut dice = Dice::new(seed);
        let mood = Mood::new(&mut dice);
        Some(Run {
            judge,
            dice,
            mood,
            line: Line::new(alloc),
            left: commands,
            speakers: Speakers::new(alloc),
        })
    }

    /// Ends the run. Gives what was found and covered, and how many commands were left.
    pub(crate) fn close(self) -> (Verdict, u32) {
        let Run {
            judge,
            dice,
            mood: _,
            line,
            left,
            speakers,
        } = self;
        drop(dice);
        drop(line);
        drop(speakers);
        (judge.close(), left)
    }

    // Notes who joined or left, by the reply to the last command.
    fn answered(&mut self, session: u32) {
        match self.judge.history.last_reply() {
            Some(Reply::Session(number)) => self.speakers.join(*number, self.line.as_slice()),
            Some(Reply::Left) => self.speakers.leave(session),
            _ => {}
        }
    }

    /// A session says the line.
    pub(crate) fn say(&mut self, vault: &mut Vault<MemDevice>, session: u32) {
        let len = self.judge.world.len;
        self.judge.say(vault, session, self.line.as_slice());
        if self.judge.world.len != len {
            self.answered(session);
        }
    }

    /// A session says these words.
    pub(crate) fn tell(&mut self, vault: &mut Vault<MemDevice>, session: u32, words: &str) {
        self.line.begin(words);
        self.say(vault, session);
    }

    // Who says a line with these words and this claim.
    fn speaker(&mut self, words: &str, claim: &Option<Claim>) -> u32 {
        if words == "hello N" && !self.dice.one_in(20) {
            return 0;
        }
        match claim {
            Some(claim) if names_claim(words) => self.speakers.owner(&mut self.dice, &claim.owner),
            _ => self.speakers.any(&mut self.dice),
        }
    }

    // The words of the next line.
    fn words(&mut self) -> &'static str {
        if self.speakers.is_empty() && !self.dice.one_in(8) {
            return "hello N";
        }
        let mood = self.mood;
        mood.words(&mut self.dice)
    }

    // Some session says a random line.
    fn chat(&mut self, vault: &mut Vault<MemDevice>) {
        let words = self.words();
        let claims = self.judge.history.book().line();
        let claim = claim(&mut self.dice, claims);
        let id = id(&mut self.dice, claims, &claim);
        spell(&mut self.line, &mut self.dice, &self.mood, id, words);
        let session = self.speaker(words, &claim);
        self.say(vault, session);
    }

    // A few pumps, and now and then a snapshot is begun.
    fn work(&mut self, vault: &mut Vault<MemDevice>) {
        for _ in 0..self.dice.below(self.mood.pumps.saturating_add(1)) {
            if self.dice.one_in(self.mood.snapshot) {
                self.judge.start(vault);
            }
            self.judge.pump(vault);
        }
    }

    // What becomes of the first ticket.
    fn treat(&mut self, vault: &mut Vault<MemDevice>) {
        if self.dice.one_in(self.mood.forget) {
            self.judge.forget_first(vault);
        } else if self.dice.one_in(4) {
            self.judge.pass_first();
        } else {
            self.judge.redeem_first(vault);
        }
    }

    // Treats a few tickets, and now and then trims entries.
    fn tend(&mut self, vault: &mut Vault<MemDevice>) {
        for _ in 0..self.dice.below(4) {
            self.treat(vault);
        }
        if self.dice.one_in(self.mood.retire) {
            for _ in 0..self.dice.below(9) {
                self.judge.retire(vault);
            }
        }
    }

    // Whether the machine crashes now: often while a commit or a snapshot is under way, or after a fault.
    fn stops(&mut self) -> bool {
        if self.judge.world.broken || self.judge.world.phase != Phase::Idle {
            return self.dice.one_in(self.mood.stop / 4 + 1);
        }
        self.dice.one_in(self.mood.stop)
    }

    // Says commands until the machine crashes, none are left, or a difference is found.
    fn live(&mut self, vault: &mut Vault<MemDevice>) {
        for _ in 0..self.left {
            self.left = self.left.saturating_sub(1);
            self.chat(vault);
            self.work(vault);
            self.tend(vault);
            self.judge.count(vault);
            if !self.judge.verdict.is_sound() || self.stops() {
                return;
            }
        }
    }

    // Lives one life, and gives the vault of the next. None if a difference is found.
    fn next_life(&mut self, vault: Vault<MemDevice>) -> Option<Vault<MemDevice>> {
        let mut vault = vault;
        self.live(&mut vault);
        let files = Files::of(vault);
        if self.judge.verdict.is_sound() {
            return self.reopened(files);
        }
        drop(files);
        None
    }

    /// Lives all lives, until no command is left or a difference is found.
    pub(crate) fn lives(&mut self) {
        let Some(mut vault) = self.begun() else {
            self.judge.verdict.sure(false, "no vault to begin with");
            return;
        };
        for _ in 0..self.left {
            vault = match self.next_life(vault) {
                Some(next) => next,
                None => return,
            };
            if self.left == 0 {
                break;
            }
        }
        drop(vault);
    }
}
