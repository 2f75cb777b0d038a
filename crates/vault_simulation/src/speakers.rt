//! Who speaks in the present life.

use crate::dice::Dice;
use std::alloc::Global;
use vault_model::{Name, Owner};

/// A session that was opened.
#[derive(Clone, Copy)]
struct Speaker {
    session: u32,
    name: Name,
}

/// The sessions that were opened in the present life.
#[derive(Drop)]
pub(crate) struct Speakers {
    joined: Vec<Speaker>,
}

impl Speakers {
    /// No sessions.
    pub(crate) fn new(alloc: Global) -> Speakers {
        Speakers {
            joined: Vec::new(alloc),
        }
    }

    /// Adds a session, whose `hello` was this line.
    pub(crate) fn join(&mut self, session: u32, line: &[u8]) {
        let name = line.get(6..).unwrap_or(&[]);
        if let Some(name) = Name::read(name) {
            let _ = self.joined.push(Speaker { session, name });
        }
    }

    /// Whether there are none.
    pub(crate) fn is_empty(&self) -> bool {
        self.joined.is_empty()
    }

    /// A session left.
    pub(crate) fn leave(&mut self, session: u32) {
        self.joined.retain(|speaker| speaker.session != session);
    }

    /// Forgets all: after a restart no connection has a session.
    pub(crate) fn restart(&mut self) {
        self.joined.clear();
    }

    /// Any session, and now and then 0 (a connection without a session) or one that never was.
    pub(crate) fn any(&self, dice: &mut Dice) -> u32 {
        if dice.one_in(40) {
            return dice.below(70);
        }
        match self.joined.get(dice.place(self.joined.len())) {
            Some(speaker) => speaker.session,
            None => 0,
        }
    }

    // One of the sessions of a designer; 0 if there is none.
    fn of_designer(&self, dice: &mut Dice, name: &Name) -> u32 {
        let mut session = 0;
        for speaker in &self.joined {
            if speaker.name == *name && (session == 0 || dice.one_in(2)) {
                session = speaker.session;
            }
        }
        session
    }

    /// A session of an owner, and now and then any other.
    pub(crate) fn owner(&self, dice: &mut Dice, owner: &Owner) -> u32 {
        if dice.one_in(12) {
            return self.any(dice);
        }
        match owner {
            Owner::Session(number) => *number,
            Owner::Designer(name) => self.of_designer(dice, name),
        }
    }
}
