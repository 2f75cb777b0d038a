//! Groups of modes that several owners have at one place.
ghost use Rattle.std.specs.Prelude.{◌≡◌, ◌<◌};
ghost use Rattle.std.specs.List.{list_all};
ghost use Rattle.lock_modes.specs.Modes.{compatible, join_all};
ghost use Rattle.lock_modes.specs.Groups.{no_members, count_of, size, members, with_one};

use crate::Mode;
use std::marker::Model;

/// The most members that a group may have.
pub const MAX_MEMBERS: u16 = 256;

/// The modes of some owners at one place: how many members have each mode.
#[derive(Clone, Copy, Debug, PartialEq, Eq)]
pub struct Group {
    is: u16,
    ix: u16,
    s: u16,
    six: u16,
    x: u16,
}

impl Model for Group {
    ghost use Rattle.lock_modes.specs.Groups.{Counts};

    ghost Value = { Counts };

    ghost view = { λ g. record { is = g.is; ix = g.ix; s = g.s; six = g.six; x = g.x } };

    ghost inverse = { λ c. record { is = c.is; ix = c.ix; s = c.s; six = c.six; x = c.x } };
}

impl Group {
    /// The empty group.
    pub fn empty() -> Group
        ensures { result ≡ no_members }
    {
        Group {
            is: 0,
            ix: 0,
            s: 0,
            six: 0,
            x: 0,
        }
    }

    /// Adds a member of this mode.
    pub fn add(&mut self, mode: Mode)
        requires { size self.old < MAX_MEMBERS }
        ensures { self.new ≡ with_one self.old mode }
    {
        match mode {
            Mode::IS => self.is += 1,
            Mode::IX => self.ix += 1,
            Mode::S => self.s += 1,
            Mode::SIX => self.six += 1,
            Mode::X => self.x += 1,
        }
    }

    /// Removes one member of this mode.
    pub fn remove(&mut self, mode: Mode)
        requires { 0 < count_of self.old mode }
        ensures { self.old ≡ with_one self.new mode }
    {
        match mode {
            Mode::IS => self.is -= 1,
            Mode::IX => self.ix -= 1,
            Mode::S => self.s -= 1,
            Mode::SIX => self.six -= 1,
            Mode::X => self.x -= 1,
        }
    }

    /// The join of the members' modes. An empty group has none.
    pub fn mode(&self) -> Option<Mode>
        ensures { result ≡ join_all (members self.now) }
    {
        if self.x > 0 {
            return Some(Mode::X);
        }
        if self.six > 0 || (self.s > 0 && self.ix > 0) {
            return Some(Mode::SIX);
        }
        if self.s > 0 {
            return Some(Mode::S);
        }
        if self.ix > 0 {
            return Some(Mode::IX);
        }
        (self.is > 0).then_some(Mode::IS)
    }

    /// Whether this mode is compatible with every member's.
    pub fn admits(&self, mode: Mode) -> bool
        ensures { result ≡ list_all (λ member. compatible member mode) (members self.now) }
    {
        match self.mode() {
            None => true,
            Some(members) => members.compatible(mode),
        }
    }
}
