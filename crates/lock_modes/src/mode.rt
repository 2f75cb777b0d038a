//! Lock modes.
ghost use Rattle.std.specs.Prelude.{◌≡◌};
ghost use Rattle.lock_modes.specs.Modes.{compatible, join, at_least};

/// What an owner may do at a place of the tree, and beneath it.
///
/// `S` is for reading and `X` for writing, here and beneath. `IS` and `IX` announce a lock further
/// down that reads or writes. `SIX` reads all here and beneath, and writes further down.
#[derive(Clone, Copy, Debug, PartialEq, Eq)]
pub enum Mode {
    IS,
    IX,
    S,
    SIX,
    X,
}

impl Mode {
    /// Whether two owners may have these modes at one place.
    pub fn compatible(self, other: Mode) -> bool
        ensures { result ≡ compatible self other }
    {
        match (self, other) {
            (Mode::X, _) | (_, Mode::X) => false,
            (Mode::IS, _) | (_, Mode::IS) => true,
            (Mode::IX, Mode::IX) | (Mode::S, Mode::S) => true,
            _ => false,
        }
    }

    /// The least mode that is at least both.
    pub fn join(self, other: Mode) -> Mode
        ensures { result ≡ join self other }
    {
        match (self, other) {
            (Mode::X, _) | (_, Mode::X) => Mode::X,
            (Mode::IS, mode) | (mode, Mode::IS) => mode,
            (Mode::IX, Mode::IX) => Mode::IX,
            (Mode::S, Mode::S) => Mode::S,
            _ => Mode::SIX,
        }
    }

    /// Whether this mode allows all that the other allows.
    pub fn at_least(self, other: Mode) -> bool
        ensures { result ≡ at_least self other }
    {
        self.join(other) == self
    }
}
