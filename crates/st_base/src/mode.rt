ghost use Rattle.std.specs.Prelude.{◌≡◌};
ghost use Rattle.st_base.specs.Mode as mode;

/// The mode of a lock: none, shared or exclusive, from the weakest to the strongest.
#[derive(Clone, Copy, Debug, PartialEq, Eq)]
pub enum Mode {
    None,
    S,
    X,
}

impl Mode {
    /// Returns the number of the mode in messages and reports: 0, 1 or 2.
    pub fn number(self) -> u8
        ensures { result ≡ mode.number_of self }
    {
        match self {
            Mode::None => 0,
            Mode::S => 1,
            Mode::X => 2,
        }
    }

    /// Returns whether this mode is at least as strong as `wanted`.
    pub fn covers(self, wanted: Mode) -> bool
        ensures { result ≡ mode.covers self wanted }
    {
        wanted.number() <= self.number()
    }

    /// Returns whether two clients cannot hold these modes of one lock at the same time.
    pub fn conflicts(self, other: Mode) -> bool
        ensures { result ≡ mode.conflicts self other }
    {
        match (self, other) {
            (Mode::S, Mode::X) => true,
            (Mode::X, Mode::S) => true,
            (Mode::X, Mode::X) => true,
            _ => false,
        }
    }
}
