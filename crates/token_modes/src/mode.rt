// The modes in which tokens are given, and their names.

ghost use Rattle.std.specs.Prelude.{◌≡◌, ◌≢◌, MatchOption};
ghost use Rattle.token_modes.specs.ModeName.{mode_name};

/// How a site's token is chosen.
#[derive(Clone, Copy, PartialEq, Eq, Debug)]
pub enum Mode {
    /// By the site's number.
    Increment,
    /// By a random word.
    Random,
    /// By the hash of the site's type.
    TypeHash,
    /// By the hash of the site's type, with types that contain a pointer in a half of their own.
    Split,
}

impl Mode {
    /// The mode's name, as Clang's manual spells it.
    pub fn name(self) -> &'static str
        ensures { result.now ≡ mode_name self }
    {
        match self {
            Mode::Increment => "increment",
            Mode::Random => "random",
            Mode::TypeHash => "typehash",
            Mode::Split => "typehashpointersplit",
        }
    }

    /// The mode of this name; `None` exactly where no mode has it.
    pub fn from_name(name: &[u8]) -> Option<Mode>
        ensures { MatchOption result ((m : Mode) → mode_name m ≢ name.now) (λ m. mode_name m ≡ name.now) }
    {
        if name == b"increment".as_slice() {
            Some(Mode::Increment)
        } else if name == b"random".as_slice() {
            Some(Mode::Random)
        } else if name == b"typehash".as_slice() {
            Some(Mode::TypeHash)
        } else if name == b"typehashpointersplit".as_slice() {
            Some(Mode::Split)
        } else {
            None
        }
    }
}
