//! Words that the parser takes, but that are wrong.
ghost use Rattle.std.specs.Prelude.{◌≡◌};

/// Wrong usage that the parser doesn't check.
#[derive(Clone, Copy, Debug, PartialEq, Eq)]
pub enum Misuse {
    /// Standard input is named twice.
    InputTwice,
    /// There are more sessions than can run at once.
    TooManySessions,
    /// `--delete` is given with `--perms`, `--letters` or `--via`.
    DeleteAndOthers,
    /// `--letters` is given with `--perms`.
    LettersAndPerms,
    /// There is no word, or the first isn't a command's name.
    NoCommand,
    /// A word isn't UTF-8.
    BadWords,
    /// Standard input is longer than words may be.
    TooManyWords,
}

impl Misuse {
    ghost use Rattle.acl_cli.specs.Faults.{misuse_words};

    /// What follows `aclctl: ` on the fault line.
    pub fn words(&self) -> &'static str
        ensures { result.now ≡ misuse_words self.now }
    {
        match self {
            Misuse::InputTwice => "- is given twice",
            Misuse::TooManySessions => "at most 64 sessions",
            Misuse::DeleteAndOthers => "--delete excludes --letters, --perms and --via",
            Misuse::LettersAndPerms => "--letters and --perms exclude each other",
            Misuse::NoCommand => "no command",
            Misuse::BadWords => "bad words",
            Misuse::TooManyWords => "too many words",
        }
    }
}
