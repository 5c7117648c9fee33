//! The system's reason why a file can't be read.
ghost use Rattle.std.specs.Prelude.{◌≡◌};
ghost use Rattle.acl_cli.specs.Failures.{reason_of, reason_words};

use std::io::ErrorKind;

/// Why a file can't be read, if it is known.
#[derive(Clone, Copy, Debug, PartialEq, Eq)]
pub enum Reason {
    Unknown,
    NotFound,
    PermissionDenied,
    NotADirectory,
    IsADirectory,
}

impl Reason {
    /// The reason that an error of this kind gives.
    pub fn of(kind: ErrorKind) -> Reason
        ensures { result ≡ reason_of kind }
    {
        match kind {
            ErrorKind::NotFound => Reason::NotFound,
            ErrorKind::PermissionDenied => Reason::PermissionDenied,
            ErrorKind::NotADirectory => Reason::NotADirectory,
            ErrorKind::IsADirectory => Reason::IsADirectory,
            _ => Reason::Unknown,
        }
    }

    /// What follows the file's name on the fault line.
    pub fn words(&self) -> &'static str
        ensures { result.now ≡ reason_words self.now }
    {
        match self {
            Reason::Unknown => "",
            Reason::NotFound => ": No such file or directory",
            Reason::PermissionDenied => ": Permission denied",
            Reason::NotADirectory => ": Not a directory",
            Reason::IsADirectory => ": Is a directory",
        }
    }
}
