//! Opening files by name.
ghost use Rattle.std.specs.Prelude.{◌≡◌, IfOk, List, Option, ℕ};

use std::io::{self, Read};

/// Opens files by name.
pub trait OpenFiles {
    type File: Read + Drop;

    /// The bytes of the file of a name, if they are known.
    ghost bytes_of: { Self → List ℕ → Option (List ℕ) };

    /// Opens the file of this name for reading.
    fn open(&self, name: &str) -> io::Result<Self::File>
        ensures { IfOk result (λ file. Self.File.remaining file ≡ bytes_of self.now name.now) };
}
