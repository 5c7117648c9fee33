//! What a new file or directory inherits (RFC 8881, section 6.4.3).
ghost use Rattle.std.specs.Prelude.{◌≡◌, ◌≤◌, length, option_map, IfOk, IsOk, IfSome};
ghost use Rattle.acl_names.specs.Bits.{has};
ghost use Rattle.acl_nfs4.specs.Flags.{flag_bits, file_inherit, directory_inherit};
ghost use Rattle.acl_nfs4.specs.Flags.{no_propagate_inherit};
ghost use Rattle.acl_nfs4.specs.Inheritance.{flags_below, has_inheritance, inherited_entry};
ghost use Rattle.acl_nfs4.specs.Inheritance.{inherited_list};

use crate::draft::Draft;
use crate::limits::INLINE_ACES;
use crate::{Ace, Acl4, Flags};
use bitflags::Flags as FlagSet;
use std::alloc::{AllocError, Global};

/// What is created in a directory.
#[derive(Clone, Copy, Debug, PartialEq, Eq)]
pub enum Kind {
    /// A file, which inherits entries and passes none on.
    File,
    /// A directory.
    Dir,
}

/// The inheritance flags that an entry has in a new file or directory; `None` if it isn't
/// inherited.
fn flags_below(kind: Kind, flags: Flags) -> Option<Flags>
    ensures { option_map flag_bits result
        ≡ flags_below kind (has (flag_bits flags) file_inherit)
        (has (flag_bits flags) directory_inherit)
        (has (flag_bits flags) no_propagate_inherit) }
{
    let for_files = flags.has_file_inherit();
    let for_directories = flags.has_directory_inherit();
    let stops = flags.has_no_propagate_inherit();
    match (kind, for_files, for_directories, stops) {
        (Kind::File, true, _, _) => Some(Flags::empty()),
        (Kind::File, false, _, _) => None,
        (Kind::Dir, false, false, _) => None,
        (Kind::Dir, true, false, false) => Some(Flags::PASSED_TO_FILES),
        (Kind::Dir, true, false, true) => None,
        (Kind::Dir, false, true, false) => Some(Flags::DIRECTORY_INHERIT),
        (Kind::Dir, true, true, false) => Some(Flags::PASSED_TO_ALL),
        (Kind::Dir, _, true, true) => Some(Flags::empty()),
    }
}

impl Ace {
    ghost use Rattle.std.specs.Prelude.{false};
    ghost use Rattle.acl_nfs4.specs.Ace.{is_idle};

    /// The entry as a new file or directory inherits it; `None` if it doesn't.
    fn inherited(&self, kind: Kind) -> Option<Ace>
        ensures value { result ≡ inherited_entry kind self.now }
        ensures effective { IfSome result (λ ace. is_idle ace ≡ false) }
    {
        match flags_below(kind, self.flags()) {
            Some(below) => {
                let flags = self.flags().without_inheritance().union(below);
                Some(self.with_flags(flags))
            }
            None => None,
        }
    }
}

impl Acl4 {
    /// The list of a new file or directory in a directory with this list, before a mode is set:
    /// each entry that it inherits, in order (RFC 8881, section 6.4.3). Files inherit entries with
    /// `FILE_INHERIT`, without their inheritance flags; directories inherit those with
    /// `DIRECTORY_INHERIT`, and those with `FILE_INHERIT` alone only to pass them on. Entries with
    /// `NO_PROPAGATE_INHERIT` aren't passed on. Fails only if memory runs out.
    pub fn inherited(&self, alloc: Global, kind: Kind) -> Result<Acl4, AllocError>
        ensures value { IfOk result (λ acl. acl ≡ inherited_list kind self.now) }
        ensures short { length (inherited_list kind self.now) ≤ INLINE_ACES → IsOk result }
    {
        let mut draft = Draft::<INLINE_ACES>::new(alloc);
        for ace in self.aces() {
            if let Some(below) = ace.inherited(kind) {
                draft.push_within(below).map_err(|_| AllocError)?;
            }
        }
        Ok(draft.into_acl())
    }

    /// Whether any entry has one of the flags `FILE_INHERIT`, `DIRECTORY_INHERIT`,
    /// `NO_PROPAGATE_INHERIT` and `INHERIT_ONLY`.
    pub fn has_inheritance(&self) -> bool
        ensures { result ≡ has_inheritance self.now }
    {
        self.aces().iter().any(|ace| ace.flags().has_inheritance())
    }
}
