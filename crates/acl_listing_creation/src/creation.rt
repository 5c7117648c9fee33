//! What a user creates.
ghost use Rattle.std.specs.Prelude.{◌≡◌};
ghost use Rattle.acl_tree.specs.NodeAcls.{beyond_umask};
ghost use Rattle.acl_listing_creation.specs.Created.{mode_on};

use acl_names::{Gid, Uid};
use acl_nfs4::{Ace, Kind};
use acl_posix::{Mode, without};

/// What a user creates in a folder.
#[derive(Drop)]
pub(crate) struct Creation {
    /// The owner.
    pub owner: Uid,
    /// The group, unless the folder passes on its own.
    pub group: Gid,
    /// Whether it is a file or a folder.
    pub kind: Kind,
    /// The mode that the program requests.
    pub mode: Mode,
    /// The bits that are removed from the mode if nothing is inherited.
    pub umask: Mode,
}

/// The mode without the umask's bits.
fn beyond_umask(mode: Mode, umask: Mode) -> Mode
    ensures { result ≡ beyond_umask mode umask }
{
    Mode {
        user: without(mode.user, umask.user),
        group: without(mode.group, umask.group),
        other: without(mode.other, umask.other),
    }
}

impl Creation {
    /// The mode if nothing is inherited: without the umask's bits.
    pub(crate) fn mode_alone(&self) -> Mode
        ensures { result ≡ beyond_umask self.now.mode self.now.umask }
    {
        beyond_umask(self.mode, self.umask)
    }

    /// The mode that is set on inherited entries; without any, the umask counts.
    pub(crate) fn mode_on(&self, inherited: &[Ace]) -> Mode
        ensures { result ≡ mode_on self.now inherited.now }
    {
        match inherited.first() {
            Some(_) => self.mode,
            None => self.mode_alone(),
        }
    }
}
