//! Access control lists of either style.
ghost use Rattle.std.specs.Prelude.{◌≡◌};
ghost use Rattle.acl_bridge.specs.Files.{view_list};

use acl_nfs4::Acl4;
use acl_posix::Acl;

/// An access control list of either style.
#[derive(Debug, Drop)]
pub enum AnyAcl {
    /// A POSIX list.
    Posix(Acl),
    /// An NFSv4 list.
    Nfs4(Acl4),
}

/// A reference to an access control list of either style.
#[derive(Clone, Copy, Debug)]
pub enum AnyAclRef<'a> {
    /// A POSIX list.
    Posix(&'a Acl),
    /// An NFSv4 list.
    Nfs4(&'a Acl4),
}

impl AnyAcl {
    /// A reference to the list.
    pub fn as_ref(&self) -> AnyAclRef<'_>
        ensures { view_list result ≡ self.now }
    {
        match self {
            AnyAcl::Posix(acl) => AnyAclRef::Posix(acl),
            AnyAcl::Nfs4(acl) => AnyAclRef::Nfs4(acl),
        }
    }
}
