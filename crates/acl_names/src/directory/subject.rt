//! Anybody who requests access.
use crate::{Asker, Gid, Requester, Uid};

/// Anybody who requests access: a user, and the groups that the user is in, however they are
/// stored.
pub trait Subject {
    ghost use Rattle.std.specs.Prelude.{◌≡◌};
    ghost use Rattle.acl_names.specs.Requester.{Identity, is_in_group};

    /// The user and the groups.
    ghost identity: { Self → Identity };

    /// The user's id.
    fn uid(&self) -> Uid
        ensures { result ≡ (identity self.now).uid };

    /// Whether the user is in this group.
    fn is_in_group(&self, gid: Gid) -> bool
        ensures { result ≡ is_in_group (identity self.now) gid };
}

impl Subject for Requester {
    ghost identity = { λ requester. requester };

    fn uid(&self) -> Uid {
        Requester::uid(self)
    }

    fn is_in_group(&self, gid: Gid) -> bool {
        Requester::is_in_group(self, gid)
    }
}

impl Subject for Asker {
    ghost use Rattle.acl_names.specs.Asker.{identity_of};

    ghost identity = { identity_of };

    fn uid(&self) -> Uid {
        self.uid
    }

    fn is_in_group(&self, gid: Gid) -> bool {
        Asker::is_in_group(self, gid)
    }
}
