//! A user who requests access, with the groups in the caller's memory.

ghost use Rattle.acl_names.specs.Requester.{is_in_group};

use acl_names::{Gid, Subject, Uid};

/// A user, and the numbers of the groups that the user is in, which are borrowed.
#[derive(Clone, Copy)]
pub struct Caller<'a> {
    /// The user's id.
    pub uid: Uid,
    /// The groups. A number that isn't a gid is in no list.
    pub gids: &'a [u32],
}

impl<'a> Subject for Caller<'a> {
    ghost identity = { λ caller. record { uid = caller.uid; gids = caller.gids.now } };

    fn uid(&self) -> Uid {
        self.uid
    }

    /// It looks at each number, with no way out between, so that several are compared at a time.
    fn is_in_group(&self, gid: Gid) -> bool {
        let gid = gid.value();
        let mut found = false;
        for own in self.gids {
            found |= *own == gid;
        }
        found
    }
}
