//! A requester who is in at most two groups.
ghost use Rattle.std.specs.Prelude.{◌≡◌, IfOk, ◌==◌, option_to_list};
ghost use Rattle.std.specs.List.{list_any};
ghost use Rattle.acl_names.specs.Asker.{identity_of};
ghost use Rattle.acl_names.specs.Requester.{is_in_group};

use crate::{Gid, Requester, Uid};
use std::alloc::{AllocError, Global};

/// A requester who is in at most two groups. It takes no memory, so that many can be tried in turn.
#[derive(Clone, Copy, Debug, PartialEq, Eq)]
pub struct Asker {
    /// The user's id.
    pub uid: Uid,
    /// A group that the user is in, if any.
    pub gid: Option<Gid>,
    /// A second group that the user is in, if any; it may be the first again.
    pub other_gid: Option<Gid>,
}

/// Whether `own` is this group.
fn is_gid(own: Option<Gid>, gid: Gid) -> bool
    ensures { result ≡ list_any (λ one. one == gid) (option_to_list own) }
{
    match own {
        Some(one) => one == gid,
        None => false,
    }
}

impl Asker {
    /// Whether the user is in this group.
    pub fn is_in_group(&self, gid: Gid) -> bool
        ensures { result ≡ is_in_group (identity_of self.now) gid }
    {
        is_gid(self.gid, gid) || is_gid(self.other_gid, gid)
    }

    /// The same user and groups as a `Requester`. Fails only if memory runs out.
    pub fn requester(&self, alloc: Global) -> Result<Requester, AllocError>
        ensures { IfOk result (λ requester. requester ≡ identity_of self.now) }
    {
        let mut gids = Vec::new(alloc);
        if let Some(gid) = self.gid {
            gids.push(gid)?;
        }
        if let Some(gid) = self.other_gid {
            gids.push(gid)?;
        }
        Ok(Requester::new(self.uid, gids))
    }
}
