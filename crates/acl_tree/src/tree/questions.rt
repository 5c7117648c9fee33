//! The commands that change nothing.
ghost use Rattle.std.specs.Prelude.{◌≡◌, []};
ghost use Rattle.acl_names.specs.Directory.{requester_of};
ghost use Rattle.acl_nfs4.specs.Mask.{mask_bits};
ghost use Rattle.acl_posix.specs.Perms.{bits_of};
ghost use Rattle.acl_tree.specs.Commands.{get, check, check4, translate, granted_or_denied};
ghost use Rattle.acl_tree.specs.Refusals.{ComesTo};

use super::Tree;
use crate::refusal::Refusal;
use crate::{Boxed, NodeAcl, Path, Reply, TreeFault};
use acl_names::{Directory, Requester, Uid};
use acl_nfs4::Mask;
use acl_posix::Perms;
use std::alloc::Global;

/// The reply to a check.
fn granted_or_denied(may: bool) -> Reply
    ensures { result ≡ granted_or_denied may }
{
    if may { Reply::Granted } else { Reply::Denied }
}

/// The directory's requester with the uid of `stranger`, or, without such a user, `stranger`, who
/// is in no group.
fn requester_or_stranger<'a>(directory: &'a Directory, stranger: &'a Requester) -> &'a Requester
    requires { stranger.now.gids ≡ [] }
    ensures { result.now ≡ requester_of directory.now stranger.now.uid }
{
    match directory.requester_of(stranger.uid()) {
        Some(requester) => requester,
        None => stranger,
    }
}

impl Tree {
    /// Shows the node at the path.
    pub(super) fn get(&self, alloc: Global, path: &Path) -> Result<Reply, Refusal>
        ensures { ComesTo (get self.now path.now) result }
    {
        let node = self.node_at(path.as_bytes())?;
        let view = node.view(alloc, path)?;
        Ok(Reply::Node(Boxed::new(alloc, view)?))
    }

    /// Whether the list of the node at the path grants the user all of the permissions. It takes no
    /// memory.
    pub(super) fn check(
        &self,
        alloc: Global,
        directory: &Directory,
        path: &Path,
        uid: Uid,
        perms: Perms,
    ) -> Result<Reply, TreeFault>
        ensures { result ≡ check directory.now self.now path.now uid (bits_of perms) }
    {
        let node = self.node_at(path.as_bytes())?;
        let stranger = Requester::new(uid, Vec::new(alloc));
        let requester = requester_or_stranger(directory, &stranger);
        Ok(granted_or_denied(node.may(requester, perms)))
    }

    /// Whether the NFSv4 list of the node at the path grants the user each bit of the mask. It
    /// takes no memory.
    pub(super) fn check4(
        &self,
        alloc: Global,
        directory: &Directory,
        path: &Path,
        uid: Uid,
        mask: Mask,
    ) -> Result<Reply, TreeFault>
        ensures { result ≡ check4 directory.now self.now path.now uid (mask_bits mask) }
    {
        let node = self.node_at(path.as_bytes())?;
        let NodeAcl::Nfs4 { acl } = &node.acl else {
            return Err(TreeFault::WrongStyle);
        };
        let stranger = Requester::new(uid, Vec::new(alloc));
        let requester = requester_or_stranger(directory, &stranger);
        Ok(granted_or_denied(acl.grants4(node.owner, node.group, requester, mask)))
    }

    /// The POSIX lists of the node at the path as NFSv4 lists.
    pub(super) fn translate(&self, alloc: Global, path: &Path) -> Result<Reply, Refusal>
        ensures { ComesTo (translate self.now path.now) result }
    {
        let node = self.node_at(path.as_bytes())?;
        let NodeAcl::Posix { access, default } = &node.acl else {
            return Err(Refusal::Fault(TreeFault::WrongStyle));
        };
        let access = acl_bridge::translate(alloc, access)?;
        let access = Boxed::new(alloc, access)?;
        match default {
            Some(default) => Ok(Reply::TranslatedBoth {
                access,
                inherit: Boxed::new(alloc, acl_bridge::translate_default(alloc, default)?)?,
            }),
            None => Ok(Reply::Translated(access)),
        }
    }
}
