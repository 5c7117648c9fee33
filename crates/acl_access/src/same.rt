//! Files with the same list, which need no comparison.
ghost use Rattle.std.specs.Prelude.{◌≡◌, ◌↔◌, IsTrue};
ghost use Rattle.acl_bridge.specs.Files.{view_acl, view_list};
ghost use Rattle.acl_access.specs.Changes.{IsAlikeToAll};

use acl_bridge::{AnyAclRef, FileAcl};

/// Whether the lists have the same entries in the same order.
fn has_same_entries(before: AnyAclRef<'_>, after: AnyAclRef<'_>) -> bool
    ensures { IsTrue result ↔ (view_list before.entry ≡ view_list after.entry) }
{
    match (before, after) {
        (AnyAclRef::Posix(first), AnyAclRef::Posix(second)) => first.has_same_entries(second),
        (AnyAclRef::Nfs4(first), AnyAclRef::Nfs4(second)) => first.has_same_entries(second),
        _ => false,
    }
}

/// Whether both files have the same owner and group, and lists with the same entries in the same
/// order. Then both grant everyone the same. It takes no memory.
pub fn is_same_file(before: &FileAcl<'_>, after: &FileAcl<'_>) -> bool
    ensures same { IsTrue result ↔ (view_acl before.now ≡ view_acl after.now) }
    ensures alike { IsTrue result → IsAlikeToAll (view_acl before.now) (view_acl after.now) }
{
    before.owners.owner == after.owners.owner
        && before.owners.group == after.owners.group
        && has_same_entries(before.list, after.list)
}
