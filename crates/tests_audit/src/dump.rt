//! A dump, carried out over a new tree, makes the tree again.
use crate::office::{ALICE, new_tree, path, tree_after};
use acl_audit::{close, push_creation, push_lists};
use acl_names::Directory;
use acl_posix::Acl;
use acl_tree::{Node, NodeAcl, Path, Request, Tree};
use std::alloc::Global;
use tests_common::directory;

/// A tree with nodes of both styles, a default list, an owner in no group, and an NFSv4 root that
/// things would inherit from.
const BOTH_STYLES: &str = "create dir /a bob 750
set /a default u::rwx,g::rx,g:guest:r,m::rx,o::-
create dir /a/b 77 700
create file /a/b/c carol 604
set / nfs4 A:fd:OWNER@:rwax,A:fdg:staff@example.org:r,A:fd:EVERYONE@:r
create file /d alice 640
create dir /e alice 700
";

/// The commands of the tree's dump.
fn requests(alloc: Global, tree: &Tree) -> Option<Vec<Request>> {
    let mut requests = Vec::new(alloc);
    requests.push(close(alloc, &path(alloc, "/")?).ok()?).ok()?;
    let entries = tree.entries(alloc).ok()?;
    for entry in &entries {
        let path = Path::read(alloc, entry.0).ok()?;
        push_creation(alloc, &path, entry.1, &mut requests).ok()?;
    }
    for entry in &entries {
        let path = Path::read(alloc, entry.0).ok()?;
        push_lists(alloc, &path, entry.1, &mut requests).ok()?;
    }
    Some(requests)
}

/// The new tree after the dump's commands.
fn again(alloc: Global, names: &Directory, tree: &Tree) -> Option<Tree> {
    let mut made = new_tree(alloc)?;
    for request in &requests(alloc, tree)? {
        let _reply = made.apply(alloc, request, names).ok()?;
    }
    Some(made)
}

fn are_same(one: &Option<Acl>, other: &Option<Acl>) -> bool {
    match (one, other) {
        (Some(one), Some(other)) => one.has_same_entries(other),
        (None, None) => true,
        _ => false,
    }
}

fn has_same_lists(one: &NodeAcl, other: &NodeAcl) -> bool {
    match (one, other) {
        (
            NodeAcl::Posix { access, default },
            NodeAcl::Posix {
                access: other_access,
                default: other_default,
            },
        ) => access.has_same_entries(other_access) && are_same(default, other_default),
        (NodeAcl::Nfs4 { acl }, NodeAcl::Nfs4 { acl: other }) => acl.has_same_entries(other),
        _ => false,
    }
}

fn is_same(one: &Node, other: &Node) -> bool {
    one.kind == other.kind
        && one.owner == other.owner
        && one.group == other.group
        && has_same_lists(&one.acl, &other.acl)
}

/// Whether both trees have the same nodes at the same paths.
fn have_same_nodes(alloc: Global, tree: &Tree, made: &Tree) -> Option<bool> {
    let wanted = tree.entries(alloc).ok()?;
    for entry in &wanted {
        let path = Path::read(alloc, entry.0).ok()?;
        if !is_same(entry.1, made.node(&path)?) {
            return Some(false);
        }
    }
    Some(made.len() == tree.len())
}

/// How many nodes the session leaves, if its dump makes them again.
fn nodes_made_again(alloc: Global, session: &str) -> Option<usize> {
    let names = directory(alloc)?;
    let tree = tree_after(alloc, &names, session)?;
    let made = again(alloc, &names, &tree)?;
    if have_same_nodes(alloc, &tree, &made)? {
        Some(tree.len())
    } else {
        None
    }
}

#[test]
fn the_office_is_made_again(rt: HostRuntime) {
    assert_eq!(rt; nodes_made_again(rt.alloc(), ALICE), Some(3));
}

#[test]
fn nodes_of_both_styles_are_made_again(rt: HostRuntime) {
    assert_eq!(rt; nodes_made_again(rt.alloc(), BOTH_STYLES), Some(6));
}
