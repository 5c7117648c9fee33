//! The listing of a tree.
ghost use Rattle.std.specs.Prelude.{◌≡◌, ◌++◌, true, ℕ, All, List, OnOk, map as each};
ghost use Rattle.std.specs.Map.Iter.{deref_pair};
ghost use Rattle.acl_listings.specs.Numbered.{ArePrintable, IsPrintable, SaysFiles, file_text};
ghost use Rattle.acl_listings.specs.Numbered.{files_text, lists_text};
ghost use Rattle.acl_tree.specs.Entries.{Entry, path_of};
ghost use Rattle.acl_tree.specs.Path.{is_path};
ghost use Rattle.acl_tree.specs.Shape.{NodesAreAtPaths};
ghost use Rattle.acl_tree.specs.Walk.{IsWalk};
ghost use Rattle.acl_tree.specs.declared.node.Node.{Node as NodeValue};
ghost use Rattle.acl_tree_queries.specs.ListAnswer.{HasPathsOf, file_at, lists_of};

use acl_listings::{push_header, push_nfs4, push_posix};
use acl_tree::{Node, NodeAcl, Tree};
use std::alloc::{AllocError, Global};

/// Appends the lines of the lists.
fn push_lists(acl: &NodeAcl, out: &mut Vec<u8>) -> Result<(), AllocError>
    ensures text { OnOk result (out.new.items ≡ out.old.items ++ lists_text (lists_of acl.now)) }
    ensures printable { OnOk result (ArePrintable (lists_of acl.now)) }
{
    match acl {
        NodeAcl::Posix { access, default } => push_posix(access, default, out),
        NodeAcl::Nfs4 { acl } => push_nfs4(acl, out),
    }
}

/// Appends the block of the node at the path.
fn push_node(path: &[u8], node: &Node, out: &mut Vec<u8>) -> Result<(), AllocError>
    requires { is_path path.now ≡ true }
    ensures text { OnOk result (out.new.items
        ≡ out.old.items ++ file_text (file_at (path.now, node.now))) }
    ensures printable { OnOk result (IsPrintable (file_at (path.now, node.now))) }
{
    push_header(path, node.owner, node.group, out)?;
    push_lists(&node.acl, out)?;
    out.push(b'\n')?;
    Ok(())
}

/// Appends the blocks of the nodes.
fn push_nodes(entries: &[(&[u8], &Node)], out: &mut Vec<u8>) -> Result<(), AllocError>
    requires { All (λ entry. is_path (path_of entry) ≡ true)
        (each (deref_pair {K = List ℕ} {X = NodeValue}) entries.now) }
    ensures text { OnOk result (out.new.items ≡ out.old.items
        ++ files_text (each file_at (each (deref_pair {K = List ℕ} {X = NodeValue}) entries.now))) }
    ensures printable { OnOk result (All IsPrintable
        (each file_at (each (deref_pair {K = List ℕ} {X = NodeValue}) entries.now))) }
{
    for (path, node) in entries {
        push_node(path, node, out)?;
    }
    Ok(())
}

/// Appends the listing of the tree, which is read as its nodes.
pub(super) fn push_tree(alloc: Global, tree: &Tree, out: &mut Vec<u8>) -> Result<(), AllocError>
    requires { NodesAreAtPaths tree.now }
    ensures { OnOk result ((entries : List Entry) × IsWalk tree.now entries
        × (out.new.items ≡ out.old.items ++ files_text (each file_at entries))
        × SaysFiles (each file_at entries) (files_text (each file_at entries))
        × HasPathsOf entries (files_text (each file_at entries))) }
{
    let entries = tree.walk(alloc)?;
    push_nodes(entries.as_slice(), out)
}
