//! The session that makes a tree again.
ghost use Rattle.std.specs.Prelude.{◌++◌, ◌∷◌, [], ℕ, IfErr, List, OnOk, map as each};
ghost use Rattle.std.specs.FinMap as map;
ghost use Rattle.std.specs.List.{flat_map};
ghost use Rattle.std.specs.Map.Iter.{deref_pair};
ghost use Rattle.acl_names.specs.Bytes.{newline};
ghost use Rattle.acl_tree.specs.declared.node.Node.{Node as NodeValue};
ghost use Rattle.acl_audit.specs.Dump.{creation, make_commands, set_commands};
ghost use Rattle.acl_tree_queries.specs.TreeMeaning.{IsAnswerFailure};
ghost use Rattle.acl_tree_queries.specs.DumpText.{AddsLines, HasLongLine, closing_line};

use super::lines::{push_creation, push_lists};
use acl_cli::Failure;
use acl_tree::{Node, Tree};
use std::alloc::Global;

/// Appends the lines that create the nodes, each after the directory that it lies in.
fn push_creations<'n>(entries: &[(&[u8], &Node)], out: &mut Vec<u8>) -> Result<(), Failure<'n>>
    ensures lines { OnOk result (AddsLines
        (flat_map creation (each (deref_pair {K = List ℕ} {X = NodeValue}) entries.now))
        out.old.items out.new.items) }
    ensures refused { IfErr result (IsAnswerFailure (HasLongLine
        (flat_map creation (each (deref_pair {K = List ℕ} {X = NodeValue}) entries.now)))) }
{
    for (path, node) in entries {
        push_creation(path, node, out)?;
    }
    Ok(())
}

/// Appends the lines that give the nodes their lists.
fn push_settings<'n>(entries: &[(&[u8], &Node)], out: &mut Vec<u8>) -> Result<(), Failure<'n>>
    ensures lines { OnOk result (AddsLines
        (flat_map set_commands (each (deref_pair {K = List ℕ} {X = NodeValue}) entries.now))
        out.old.items out.new.items) }
    ensures refused { IfErr result (IsAnswerFailure (HasLongLine
        (flat_map set_commands (each (deref_pair {K = List ℕ} {X = NodeValue}) entries.now)))) }
{
    for (path, node) in entries {
        push_lists(path, &node.acl, out)?;
    }
    Ok(())
}

/// The line that closes the root, so that nothing that is created in it inherits.
const CLOSING: &[u8] = b"set / access u::-,g::-,o::-\n";

/// Appends the session that makes the tree again over the tree that it began as: the root is
/// closed, each node created, and then each given its lists. It is refused exactly if a line is
/// longer than lines may be.
pub(super) fn push_dump<'n>(
    alloc: Global,
    tree: &Tree,
    out: &mut Vec<u8>,
) -> Result<(), Failure<'n>>
    ensures lines { OnOk result (AddsLines (make_commands tree.now)
        (out.old.items ++ (closing_line ++ newline ∷ [])) out.new.items) }
    ensures refused { IfErr result (IsAnswerFailure (HasLongLine (make_commands tree.now))) }
{
    let entries = tree.entries(alloc)?;
    out.extend_from_slice(CLOSING)?;
    push_creations(entries.as_slice(), out)?;
    push_settings(entries.as_slice(), out)
}
