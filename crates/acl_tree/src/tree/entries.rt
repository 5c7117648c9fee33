//! The nodes of a tree, sorted by path.
ghost use Rattle.std.specs.Prelude.{◌≡◌, ℕ, List, map as each, IfOk, bytes_eq};
ghost use Rattle.std.specs.Cmp.Lexicographic.{slice_cmp};
ghost use Rattle.std.specs.FinMap as map;
ghost use Rattle.std.specs.List.{IsDistinct};
ghost use Rattle.std.specs.List.Sorted.{IsPermutation, IsSortedByKey};
ghost use Rattle.std.specs.Map.{keys_of};
ghost use Rattle.std.specs.Map.Iter.{deref_pair};
ghost use Rattle.std.specs.Ordering.{nat_cmp};
ghost use Rattle.acl_tree.specs.Entries.{Entry, path_of};
ghost use Rattle.acl_tree.specs.declared.node.Node.{Node as NodeValue};

use super::Tree;
use crate::Node;
use indexmap::IndexMap;
use std::alloc::{AllocError, Global};

/// The entries of the map, in its order.
fn entries_of(
    alloc: Global,
    nodes: &IndexMap<Vec<u8>, Node>,
) -> Result<Vec<(&[u8], &Node)>, AllocError>
    ensures shown { IfOk result (λ entries. each (deref_pair {K = List ℕ} {X = NodeValue})
        entries.items
        ≡ each {B = Entry} (λ entry. (entry.0.items, entry.1)) nodes.now.entries) }
    ensures distinct { IsDistinct (λ one other. bytes_eq one.items other.items)
        (keys_of nodes.now.entries) }
{
    let mut entries = Vec::with_capacity(alloc, nodes.len())?;
    for (path, node) in nodes {
        entries.push((path.as_slice(), node))?;
    }
    Ok(entries)
}

/// Sorts the entries by path.
fn sort(entries: &mut Vec<(&[u8], &Node)>)
    ensures permutation { IsPermutation (each (deref_pair {K = List ℕ} {X = NodeValue})
        entries.old.items) (each deref_pair entries.new.items) }
    ensures sorted { IsSortedByKey path_of (slice_cmp nat_cmp)
        (each (deref_pair {K = List ℕ} {X = NodeValue}) entries.new.items) }
{
    entries.sort_unstable_by(|one, other| one.0.cmp(other.0));
}

impl Tree {
    /// The nodes with the bytes of their paths, sorted by these bytes: a directory comes before its
    /// content. Fails only if memory runs out.
    pub fn entries(&self, alloc: Global) -> Result<Vec<(&[u8], &Node)>, AllocError>
        ensures { IfOk result (λ entries. each (deref_pair {K = List ℕ} {X = NodeValue})
            entries.items ≡ map.entries self.now.nodes) }
    {
        let mut entries = entries_of(alloc, &self.nodes)?;
        sort(&mut entries);
        Ok(entries)
    }
}
