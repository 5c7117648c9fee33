//! The nodes of a tree, in the order of a walk.
ghost use Rattle.std.specs.Prelude.{◌≡◌, ℕ, List, map as each, IfOk};
ghost use Rattle.std.specs.Cmp.Lexicographic.{slice_cmp};
ghost use Rattle.std.specs.List.Sorted.{IsPermutation, IsSortedByKey};
ghost use Rattle.std.specs.Map.Iter.{deref_pair};
ghost use Rattle.std.specs.Ordering.{nat_cmp};
ghost use Rattle.acl_tree.specs.Entries.{path_of};
ghost use Rattle.acl_tree.specs.Walk.{IsWalk, rank_of, walk_key};
ghost use Rattle.acl_tree.specs.declared.node.Node.{Node as NodeValue};

use super::Tree;
use crate::Node;
use std::alloc::{AllocError, Global};
use std::cmp::Ordering;

/// The rank of a byte of a path: a slash is before every other.
fn rank(byte: u8) -> u8
    ensures { result ≡ rank_of byte }
{
    if byte == b'/' { 0 } else { byte }
}

/// Compares two paths step by step.
fn compare_steps(one: &[u8], other: &[u8]) -> Ordering
    ensures { result ≡ slice_cmp nat_cmp (walk_key one.now) (walk_key other.now) }
{
    let Some((first, more)) = one.split_first() else {
        return if other.is_empty() {
            Ordering::Equal
        } else {
            Ordering::Less
        };
    };
    let Some((second, rest)) = other.split_first() else {
        return Ordering::Greater;
    };
    match rank(*first).cmp(&rank(*second)) {
        Ordering::Equal => compare_steps(more, rest),
        unequal => unequal,
    }
}

/// Sorts the entries by path, step by step.
fn sort_by_steps(entries: &mut Vec<(&[u8], &Node)>)
    ensures permutation { IsPermutation (each (deref_pair {K = List ℕ} {X = NodeValue})
        entries.old.items) (each deref_pair entries.new.items) }
    ensures sorted { IsSortedByKey (λ entry. walk_key (path_of entry)) (slice_cmp nat_cmp)
        (each (deref_pair {K = List ℕ} {X = NodeValue}) entries.new.items) }
{
    entries.sort_unstable_by(|one, other| compare_steps(one.0, other.0));
}

impl Tree {
    /// The nodes with the bytes of their paths, in the order of a walk: each directory comes before
    /// its content, and that before anything else. Fails only if memory runs out.
    pub fn walk(&self, alloc: Global) -> Result<Vec<(&[u8], &Node)>, AllocError>
        ensures { IfOk result (λ entries. IsWalk self.now
            (each (deref_pair {K = List ℕ} {X = NodeValue}) entries.items)) }
    {
        let mut entries = self.entries(alloc)?;
        sort_by_steps(&mut entries);
        Ok(entries)
    }
}
