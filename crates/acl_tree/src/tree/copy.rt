//! Copies of trees.
ghost use Rattle.std.specs.Prelude.{◌≡◌, IfOk};

use super::Tree;
use std::alloc::{AllocError, Global};

impl Tree {
    /// Clones the tree, with its lists. Fails only if memory runs out.
    pub fn try_clone(&self, alloc: Global) -> Result<Tree, AllocError>
        ensures { IfOk result (λ clone. clone ≡ self.now) }
    {
        let entries = self.entries(alloc)?;
        let mut clone = Tree::without_nodes(alloc, self.umask);
        // From the last path to the first, as the finite map of a list is built from its end.
        for copied in 0..entries.len() {
            let (path, node) = entries[entries.len() - 1 - copied];
            clone.insert(alloc, path, node.try_clone(alloc)?)?;
        }
        Ok(clone)
    }
}
