//! The office's tree, and sessions on it. A function answers none if memory or a text is refused.
use acl_lang::{MAX_TEXT_LEN, read_text};
use acl_names::{Directory, Gid, Uid};
use acl_posix::Mode;
use acl_tree::{Path, Style, Tree};
use std::alloc::Global;

/// What alice does in the worked example: a directory that she shares with bob, and a file in it.
pub const ALICE: &str = "create dir /plans alice 700
set /plans access u::rwx,u:bob:rwx,g::-,m::rwx,o::-
set /plans default u::rwx,u:bob:rwx,g::-,m::rwx,o::-
create file /plans/budget alice 660
";

/// The tree that the office's setup opens: a root of root's with mode 755, under the umask 022.
pub fn new_tree(alloc: Global) -> Option<Tree> {
    let (owner, group) = (Uid::new(0)?, Gid::new(0)?);
    let (mode, umask) = (Mode::from_bits(0o755)?, Mode::from_bits(0o022)?);
    Tree::new(alloc, owner, group, mode, Style::Posix, umask).ok()
}

/// Carries out the session's commands, whatever they are answered.
pub fn run(alloc: Global, names: &Directory, tree: &mut Tree, session: &str) -> Option<()> {
    if session.len() > MAX_TEXT_LEN {
        return None;
    }
    let requests = read_text(alloc, session.as_bytes(), names).ok()?;
    for numbered in &requests {
        let _reply = tree.apply(alloc, &numbered.request, names).ok()?;
    }
    Some(())
}

/// The tree that the session leaves.
pub fn tree_after(alloc: Global, names: &Directory, session: &str) -> Option<Tree> {
    let mut tree = new_tree(alloc)?;
    run(alloc, names, &mut tree, session)?;
    Some(tree)
}

pub fn path(alloc: Global, at: &str) -> Option<Path> {
    Path::read(alloc, at.as_bytes()).ok()
}
