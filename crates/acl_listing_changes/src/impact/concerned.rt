//! Who gains or loses access by changes: of the users to evaluate, and of anybody.
ghost use Rattle.std.specs.Prelude.{◌≡◌, ◌++◌, ◌&&◌, OnOk, nat_eq};
ghost use Rattle.acl_bridge.specs.Files.{view_acl};
ghost use Rattle.acl_listing_changes.specs.Concerns.{concern_of};
ghost use Rattle.acl_listing_changes.specs.Impacting.{Reports, ReportsImpact, reported_at};

use super::asked::{push_all_who_may, push_anybody, push_those};
use crate::impact_lines::push_path;
use acl_access::is_same_file;
use acl_bridge::FileAcl;
use acl_people::People;
use std::alloc::{AllocError, Global};

/// Whose lines are printed.
#[derive(Clone, Copy)]
pub(super) struct Concerned<'t> {
    /// The users to evaluate.
    pub people: &'t People,
    /// Whether each affected user has a line, and not only the first.
    pub each: bool,
    /// Whether somebody who is none of the users has a line, if no user is affected.
    pub somebody: bool,
}

/// Whether `somebody` is set, and a text that had `kept` bytes and has `now` hasn't grown.
fn nothing_yet(somebody: bool, kept: usize, now: usize) -> bool
    ensures { result ≡ (somebody && nat_eq now kept) }
{
    somebody && now == kept
}

impl<'t> Concerned<'t> {
    /// Appends the lines of those who gain or lose access when the file at this path becomes
    /// another. Fails only if memory runs out.
    pub(super) fn push_impact(
        &self,
        alloc: Global,
        before: &FileAcl<'_>,
        after: &FileAcl<'_>,
        path: &[u8],
        out: &mut Vec<u8>,
    ) -> Result<(), AllocError>
        ensures { OnOk result (Reports (ReportsImpact (concern_of self.now) (view_acl before.now)
            (view_acl after.now) path.now) out.old.items out.new.items) }
    {
        // With the same owner, group and list nobody is evaluated, however many users there are.
        if is_same_file(before, after) {
            return Ok(());
        }
        let kept = out.len();
        push_those(self.each, before, after, self.people, path, out)?;
        let now = out.len();
        let asked = nothing_yet(self.somebody, kept, now);
        let known = self.people.requesters.as_slice();
        push_anybody(alloc, asked, known, before, after, path, out)
    }

    /// Appends the line of a path whose file is gone, or new, and, if each user has a line, those
    /// of users who had a permission on it, or have one. Fails only if memory runs out.
    pub(super) fn push_path(
        &self,
        gone: bool,
        file: &FileAcl<'_>,
        path: &[u8],
        out: &mut Vec<u8>,
    ) -> Result<(), AllocError>
        ensures { OnOk result (out.new.items
            ≡ out.old.items ++ reported_at gone (concern_of self.now) path.now (view_acl file.now)) }
    {
        push_path(gone, path, out)?;
        push_all_who_may(self.each, gone, file, self.people, path, out)
    }
}
