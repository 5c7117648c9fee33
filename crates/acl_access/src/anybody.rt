//! Whether anybody loses or gains access who isn't a known user.
ghost use Rattle.std.specs.Prelude.{◌≡◌, IfOk};
ghost use Rattle.acl_posix.specs.Validity.{IsValid};
ghost use Rattle.acl_bridge.specs.Files.{view_acl};
ghost use Rattle.acl_bridge.specs.Translation.{translation};
ghost use Rattle.acl_access.specs.Changes.{FindsAnybody};
ghost use Rattle.acl_access.specs.AnybodySteps.{FindsAmong};

use crate::changes::change_for;
use acl_bridge::{AnyAclRef, FileAcl, translate};
use acl_names::{Asker, Requester};
use acl_nfs4::{AboutWho, Acl4, Compared, Difference, difference_with, is_known, stranger};
use acl_posix::Acl;
use std::alloc::{AllocError, Global};

/// A file before and after a change, for everybody but uid 0 and the known users.
#[derive(Clone, Copy)]
struct Others<'a> {
    before: &'a FileAcl<'a>,
    after: &'a FileAcl<'a>,
    known: &'a [Requester],
}

impl<'a> Compared for Others<'a> {
    ghost use Rattle.acl_access.specs.AnybodySteps.{DiffersFor, IsOtherAlike};

    type Difference = Difference;

    ghost Alike = { IsOtherAlike };

    ghost Differs = { DiffersFor };

    fn difference(&self, asker: &Asker) -> Option<Difference> {
        if is_known(self.known, asker.uid) {
            return None;
        }
        match change_for(self.before, self.after, asker) {
            Some(change) => Some(Difference {
                asker: *asker,
                lost: change.lost,
                gained: change.gained,
            }),
            None => None,
        }
    }
}

/// A requester who loses or gains something, out of those for pairs of entries. Fails only if
/// nearly all ids are those of known users.
fn among<E: AboutWho>(
    others: &Others<'_>,
    first: &[E],
    second: &[E],
) -> Result<Option<Difference>, AllocError>
    ensures { IfOk result (FindsAmong E.who first.now second.now others.now) }
{
    let owners = &others.before.owners;
    let other_owners = &others.after.owners;
    match stranger(
        first,
        owners.owner,
        second,
        other_owners.owner,
        others.known,
    ) {
        Some(stranger) => Ok(difference_with(
            others,
            first,
            owners,
            second,
            other_owners,
            stranger,
        )),
        None => Err(AllocError),
    }
}

/// The NFSv4 list that grants the same bits of a file mode.
fn as_nfs4(alloc: Global, acl: &Acl) -> Result<Acl4, AllocError>
    ensures list { IfOk result (λ aces. aces ≡ translation acl.now) }
    ensures valid { IsValid acl.now }
{
    // For the proof only: calling a reader brings the invariant of `acl` into scope.
    let _entries = acl.entries();
    translate(alloc, acl)
}

/// Whether anybody but uid 0 and the known users loses or gains access when `before` becomes
/// `after`, each with its own owner, group and list. `None` exactly if every requester of another
/// uid, in whatever groups, is granted the same as before; else a requester in at most two groups
/// who isn't, with what is lost and gained. If the style of the list changes, it compares each
/// permission by itself, and no request of several. Fails only if memory runs out, or nearly all
/// ids are those of known users.
pub fn change_for_anybody(
    alloc: Global,
    before: &FileAcl<'_>,
    after: &FileAcl<'_>,
    known: &[Requester],
) -> Result<Option<Difference>, AllocError>
    ensures { IfOk result (FindsAnybody known.now (view_acl before.now) (view_acl after.now)) }
{
    let others = Others {
        before,
        after,
        known,
    };
    match (before.list, after.list) {
        (AnyAclRef::Posix(first), AnyAclRef::Posix(second)) => {
            among(&others, first.entries(), second.entries())
        }
        (AnyAclRef::Posix(first), AnyAclRef::Nfs4(second)) => {
            among(&others, as_nfs4(alloc, first)?.aces(), second.aces())
        }
        (AnyAclRef::Nfs4(first), AnyAclRef::Posix(second)) => {
            among(&others, first.aces(), as_nfs4(alloc, second)?.aces())
        }
        (AnyAclRef::Nfs4(first), AnyAclRef::Nfs4(second)) => {
            among(&others, first.aces(), second.aces())
        }
    }
}
