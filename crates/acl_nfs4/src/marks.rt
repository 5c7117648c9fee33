//! Marks of users and groups: a fast test whether a list may have an entry for somebody.
ghost use Rattle.std.specs.Prelude.{◌≡◌, ◌<◌};
ghost use Rattle.acl_nfs4.specs.Marks.{mark_of};

use crate::Who;

/// How many marks there are.
pub(crate) const MARKS: usize = 64;

/// The mark of a `who`. Those whose ids differ by a multiple of 64 share one.
pub(crate) fn mark_of(who: &Who) -> usize
    ensures value { result ≡ mark_of who.now }
    ensures within { result < MARKS }
{
    let id = match *who {
        Who::Owner => 0,
        Who::Group => 0,
        Who::Everyone => 0,
        Who::User(uid) => uid.value(),
        Who::NamedGroup(gid) => gid.value(),
    };
    id as usize % MARKS
}
