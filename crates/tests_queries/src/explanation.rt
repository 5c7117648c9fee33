//! Why an answer is as it is: the two examples, of a user in staff and ops, and of one in ops.
use acl_names::{Gid, Requester, Uid};
use acl_nfs4::Mask;
use acl_posix::{Perms, Tag};
use acl_queries::{Class, class_of, first_speaker, lacks};
use bitflags::Flags;
use std::alloc::Global;
use tests_common::{acl, acl4};

/// bob, in these groups.
fn bob(alloc: Global, groups: &[u32]) -> Option<Requester> {
    let mut gids = Vec::new(alloc);
    for gid in groups {
        gids.push(Gid::new(*gid)?).ok()?;
    }
    Some(Requester::new(Uid::new(1001)?, gids))
}

/// What is reported for a POSIX list: its class, and of each entry that counts what it gives under
/// the mask and what it lacks.
type Explained = (Class, [(Perms, Perms); 2]);

fn posix(alloc: Global) -> Option<Explained> {
    let list = acl(alloc, "u::rwx,g::r,g:60:rw,m::r,o::-")?;
    let (owner, group) = (Uid::new(1000)?, Gid::new(50)?);
    let requester = bob(alloc, &[50, 60])?;
    let asked = Perms::READ | Perms::WRITE;
    let class = class_of(&list, owner, group, &requester);
    let mut reported = [(Perms::all(), Perms::all()); 2];
    let mut count = 0;
    for entry in list.entries() {
        if class.has(group, &requester, entry.tag) && count < 2 {
            reported[count] = (list.effective_perms(entry), lacks(&list, entry, asked));
            count += 1;
        }
    }
    if count == 2 && class.counts(group, &requester, Tag::Mask) {
        Some((class, reported))
    } else {
        None
    }
}

#[test]
fn the_group_class_decides_under_the_mask(rt: HostRuntime) {
    let entry = (Perms::READ, Perms::WRITE);
    assert!(rt; posix(rt.alloc()) == Some((Class::Group, [entry, entry])));
}

/// The place of the entry that speaks first of the bit to bob, who is in ops.
fn speaker(alloc: Global, bit: Mask) -> Option<Option<usize>> {
    let list = acl4(alloc, "A::OWNER@:rwa,D:g:60:w,A::EVERYONE@:rwa")?;
    let (owner, group) = (Uid::new(1000)?, Gid::new(50)?);
    let requester = bob(alloc, &[60])?;
    Some(first_speaker(&list, owner, group, &requester, bit))
}

/// The places are counted from 0 here.
#[test]
fn the_first_speaker_is_reported(rt: HostRuntime) {
    let rows = [
        (Mask::READ_DATA, Some(2)),
        (Mask::WRITE_DATA, Some(1)),
        (Mask::APPEND_DATA, Some(2)),
        (Mask::EXECUTE, None),
    ];
    for (bit, wanted) in rows {
        assert!(rt; speaker(rt.alloc(), bit) == Some(wanted));
    }
}
