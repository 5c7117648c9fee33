//! Who asks and is in at most two groups.
use acl_names::{Asker, Gid, Uid};
use std::alloc::Global;

/// Someone with the uid 7 in the groups of these numbers, where 0 stands for none.
fn asker(gid: u32, other_gid: u32) -> Option<Asker> {
    Some(Asker {
        uid: Uid::new(7)?,
        gid: if gid == 0 { None } else { Gid::new(gid) },
        other_gid: if other_gid == 0 {
            None
        } else {
            Gid::new(other_gid)
        },
    })
}

/// Whether the asker in the groups of these numbers is in 50, whether in 60, and how many groups
/// the requester has that is the asker.
fn groups_of(alloc: Global, gid: u32, other_gid: u32) -> Option<(bool, bool, usize)> {
    let asker = asker(gid, other_gid)?;
    let is_in_50 = asker.is_in_group(Gid::new(50)?);
    let is_in_60 = asker.is_in_group(Gid::new(60)?);
    let requester = asker.requester(alloc).ok()?;
    if requester.uid() == asker.uid {
        Some((is_in_50, is_in_60, requester.gids().len()))
    } else {
        None
    }
}

#[test]
fn an_asker_has_at_most_two_groups(rt: HostRuntime) {
    const ROWS: [(u32, u32, (bool, bool, usize)); 4] = [
        (0, 0, (false, false, 0)),
        (50, 0, (true, false, 1)),
        (0, 60, (false, true, 1)),
        (50, 60, (true, true, 2)),
    ];
    for (gid, other_gid, wanted) in ROWS {
        let groups = groups_of(rt.alloc(), gid, other_gid);
        assert_eq!(rt; groups, Some(wanted), "{gid} {other_gid}");
    }
}
