//! Tests of comparisons of NFSv4 lists.
use crate::files::owner_and_group;
use acl_names::{Asker, Gid, Uid};
use acl_nfs4::{Difference, Owners, read_letters};
use std::alloc::Global;
use std::test::Fail;
use tests_common::acl4;

/// A difference: the uid, the gid and the other gid of whom it is reported, where 0 stands for
/// none, and the bits that are lost and gained.
type Reported = (u32, u32, u32, &'static str, &'static str);

/// Two lists, the bits that are asked, and what they decide differently of them, if anything.
const ROWS: [(&str, &str, &str, Option<Reported>); 6] = [
    (
        "A::OWNER@:r,A::EVERYONE@:r",
        "A::EVERYONE@:r",
        "rwaxdDtTnNcCoy",
        None,
    ),
    // In one of the groups, or in neither, all are decided alike.
    (
        "A:g:ops:r,D:g:guest:r",
        "D:g:guest:r,A:g:ops:r",
        "r",
        Some((65534, 60, 70, "r", "")),
    ),
    // A stranger: nobody, who has the number 65534, is the first to be tried.
    (
        "D::root:r,A::EVERYONE@:r",
        "D::root:r",
        "r",
        Some((65534, 0, 0, "r", "")),
    ),
    (
        "D::65534:r,D::65533:r,A::EVERYONE@:r",
        "D::65534:r",
        "r",
        Some((65532, 0, 0, "r", "")),
    ),
    // The owner.
    (
        "A::EVERYONE@:r",
        "A::OWNER@:w,A::EVERYONE@:r",
        "rw",
        Some((1000, 0, 0, "", "w")),
    ),
    // Bob loses what he gains in the other direction.
    (
        "D::bob:r,A::EVERYONE@:rx",
        "A::bob:w,A::EVERYONE@:r",
        "rwx",
        Some((1001, 0, 0, "x", "rw")),
    ),
];

/// What two lists decide differently of these bits for a file of alice and the group staff.
fn between(alloc: Global, first: &str, second: &str, letters: &str) -> Option<Option<Difference>> {
    let (alice, staff) = owner_and_group()?;
    let asked = read_letters(letters.as_bytes())?;
    let before = acl4(alloc, first)?;
    let after = acl4(alloc, second)?;
    let owners = Owners {
        owner: alice,
        group: staff,
    };
    Some(before.difference(&owners, &after, &owners, asked))
}

/// The difference that is reported.
fn reported((uid, gid, other_gid, lost, gained): Reported) -> Option<Difference> {
    Some(Difference {
        asker: Asker {
            uid: Uid::new(uid)?,
            gid: if gid == 0 { None } else { Gid::new(gid) },
            other_gid: if other_gid == 0 {
                None
            } else {
                Gid::new(other_gid)
            },
        },
        lost: read_letters(lost.as_bytes())?,
        gained: read_letters(gained.as_bytes())?,
    })
}

#[test]
fn what_two_lists_decide_differently(rt: HostRuntime) -> Result<(), Fail> {
    for (first, second, letters, difference) in ROWS {
        let wanted = match difference {
            Some(row) => Some(reported(row).ok_or("a difference")?),
            None => None,
        };
        let found = between(rt.alloc(), first, second, letters);
        assert_eq!(rt; found, Some(wanted), "{first} {second}");
    }
    Ok(())
}
