//! Tests of the masks that permissions stand for.
use acl_nfs4::{Mask, mask_of, rest_of};
use acl_posix::Perms;
use bitflags::Flags;

#[test]
fn masks_of_permissions(rt: HostRuntime) {
    for (perms, wanted) in [
        (Perms::READ, Mask::READ_DATA),
        (Perms::WRITE, Mask::WRITE_DATA.union(Mask::APPEND_DATA)),
        (Perms::EXECUTE, Mask::EXECUTE),
    ] {
        assert_eq!(rt; mask_of(perms), wanted);
    }
}

#[test]
fn masks_of_what_permissions_lack(rt: HostRuntime) {
    for (perms, wanted) in [
        (Perms::READ, mask_of(Perms::WRITE.union(Perms::EXECUTE))),
        (Perms::WRITE, mask_of(Perms::READ.union(Perms::EXECUTE))),
        (Perms::EXECUTE, mask_of(Perms::READ.union(Perms::WRITE))),
        (Perms::all(), Mask::empty()),
        (Perms::empty(), mask_of(Perms::all())),
    ] {
        assert_eq!(rt; rest_of(perms), wanted);
    }
}
