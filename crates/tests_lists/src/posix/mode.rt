//! Tests of modes as they are written, of the modes of POSIX lists, and of masks.
use crate::posix::fixture::{mode, perms};
use acl_posix::{Acl, Mode, Perms};
use std::alloc::Global;
use std::test::Fail;
use tests_common::acl;

/// A list with a mask.
const MASKED: &str = "u::rw,u:bob:rw,g::r,g:ops:rwx,m::rw,o::r";

/// The list of a mode.
fn of_mode(alloc: Global, bits: u16) -> Option<Acl> {
    Acl::of_mode(alloc, mode(bits)?).ok()
}

/// The list with a mask, once this mode is set.
fn with_mode(alloc: Global, bits: u16) -> Option<Acl> {
    let mode = mode(bits)?;
    let mut list = acl(alloc, MASKED)?;
    list.chmod(mode);
    Some(list)
}

/// Its mode, its mask, and the mask that is calculated for it.
fn mode_and_masks(list: Option<Acl>) -> Option<(u16, Option<Perms>, Perms)> {
    let list = list?;
    Some((list.mode().bits(), list.mask(), list.calc_mask()))
}

/// The effective permissions of the first two entries and of the last.
fn effective(list: &Acl) -> Option<[Perms; 3]> {
    match list.entries() {
        [owner, user, .., other] => Some([
            list.effective_perms(owner),
            list.effective_perms(user),
            list.effective_perms(other),
        ]),
        _ => None,
    }
}

#[test]
fn three_octal_digits_are_a_mode(rt: HostRuntime) {
    assert!(rt; Mode::from_octal(b"640") == mode(0o640));
}

#[test]
fn a_mask_is_shown_in_the_mode(rt: HostRuntime) -> Result<(), Fail> {
    let none = perms("-").ok_or("permissions")?;
    let read = perms("r").ok_or("permissions")?;
    let all = perms("rwx").ok_or("permissions")?;
    let three = mode_and_masks(of_mode(rt.alloc(), 0o644));
    assert_eq!(rt; three, Some((0o644, None, read)));
    let masked = mode_and_masks(acl(rt.alloc(), MASKED));
    assert_eq!(rt; masked, Some((0o664, perms("rw"), all)));
    let set = mode_and_masks(with_mode(rt.alloc(), 0o600));
    assert_eq!(rt; set, Some((0o600, Some(none), all)));
    Ok(())
}

#[test]
fn a_mask_limits_users_and_not_the_others(rt: HostRuntime) -> Result<(), Fail> {
    let read = perms("r").ok_or("permissions")?;
    let all = perms("rwx").ok_or("permissions")?;
    let list = acl(rt.alloc(), "u::rwx,u:bob:rwx,g::-,m::r,o::rwx").ok_or("a list")?;
    assert_eq!(rt; effective(&list), Some([all, read, all]));
    Ok(())
}
