//! Tests of sets of bits of any kind.
use acl_posix::{Perms, bits_if, without};
use bitflags::Flags;

#[test]
fn bits_that_are_left_and_bits_on_a_condition(rt: HostRuntime) {
    let left = without(Perms::all(), Perms::WRITE);
    assert!(rt; left == Perms::READ.union(Perms::EXECUTE));
    assert!(rt; bits_if(Perms::WRITE, true) == Perms::WRITE);
    assert!(rt; bits_if(Perms::WRITE, false) == Perms::empty());
}
