//! Tests of the mode of an NFSv4 list, and of setting it.
use crate::nfs4::fixture::printed;
use crate::texts::is_text;
use acl_posix::Mode;
use std::alloc::Global;
use tests_common::acl4;

fn mode_shown(alloc: Global, text: &str) -> Option<u16> {
    Some(acl4(alloc, text)?.mode4().bits())
}

/// The list after the mode was set so many times.
fn with_mode(alloc: Global, text: &str, mode: u16, times: u32) -> Option<String> {
    let mut list = acl4(alloc, text)?;
    for _ in 0..times {
        list.chmod4(alloc, Mode::from_bits(mode)?).ok()?;
    }
    printed(alloc, &list)
}

/// The list of the example of a mode set on a file.
const SHARED: &str =
    "A::OWNER@:rwatTcC,A::bob@example.org:rwa,A:g:ops@example.org:r,A::EVERYONE@:r";

#[test]
fn the_mode_of_a_list(rt: HostRuntime) {
    const ROWS: [(&str, u16); 3] = [
        (SHARED, 0o644),
        ("D::EVERYONE@:r,A::OWNER@:r", 0o000),
        // To write is to append, too.
        ("A::OWNER@:w", 0o000),
    ];
    for (list, wanted) in ROWS {
        assert_eq!(rt; mode_shown(rt.alloc(), list), Some(wanted), "{list}");
    }
}

#[test]
fn a_mode_that_is_set(rt: HostRuntime) {
    const ROWS: [(&str, u16, &str); 2] = [
        (
            SHARED,
            0o604,
            "A::OWNER@:rwa\nD::OWNER@:x\nA::OWNER@:tTcC\nD::bob@example.org:rwax\nD:g:ops@example.org:rwax\nD::GROUP@:rwax\nA::EVERYONE@:r\n",
        ),
        (
            "A:fd:bob:rx",
            0o750,
            "A::OWNER@:rwax\nA:fdi:bob@example.org:rx\nA::bob@example.org:rx\nD::bob@example.org:wa\nA::GROUP@:rx\nD::GROUP@:wa\n",
        ),
    ];
    for (list, mode, wanted) in ROWS {
        for times in [1, 2] {
            let set = with_mode(rt.alloc(), list, mode, times);
            assert!(rt; is_text(set, wanted) == Some(true), "{list} {times}");
        }
    }
}
