//! Lists of as many entries as may be.
use crate::entries::text_fault;
use acl_forms::read_entries;
use acl_nfs4::AceFault;
use std::alloc::Global;
use tests_common::directory;

/// So many times the same entry.
fn entries(alloc: Global, count: usize) -> Option<String> {
    let mut text = String::new(alloc);
    for _ in 0..count {
        text.push_str("everyone@:r-------------:-------:allow\n")
            .ok()?;
    }
    Some(text)
}

/// How many entries are read of so many.
fn count_of(alloc: Global, count: usize) -> Option<usize> {
    let names = directory(alloc)?;
    let text = entries(alloc, count)?;
    let list = read_entries(alloc, text.as_bytes(), &names).ok()?;
    Some(list.aces().len())
}

fn fault_of(alloc: Global, count: usize) -> Option<AceFault> {
    text_fault(alloc, entries(alloc, count)?.as_str())
}

/// 16 entries stand in the value itself, and 128 are the most.
#[test]
fn as_many_as_may_be(rt: HostRuntime) {
    let alloc = rt.alloc();
    for count in [0, 1, 16, 17, 128] {
        assert_eq!(rt; count_of(alloc, count), Some(count));
    }
    assert_eq!(rt; fault_of(alloc, 129), Some(AceFault::TooMany));
}
