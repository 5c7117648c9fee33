//! Entries whose names are resolved by whatever knows them, and ids in decimal.
use acl_forms::{Places, push_short_entry, read_entries};
use acl_names::ResolveNames;
use acl_nfs4::{AceFault, Acl4, NamesInDomain, push_short_ace, read_aces_by};
use std::alloc::Global;
use tests_common::{acl4, directory};

fn read<N: ResolveNames>(
    alloc: Global,
    freebsd: bool,
    text: &str,
    names: &N,
) -> Result<Acl4, AceFault> {
    if freebsd {
        read_entries(alloc, text.as_bytes(), names)
    } else {
        read_aces_by(alloc, text.as_bytes(), names)
    }
}

/// Whether the text of either form and the text of the project's own form spell one list.
fn is_same_by_names(alloc: Global, freebsd: bool, text: &str, own: &str) -> Option<bool> {
    let names = directory(alloc)?;
    let list = read(alloc, freebsd, text, &names).ok()?;
    let wanted = acl4(alloc, own)?;
    Some(list.has_same_entries(&wanted))
}

#[test]
fn what_entries_say(rt: HostRuntime) {
    const ROWS: [(bool, &str, &str); 4] = [
        (
            false,
            "A:fd:alice:rw,D:g:ops:x # ops\n A : : GROUP@ : r",
            "A:fd:1000:rw,D:g:60:x,A::GROUP@:r",
        ),
        (
            false,
            "A::OWNER@:rwa,A::77:x,U:S:EVERYONE@:w",
            "A::OWNER@:rwa,A::77:x,U:S:EVERYONE@:w",
        ),
        (
            true,
            "user:alice:rw:fd:allow,group:ops:x:deny # ops\n group@:r::allow",
            "A:fd:1000:rw,D:g:60:x,A::GROUP@:r",
        ),
        (
            true,
            "owner@:rwp::allow,user:77:x::allow,everyone@:w:S:audit",
            "A::OWNER@:rwa,A::77:x,U:S:EVERYONE@:w",
        ),
    ];
    for (freebsd, text, own) in ROWS {
        assert!(rt;
            is_same_by_names(rt.alloc(), freebsd, text, own) == Some(true),
            "{text}"
        );
    }
}

fn fault_by_names(alloc: Global, freebsd: bool, text: &str) -> Option<AceFault> {
    let names = directory(alloc)?;
    read(alloc, freebsd, text, &names).err()
}

#[test]
fn texts_that_are_refused(rt: HostRuntime) {
    const ROWS: [(bool, &str, AceFault); 8] = [
        (false, "A::dave:r", AceFault::UnknownName),
        (false, "A:g:alice:r", AceFault::UnknownName),
        // These names stand in no domain.
        (false, "A::alice@example.org:r", AceFault::Syntax),
        (false, "A::owner@:r", AceFault::Syntax),
        (false, "A:i:OWNER@:r", AceFault::InheritOnly),
        (true, "user:dave:r::allow", AceFault::UnknownName),
        (true, "user::r::allow", AceFault::Syntax),
        (true, "owner@:r:i:allow", AceFault::InheritOnly),
    ];
    for (freebsd, text, wanted) in ROWS {
        assert_eq!(rt;
            fault_by_names(rt.alloc(), freebsd, text),
            Some(wanted),
            "{text}"
        );
    }
}

/// The fault of a text with names in example.org, or whether it spells the list.
fn in_domain(
    alloc: Global,
    freebsd: bool,
    text: &str,
    own: &str,
) -> Option<Result<bool, AceFault>> {
    let directory = directory(alloc)?;
    let wanted = acl4(alloc, own)?;
    match read(
        alloc,
        freebsd,
        text,
        &NamesInDomain {
            directory: &directory,
        },
    ) {
        Ok(list) => Some(Ok(list.has_same_entries(&wanted))),
        Err(fault) => Some(Err(fault)),
    }
}

#[test]
fn names_in_a_domain(rt: HostRuntime) {
    const ALICE: &str = "A::1000:r";
    const ROWS: [(bool, &str, Result<bool, AceFault>); 8] = [
        (false, "A::alice@example.org:r", Ok(true)),
        (false, "A::alice:r", Ok(true)),
        (true, "user:alice@example.org:r::allow", Ok(true)),
        (true, "user:1000:r::allow", Ok(true)),
        (false, "A::alice@example.com:r", Err(AceFault::UnknownName)),
        (false, "A::alice@:r", Err(AceFault::Syntax)),
        (
            true,
            "user:alice@example.com:r::allow",
            Err(AceFault::UnknownName),
        ),
        (
            true,
            "user:1000@example.org:r::allow",
            Err(AceFault::Syntax),
        ),
    ];
    for (freebsd, text, wanted) in ROWS {
        assert!(rt;
            in_domain(rt.alloc(), freebsd, text, ALICE) == Some(wanted),
            "{text}"
        );
    }
}

/// How the one entry of a list is printed in both forms.
fn short_texts(alloc: Global, own: &str) -> Option<Vec<u8>> {
    let acl = acl4(alloc, own)?;
    let mut out = Vec::new(alloc);
    let ace = acl.aces().first()?;
    push_short_ace(ace, &mut out).ok()?;
    out.push(b' ').ok()?;
    push_short_entry(Places::Full, ace, &mut out).ok()?;
    Some(out)
}

#[test]
fn ids_in_decimal(rt: HostRuntime) {
    const ROWS: [(&str, &str); 3] = [
        (
            "A:fd:alice:rwa",
            "A:fd:1000:rwa user:1000:rw-p----------:fd-----:allow",
        ),
        ("D:g:ops:x", "D:g:60:x group:60:--x-----------:-------:deny"),
        (
            "A::EVERYONE@:tncy",
            "A::EVERYONE@:tncy everyone@:------a-R-c--s:-------:allow",
        ),
    ];
    for (own, wanted) in ROWS {
        let reported = short_texts(rt.alloc(), own);
        let is_reported = match reported {
            Some(text) => text.as_slice() == wanted.as_bytes(),
            None => false,
        };
        assert!(rt; is_reported, "{wanted}");
    }
}
