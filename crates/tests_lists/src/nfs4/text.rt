//! Tests of the texts of NFSv4 lists.
use crate::nfs4::fixture::{fault_of, short_of, shown};
use crate::texts::is_text;
use acl_nfs4::AceFault;

/// Texts, what is printed of each with names, and what without.
#[test]
fn texts_in_their_printed_form(rt: HostRuntime) {
    const ROWS: [(&str, &str, &str); 5] = [
        ("A:g:GROUP@:r", "A::GROUP@:r\n", "A::GROUP@:r"),
        ("A::OWNER@:", "A::OWNER@:\n", "A::OWNER@:"),
        (
            " A : : bob : wr # all\n\n# none\nL:Fifg:60:x",
            "A::bob@example.org:rw\nL:fiFg:ops@example.org:x\n",
            "A::1001:rw,L:fiFg:60:x",
        ),
        (
            "U:FS:1003:yoCcNnTtDdxawr,D:g:7:",
            "U:SF:1003:rwaxdDtTnNcCoy\nD:g:7:\n",
            "U:SF:1003:rwaxdDtTnNcCoy,D:g:7:",
        ),
        ("", "", ""),
    ];
    for (text, long, short) in ROWS {
        let shown = shown(rt.alloc(), text);
        assert!(rt; is_text(shown, long) == Some(true), "{text}");
        let printed = short_of(rt.alloc(), text);
        assert!(rt; is_text(printed, short) == Some(true), "{text}");
    }
}

#[test]
fn texts_that_are_refused(rt: HostRuntime) {
    const ROWS: [(&str, AceFault); 6] = [
        ("A:ff:OWNER@:r", AceFault::Syntax),
        ("A::bob@other.org:r", AceFault::UnknownName),
        ("A:i:OWNER@:r", AceFault::InheritOnly),
        // In a piece the syntax comes first, then the name, then the flags.
        ("A:i:dave:rr", AceFault::Syntax),
        ("A:i:dave:r", AceFault::UnknownName),
        ("A::OWNER@:r,A:i:OWNER@:r,q", AceFault::InheritOnly),
    ];
    for (text, wanted) in ROWS {
        assert_eq!(rt; fault_of(rt.alloc(), text), Some(wanted), "{text}");
    }
}
