//! Lists as tools print them: FreeBSD's `getfacl`, libarchive, and nfs4-acl-tools' `nfs4_getfacl`.
//!
//! What they say stands beside them in the project's form, by hand from the tools' tables. In those
//! of FreeBSD and libarchive `p` appends, `a` and `A` read and write attributes, `R` and `W` named
//! ones, and `s` synchronizes, for which nfs4-acl-tools have `a`, `t`, `T`, `n`, `N` and `y`.
use crate::entries::is_same;
use acl_forms::{Form, form_of};

/// Each letter by itself: of a mask, and of flags.
#[test]
fn each_letter(rt: HostRuntime) {
    const ROWS: [(&str, &str); 21] = [
        ("owner@:r::allow", "A::OWNER@:r"),
        ("owner@:w::allow", "A::OWNER@:w"),
        ("owner@:x::allow", "A::OWNER@:x"),
        ("owner@:p::allow", "A::OWNER@:a"),
        ("owner@:d::allow", "A::OWNER@:d"),
        ("owner@:D::allow", "A::OWNER@:D"),
        ("owner@:a::allow", "A::OWNER@:t"),
        ("owner@:A::allow", "A::OWNER@:T"),
        ("owner@:R::allow", "A::OWNER@:n"),
        ("owner@:W::allow", "A::OWNER@:N"),
        ("owner@:c::allow", "A::OWNER@:c"),
        ("owner@:C::allow", "A::OWNER@:C"),
        ("owner@:o::allow", "A::OWNER@:o"),
        ("owner@:s::allow", "A::OWNER@:y"),
        ("group@:r:f:deny", "D:f:GROUP@:r"),
        ("group@:r:d:deny", "D:d:GROUP@:r"),
        ("group@:r:fi:deny", "D:fi:GROUP@:r"),
        ("group@:r:dn:deny", "D:dn:GROUP@:r"),
        ("group@:r:S:audit", "U:S:GROUP@:r"),
        ("group@:r:F:alarm", "L:F:GROUP@:r"),
        ("group@:r:I:deny", "D::GROUP@:r"),
    ];
    for (text, own) in ROWS {
        assert!(rt; is_same(rt.alloc(), text, own) == Some(true), "{text}");
    }
}

/// FreeBSD's `getfacl`: a header, and entries whose tags end in column 18.
const FREEBSD: &str = "# file: share/plans
# owner: root
# group: wheel
            owner@:rwxpDdaARWcCos:fd-----:allow
        user:alice:rw-p--aARWc--s:-------:allow
            user:0:-----------C--:fdi----:deny
       group:staff:r-x---a-R-c--s:------I:allow
            group@:-w-p----------:-------:deny
         everyone@:r-x---a-R-c--s:-------:allow
";

/// libarchive's text, with a place for each letter: as `bsdtar` keeps it, commas between.
const PLACES: &str =
    "user:alice:rw-p--a-R-c-o-:-------:allow,user:bob:-w-pdD--------:fdin---:deny,group:staff:r-----a-R-c---:------I:allow,owner@:rwxp--aARWcCo-:-------:allow,group@:rw-p--a-R-c---:-------:allow,everyone@:r-----a-R-c--s:-------:allow";

/// The same in its compact style, one a line.
const COMPACT: &str = "user:alice:rwpaRco::allow
user:bob:wpdD:fdin:deny
group:staff:raRc:I:allow
owner@:rwxpaARWcCo::allow
group@:rwpaRc::allow
everyone@:raRcs::allow
";

#[test]
fn lists_of_freebsd_and_libarchive(rt: HostRuntime) {
    const PLACES_SAY: &str =
        "A::alice:rwatnco,D:fdin:bob:wadD,A:g:staff:rtnc,A::OWNER@:rwxatTnNcCo,A::GROUP@:rwatnc,A::EVERYONE@:rtncy";
    const ROWS: [(&str, &str); 3] = [
        (
            FREEBSD,
            "A:fd:OWNER@:rwxaDdtTnNcCoy,A::alice:rwatTnNcy,D:fdi:0:C,A:g:staff:rxtncy,D::GROUP@:wa,A::EVERYONE@:rxtncy",
        ),
        (PLACES, PLACES_SAY),
        (COMPACT, PLACES_SAY),
    ];
    for (text, own) in ROWS {
        assert!(rt; is_same(rt.alloc(), text, own) == Some(true), "{text}");
    }
}

/// What `nfs4_getfacl` prints of a file, of a directory with inherited entries, and of a list that
/// begins with a group's.
#[test]
fn forms_of_lists_of_tools(rt: HostRuntime) {
    const ROWS: [(&str, Form); 9] = [
        (FREEBSD, Form::Freebsd),
        (PLACES, Form::Freebsd),
        (COMPACT, Form::Freebsd),
        (
            "# file: share/plans\nA::OWNER@:rwatTnNcCoy\nA:g:GROUP@:rtncy\nA::EVERYONE@:rtncy\n",
            Form::Nfs4,
        ),
        (
            "D:fdi:EVERYONE@:waDdTNCo\nA:fdig:staff@example.org:rxtncy\n",
            Form::Nfs4,
        ),
        ("A:g:staff@example.org:rxtncy\n", Form::Nfs4),
        ("U:SF:alice@example.org:rwa\n", Form::Nfs4),
        // getfacl of Linux.
        (
            "# file: share/plans\n# owner: root\n# group: root\n# flags: -s-\nuser::rwx\nuser:alice:r-x\t#effective:r--\nmask::r--\n",
            Form::Posix,
        ),
        ("default:group:staff:r-x\n", Form::Posix),
    ];
    for (text, wanted) in ROWS {
        assert_eq!(rt; form_of(text.as_bytes()), wanted, "{text}");
    }
}
