//! Which form a text has.
use acl_forms::{Form, form_of};

#[test]
fn forms_of_texts(rt: HostRuntime) {
    const ROWS: [(&str, Form); 10] = [
        ("# file: a\nA::OWNER@:r\n", Form::Nfs4),
        (" L : : OWNER@ : r", Form::Nfs4),
        ("   owner@:r-----:------:allow # a\n", Form::Freebsd),
        ("user:bob:r:audit", Form::Freebsd),
        ("# owner: root\nuser::rwx\n", Form::Posix),
        ("default:user::rwx\n", Form::Posix),
        ("# A::\n", Form::Posix),
        ("", Form::Posix),
        ("allow", Form::Freebsd),
        ("AA::OWNER@:r", Form::Posix),
    ];
    for (text, wanted) in ROWS {
        assert_eq!(rt; form_of(text.as_bytes()), wanted, "{text}");
    }
}
