//! Names as `getfacl` writes them.
use acl_accounts::{WrittenAccount, is_account_name, push_name};
use acl_names::octal;
use arrayvec::ArrayVec;
use std::alloc::Global;

/// What a text writes.
#[derive(Clone, Copy)]
enum Wanted {
    Name(&'static [u8]),
    Number(u32),
    Nothing,
}

fn is_read(text: &str, wanted: &Wanted) -> bool {
    let mut room = ArrayVec::new();
    let read = WrittenAccount::read(text.as_bytes(), &mut room);
    match (read, wanted) {
        (Some(WrittenAccount::Name(name)), Wanted::Name(bytes)) => name == *bytes,
        (Some(WrittenAccount::Number(number)), Wanted::Number(id)) => number == *id,
        (None, Wanted::Nothing) => true,
        _ => false,
    }
}

/// Two backslashes are one, `\` and three octal digits are that byte, any other byte is itself; all
/// digits are an id.
#[test]
fn what_texts_write(rt: HostRuntime) {
    const ROWS: [(&str, Wanted); 25] = [
        ("domain\\040users", Wanted::Name(b"domain users")),
        ("CORP\\134alice", Wanted::Name(b"CORP\\alice")),
        ("CORP\\alice", Wanted::Name(b"CORP\\alice")),
        ("CORP\\\\alice", Wanted::Name(b"CORP\\alice")),
        ("a\\\\\\\\b", Wanted::Name(b"a\\\\b")),
        ("a\\\\\\b", Wanted::Name(b"a\\\\b")),
        ("a\\\\", Wanted::Name(b"a\\")),
        ("\\\\040", Wanted::Name(b"\\040")),
        ("\\\\\\040", Wanted::Name(b"\\ ")),
        ("a\\134\\040", Wanted::Name(b"a\\ ")),
        ("alice@corp.example", Wanted::Name(b"alice@corp.example")),
        ("a\\40", Wanted::Name(b"a\\40")),
        ("a\\0400", Wanted::Name(b"a 0")),
        ("\\377", Wanted::Name(b"\xff")),
        ("\\400", Wanted::Name(b"\\400")),
        ("\\08", Wanted::Name(b"\\08")),
        ("\\134040", Wanted::Name(b"\\040")),
        ("1a", Wanted::Name(b"1a")),
        ("\\061", Wanted::Name(b"1")),
        ("0012", Wanted::Number(12)),
        ("4294967294", Wanted::Number(4_294_967_294)),
        ("4294967295", Wanted::Nothing),
        ("00000000001", Wanted::Nothing),
        ("", Wanted::Nothing),
        ("a\\072b", Wanted::Nothing),
    ];
    for (text, wanted) in ROWS {
        assert!(rt; is_read(text, &wanted), "{text}");
    }
}

fn is_printed(alloc: Global, name: &[u8], wanted: &str) -> Option<bool> {
    let mut out = Vec::new(alloc);
    out.push(b'>').ok()?;
    push_name(name, &mut out).ok()?;
    Some(out.as_slice() == wanted.as_bytes())
}

/// The bytes at which lines, words and entries are split, and `\`, are printed by their digits.
#[test]
fn names_in_print(rt: HostRuntime) {
    const ROWS: [(&[u8], &str); 4] = [
        (
            b"a b\tc\nd\re:f,g\\h",
            ">a\\040b\\011c\\012d\\015e\\072f\\054g\\134h",
        ),
        (b"domain users", ">domain\\040users"),
        (b"alice@corp.example", ">alice@corp.example"),
        (b"", ">"),
    ];
    for (name, wanted) in ROWS {
        assert_eq!(rt;
            is_printed(rt.alloc(), name, wanted),
            Some(true),
            "{wanted}"
        );
    }
}

#[test]
fn octal_digits(rt: HostRuntime) {
    const ROWS: [(u8, [u8; 4]); 4] = [
        (0, *b"\\000"),
        (b'\n', *b"\\012"),
        (0x7f, *b"\\177"),
        (0xff, *b"\\377"),
    ];
    for (byte, wanted) in ROWS {
        assert!(rt; octal(byte) == wanted, "{byte}");
    }
}

#[test]
fn names_of_accounts(rt: HostRuntime) {
    assert!(rt; is_account_name(&[b'a'; 255]));
    assert!(rt; !is_account_name(&[b'a'; 256]));
    assert!(rt; is_account_name(b"a,b c\\d"));
    assert!(rt; !is_account_name(b""));
    assert!(rt; !is_account_name(b"a:b"));
    assert!(rt; !is_account_name(b"a\nb"));
}
