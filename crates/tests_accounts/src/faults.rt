//! Texts that are no accounts, and the line that says so.
use acl_accounts::{Accounts, AccountsFault};
use std::alloc::Global;

/// What becomes of a text: nothing if it is read.
fn fault_of(alloc: Global, text: &[u8]) -> Option<AccountsFault> {
    match Accounts::read(alloc, text) {
        Ok(_) => None,
        Err(fault) => Some(fault),
    }
}

/// Each line that is neither a user nor a group, nor passed over, by its number. What glibc makes
/// of it was asked of `id -G` and `getent`.
#[test]
fn bad_lines(rt: HostRuntime) {
    const ROWS: [(&str, usize); 25] = [
        // Two, four, five and seven colons.
        ("a:x:1", 1),
        ("a:x:1:2:", 1),
        ("#\na:x:1:2:3:\n", 2),
        ("a:x:1:2::::\n", 1),
        // Names of no byte, and of one too many.
        ("a:x:1:\n\n:x:1:\n", 3),
        (":x:1:2:::\n", 1),
        // Numbers that are none, and one above the greatest.
        ("a:x:b:\n", 1),
        ("a:x::\n", 1),
        ("a:x:-1:\n", 1),
        ("a:x:+1:\n", 1),
        ("a:x:1 :\n", 1),
        ("a:x:4294967295:\n", 1),
        ("a:x:1:4294967295:::\n", 1),
        ("a:x:00000000001:\n", 1),
        // C ends a line at a zero byte.
        ("a:x:1:b\0,c\n", 1),
        ("\n#\0\n", 2),
        // Of these the members are in the group, when they log in.
        ("#a:x:1:b\n", 1),
        (" +a:::b\n", 1),
        ("-a:x:+1:,b\n", 1),
        ("#a:x:00000000001:b,c:d\n", 1),
        // The first bad line decides.
        ("a:x:1:\nb\nc\n", 2),
        ("+\n-\n#\n\nb", 5),
        // A user's line that was cut behind the gid, looked for after all of these.
        ("a:x:1:2", 1),
        ("2:x:1:\na:x:1: 2,\na:x:1:3\nb:x:1:2:::\n", 2),
        ("a:x:1:+2\nb\n", 2),
    ];
    for (text, line) in ROWS {
        assert_eq!(rt;
            fault_of(rt.alloc(), text.as_bytes()),
            Some(AccountsFault::BadAccount(line)),
            "{text}"
        );
    }
}

/// Lines that are users and groups, or passed over.
#[test]
fn good_lines(rt: HostRuntime) {
    const ROWS: [&str; 18] = [
        "",
        "\n\n",
        "a:x:1:",
        "a:x:1:2:::\n",
        "a::4294967294:b,,c\n",
        "a:x:0001:\n",
        "1000:x:1:\n",
        "#a:x:b:\n+@netgroup\n-user\n",
        "a b:x:1:\n\tb:x:1:\n",
        " \n\t\r\n # a\n",
        "a:x: 1:\n",
        // What a login reads so has no members, no number, or is a user's line.
        "#a:x:1: ,\n+:::\n",
        "# a:b:c:d\n",
        "#a:x:1:2:b,c,d:/:/bin/sh\n",
        // Members that are users, or several, or no numbers.
        "a:x:1:2\n2:x:1:1:::\n",
        "a:x:1:2,3\n",
        "a:x:1:2b\n",
        "a:x:1:2:g e c o s:/home/a b:/bin/sh",
    ];
    for text in ROWS {
        assert_eq!(rt; fault_of(rt.alloc(), text.as_bytes()), None, "{text}");
    }
}
