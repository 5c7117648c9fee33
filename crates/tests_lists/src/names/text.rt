//! Tests of the texts of ids, names and letters.
use crate::texts::is_text;
use acl_names::{
    Letter, WrittenId, is_domain, is_name, push_decimal, push_id, push_letters, put_decimal,
    read_decimal, read_decimal_until, read_letters, split_word, trim_blanks,
};
use std::alloc::Global;
use std::test::Fail;

#[test]
fn texts_are_read(rt: HostRuntime) {
    assert_eq!(rt; read_decimal(b"0000000007"), Some(7));
    assert!(rt; is_name(b"A.b-c_9"));
    assert!(rt; is_domain(b"example.org"));
    assert!(rt; matches!(WrittenId::read(b"007"), Some(WrittenId::Number(7))));
    assert!(rt; matches!(WrittenId::read(b"bob"), Some(WrittenId::Name("bob"))));
    assert_eq!(rt; trim_blanks(b" \t a b\t "), b"a b".as_slice());
    let (word, rest) = split_word(b"set  /a\taccess");
    assert_eq!(rt; word, b"set".as_slice());
    assert_eq!(rt; rest, b"/a\taccess".as_slice());
}

/// The fast way through a plain text, which a clause lets decline.
#[test]
fn plain_texts_are_read_fast(rt: HostRuntime) -> Result<(), Fail> {
    let (id, rest) = read_decimal_until(b':', b"4294967294:rwx").ok_or("a decimal")?;
    assert_eq!(rt; id, 4294967294);
    assert!(rt; rest == b"rwx".as_slice());
    Ok(())
}

/// Letters, each with its bit.
const LETTERS: [Letter; 2] = [
    Letter {
        letter: b'r',
        bit: 1,
    },
    Letter {
        letter: b'w',
        bit: 2,
    },
];

/// What is put of a number, of the bits as letters, of an id with a name and of one without, and of
/// the number again.
fn put(alloc: Global, bits: u32, named: (&str, u32), id: u32, number: u32) -> Option<String> {
    let mut out = Vec::with_capacity(alloc, 10).ok()?;
    put_decimal(number, &mut out);
    push_letters(&LETTERS, bits, &mut out).ok()?;
    push_id(Some(named.0), named.1, &mut out).ok()?;
    push_id(None, id, &mut out).ok()?;
    push_decimal(number, &mut out).ok()?;
    String::from_utf8(out).ok()
}

#[test]
fn letters_ids_and_numbers_are_put(rt: HostRuntime) {
    let put = put(rt.alloc(), 3, ("bob", 1001), 4294967294, 1009);
    assert!(rt; is_text(put, "1009rwbob42949672941009") == Some(true));
    assert_eq!(rt; read_letters(&LETTERS, b"wr"), Some(3));
}
