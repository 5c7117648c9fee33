//! What a text is taken for of which no block reads.
use acl_listings::Guess;

#[test]
fn guesses(rt: HostRuntime) {
    const ROWS: [(&[u8], Guess); 21] = [
        (b"\x1f\x8b\x08\x00\x00", Guess::Gzip),
        (b"\xff\xfe#\x00 \x00", Guess::Utf16),
        (b"\xfe\xff\x00#\x00 ", Guess::Utf16),
        (b"#\x00 \x00f\x00", Guess::Utf16),
        (b"\x00#\x00 \x00f", Guess::Utf16),
        (
            b"# file: x\r\n# owner: 0\r\n# group: 0\r",
            Guess::CarriageReturns,
        ),
        (
            b"# file: x\nUSER   root      rwx     \nGROUP  root      r-x     ",
            Guess::Tabular,
        ),
        (
            b"# file: x\nA::OWNER@:rwatTnNcCoy\nA::GROUP@:rtncy",
            Guess::NoOwners,
        ),
        (b"# file: x\nuser::rwx", Guess::NoOwners),
        (b"# file: x", Guess::NoOwners),
        (b"# File: x", Guess::NoOwners),
        (b"# File: x\nUSER   root      rwx     ", Guess::NoOwners),
        (b"user::rw-\ngroup::r--\nother::r--", Guess::NoOwners),
        (b"A::OWNER@:rwatTnNcCoy\nA::GROUP@:rtncy", Guess::NoOwners),
        (b"D:g:GROUP@:w\nA::OWNER@:rwatTnNcCoy", Guess::NoOwners),
        (b"owner@:rwxp--aARWcCos:-------:allow", Guess::NoOwners),
        (b"# file: x\n# owner: 0", Guess::NoListing),
        (b"An: it is", Guess::NoListing),
        (b"USER   root      rwx     ", Guess::NoListing),
        (b"total 12", Guess::NoListing),
        (b"", Guess::NoListing),
    ];
    for (block, wanted) in ROWS {
        assert!(rt; Guess::of(block) == wanted, "{}", wanted.words());
    }
}

#[test]
fn words(rt: HostRuntime) {
    const ROWS: [(Guess, &str); 6] = [
        (Guess::Gzip, "is it gzip?"),
        (Guess::Utf16, "is it UTF-16?"),
        (Guess::CarriageReturns, "has it carriage returns?"),
        (Guess::Tabular, "is it tabular (getfacl -t)?"),
        (
            Guess::NoOwners,
            "is it without owners (getfacl -c, nfs4_getfacl)?",
        ),
        (Guess::NoListing, "is it a listing?"),
    ];
    for (guess, wanted) in ROWS {
        assert!(rt; guess.words() == wanted);
    }
}
