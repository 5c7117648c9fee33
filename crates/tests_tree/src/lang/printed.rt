//! Tests of printed answers.
use crate::lang::fixture::{Shown, boxed, is_printed};
use crate::lists::Lists;
use acl_lang::Answer;
use acl_nfs4::{Acl4, Kind};
use acl_tree::{Boxed, LineFault, Reply, TreeFault};
use std::alloc::Global;
use tests_common::acl4;

/// A reply as the tests write it down.
#[derive(Clone, Copy)]
enum Said<'a> {
    Done,
    Granted,
    Denied,
    Refused(TreeFault),
    Fault(LineFault),
    Node(Shown<'a>),
    Translated(&'a str),
    TranslatedBoth(&'a str, &'a str),
}

/// A file under a mask.
const FILE: Shown<'static> = Shown {
    path: "/a",
    kind: Kind::File,
    owner: 1000,
    group: 50,
    mode: 0o640,
    lists: Lists::Posix("u::rw,u:bob:rw,g::r,m::r,o::-", None),
};

/// A directory with a default list.
const DIRECTORY: Shown<'static> = Shown {
    path: "/d/e",
    kind: Kind::Dir,
    owner: 1002,
    group: 70,
    mode: 0o750,
    lists: Lists::Posix(
        "u::rwx,u:bob:rwx,g::r-x,m::r-x,o::-",
        Some("u::rwx,u:bob:rwx,g::r-x,m::rwx,o::-"),
    ),
};

/// A file of the NFSv4 style whose owner and group have no names.
const NOBODYS: Shown<'static> = Shown {
    path: "/",
    kind: Kind::File,
    owner: 7,
    group: 8,
    mode: 0o404,
    lists: Lists::Nfs4("A::OWNER@:r,D:g:ops:x"),
};

/// The number of a line, the reply to it, and what is printed of both.
const ANSWERS: [(u32, Said<'static>, &str); 8] = [
    (1, Said::Done, "1 ok\n"),
    (4_294_967_295, Said::Granted, "4294967295 granted\n"),
    (30, Said::Denied, "30 denied\n"),
    (
        4,
        Said::Node(FILE),
        "4 get /a file alice staff 640 posix\nuser::rw-\nuser:bob:rw-\t#effective:r--\ngroup::r--\nmask::r--\nother::---\n",
    ),
    (
        6,
        Said::Node(DIRECTORY),
        "6 get /d/e dir carol guest 750 posix\nuser::rwx\nuser:bob:rwx\t#effective:r-x\ngroup::r-x\nmask::r-x\nother::---\ndefault:user::rwx\ndefault:user:bob:rwx\ndefault:group::r-x\ndefault:mask::rwx\ndefault:other::---\n",
    ),
    (
        7,
        Said::Node(NOBODYS),
        "7 get / file 7 8 404 nfs4\nA::OWNER@:r\nD:g:ops@example.org:x\n",
    ),
    (
        3,
        Said::Translated("A::OWNER@:rwax"),
        "3 translated\nA::OWNER@:rwax\n",
    ),
    (
        3,
        Said::TranslatedBoth("A::OWNER@:rwax", "A:fdi:OWNER@:rwax"),
        "3 translated\nA::OWNER@:rwax\nA:fdi:OWNER@:rwax\n",
    ),
];

/// Faults as replies, and what is printed of them in answer to line 2.
const FAULTS: [(Said<'static>, &str); 8] = [
    (Said::Refused(TreeFault::Full), "2 error 26 full\n"),
    (Said::Refused(TreeFault::TooMany), "2 error 27 too-many\n"),
    (Said::Fault(LineFault::BadPath), "2 error 2 bad-path\n"),
    (Said::Fault(LineFault::BadPerms), "2 error 4 bad-perms\n"),
    (
        Said::Fault(LineFault::UnknownName),
        "2 error 5 unknown-name\n",
    ),
    (Said::Fault(LineFault::BadAcl), "2 error 6 bad-acl\n"),
    (Said::Fault(LineFault::TooMany), "2 error 8 too-many\n"),
    (
        Said::Fault(LineFault::LineTooLong),
        "2 error 10 line-too-long\n",
    ),
];

/// The NFSv4 list that the text spells, in a box.
fn boxed4(alloc: Global, text: &str) -> Option<Boxed<Acl4>> {
    Boxed::new(alloc, acl4(alloc, text)?).ok()
}

fn reply_of(alloc: Global, said: Said<'_>) -> Option<Reply> {
    match said {
        Said::Done => Some(Reply::Done),
        Said::Granted => Some(Reply::Granted),
        Said::Denied => Some(Reply::Denied),
        Said::Refused(fault) => Some(Reply::Refused(fault)),
        Said::Fault(fault) => Some(Reply::Fault(fault)),
        Said::Node(shown) => Some(Reply::Node(boxed(alloc, shown)?)),
        Said::Translated(text) => Some(Reply::Translated(boxed4(alloc, text)?)),
        Said::TranslatedBoth(text, below) => {
            let access = boxed4(alloc, text)?;
            let inherit = boxed4(alloc, below)?;
            Some(Reply::TranslatedBoth { access, inherit })
        }
    }
}

/// Whether this is printed of the reply to the line, and asks for at most so many bytes.
fn prints(alloc: Global, line: u32, said: Said<'_>, text: &str, bytes: usize) -> Option<[bool; 2]> {
    let reply = reply_of(alloc, said)?;
    let (is_this, room) = is_printed(alloc, &Answer { line, reply }, text)?;
    Some([is_this, room <= bytes])
}

/// An answer of one line asks for 64 bytes at the most, and one that shows lists for 512 bytes a
/// line: the longest names and the longest path have room in that.
#[test]
fn answers_ask_for_little_room(rt: HostRuntime) {
    for (line, said, text) in ANSWERS {
        let lines = text.bytes().filter(|byte| *byte == b'\n').count();
        let bytes = if lines == 1 { 64 } else { 512 * lines };
        let right = prints(rt.alloc(), line, said, text, bytes);
        assert_eq!(rt; right, Some([true; 2]), "{text}");
    }
}

/// Those that no session of the examples meets.
#[test]
fn faults_have_their_numbers_and_words(rt: HostRuntime) {
    for (said, text) in FAULTS {
        let right = prints(rt.alloc(), 2, said, text, 64);
        assert_eq!(rt; right, Some([true; 2]), "{text}");
    }
}
