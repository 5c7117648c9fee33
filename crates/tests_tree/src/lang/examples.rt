//! Sessions over a tree of a root alone: what is read, applied and printed, line by line.
use acl_lang::{Answer, MAX_TEXT_LEN, Numbered, read_text, render};
use acl_names::{Directory, Gid, Uid};
use acl_posix::Mode;
use acl_tree::{Style, Tree};
use std::alloc::Global;
use tests_common::directory;

/// Sessions: the name of each, its text, and what it prints.
const SESSIONS: [(&str, &str, &str); 19] = [
    (
        "create and get",
        "create file /a alice 666\nget /a\n",
        "1 ok\n2 get /a file alice staff 644 posix\nuser::rw-\ngroup::r--\nother::r--\n",
    ),
    (
        "mask and effective marks",
        "create file /a alice 666\nset /a access u::rw,u:bob:rw,g::r,m::r,o::-\ncheck /a bob w\nget /a\nchmod /a 600\nget /a",
        "1 ok\n2 ok\n3 denied\n4 get /a file alice staff 640 posix\nuser::rw-\nuser:bob:rw-\t#effective:r--\ngroup::r--\nmask::r--\nother::---\n5 ok\n6 get /a file alice staff 600 posix\nuser::rw-\nuser:bob:rw-\t#effective:---\ngroup::r--\t#effective:---\nmask::---\nother::---\n",
    ),
    (
        "refused lists",
        "create file /a alice 666\nset /a access u::rw,u:bob:r,g::r,o::-\nset /a access u::rw,u:bob:r,u:1001:w,g::r,m::r,o::-\nget /a\n",
        "1 ok\n2 error 7 invalid-acl\n3 error 7 invalid-acl\n4 get /a file alice staff 644 posix\nuser::rw-\ngroup::r--\nother::r--\n",
    ),
    (
        "groups do not add up",
        "create file /a alice 666\nset /a access u::-,g::r,g:ops:w,m::rw,o::-\ncheck /a bob r\ncheck /a bob w\ncheck /a bob rw\ntranslate /a\nset /a nfs4 D::OWNER@:rwax,A::GROUP@:r,A:g:ops@example.org:wa,D::GROUP@:wax,D:g:ops@example.org:rx\ncheck /a bob rw\n",
        "1 ok\n2 ok\n3 granted\n4 granted\n5 denied\n6 translated\nD::OWNER@:rwax\nA::GROUP@:r\nA:g:ops@example.org:wa\nD::GROUP@:wax\nD:g:ops@example.org:rx\n7 ok\n8 granted\n",
    ),
    (
        "no fall-through to other",
        "create file /a alice 666\nset /a access u::-,g::r,o::rwx\ncheck /a alice r\ncheck /a carol x\ncheck /a bob x\n",
        "1 ok\n2 ok\n3 denied\n4 granted\n5 denied\n",
    ),
    (
        "owner before named user",
        "create file /a alice 666\nset /a access u::r,u:alice:rwx,g::-,m::rwx,o::-\ncheck /a alice w\n",
        "1 ok\n2 ok\n3 denied\n",
    ),
    (
        "many named users",
        "create file /a alice 666\nset /a access u::r,g::r,m::r,o::-,u:1:r,u:2:r,u:3:r,u:4:r,u:5:r,u:6:r,u:7:r,u:8:r,u:9:r,u:10:r,u:11:r,u:12:r,u:13:r,u:14:r,u:15:r,u:16:r,u:17:r,u:18:r,u:19:r,u:20:r,u:21:r,u:22:r,u:23:r,u:24:r,u:25:r,u:26:r,u:27:r,u:28:r,u:29:r,u:30:r,u:31:r,u:32:r,u:33:r,u:34:r,u:35:r,u:36:r,u:37:r,u:38:r,u:39:r,u:40:r,u:41:r,u:42:r,u:43:r,u:44:r,u:45:r,u:46:r,u:47:r,u:48:r,u:49:r,u:50:r,u:51:r,u:52:r,u:53:r,u:54:r,u:55:r,u:56:r,u:57:r,u:58:r,u:59:r,u:60:r\ncheck /a 60 r\ncheck /a 1 r\ncheck /a 61 r\n",
        "1 ok\n2 ok\n3 granted\n4 granted\n5 denied\n",
    ),
    (
        "default acl at creation",
        "create dir /d alice 755\nset /d default u::rwx,u:bob:rwx,g::r-x,m::rwx,o::-\ncreate file /d/f carol 640\nget /d/f\ncreate dir /d/e carol 750\nget /d/e\n",
        "1 ok\n2 ok\n3 ok\n4 get /d/f file carol guest 640 posix\nuser::rw-\nuser:bob:rwx\t#effective:r--\ngroup::r-x\t#effective:r--\nmask::r--\nother::---\n5 ok\n6 get /d/e dir carol guest 750 posix\nuser::rwx\nuser:bob:rwx\t#effective:r-x\ngroup::r-x\nmask::r-x\nother::---\ndefault:user::rwx\ndefault:user:bob:rwx\ndefault:group::r-x\ndefault:mask::rwx\ndefault:other::---\n",
    ),
    (
        "default acl kept and taken away",
        "create dir /d alice 755\nset /d default u::rwx,g::r-x,o::-\nset /d access u::rwx,g::-,o::-\nget /d\nset /d default none\ncreate file /d/f carol 666\nget /d/f\n",
        "1 ok\n2 ok\n3 ok\n4 get /d dir alice staff 700 posix\nuser::rwx\ngroup::---\nother::---\ndefault:user::rwx\ndefault:group::r-x\ndefault:other::---\n5 ok\n6 ok\n7 get /d/f file carol guest 644 posix\nuser::rw-\ngroup::r--\nother::r--\n",
    ),
    (
        "translation with a mask",
        "create file /a alice 666\nset /a access u::rw,u:bob:rw,g::r,g:ops:rwx,m::rw,o::r\ntranslate /a",
        "1 ok\n2 ok\n3 translated\nA::OWNER@:rwa\nD::OWNER@:x\nA::bob@example.org:rwa\nD::bob@example.org:x\nA::GROUP@:r\nA:g:ops@example.org:rwa\nD::GROUP@:wax\nD:g:ops@example.org:x\nA::EVERYONE@:r\n",
    ),
    (
        "default acl translated",
        "create dir /d alice 755\nset /d default u::rwx,u:bob:rwx,g::r-x,m::rwx,o::-\ntranslate /d\nset /d nfs4 A::OWNER@:rwax,A::GROUP@:rx,D::GROUP@:wa,A::EVERYONE@:rx,A:fdi:OWNER@:rwax,A:fdi:bob@example.org:rwax,A:fdi:GROUP@:rx,D:fdi:GROUP@:wa\ncreate file /d/f carol 640\nget /d/f\n",
        "1 ok\n2 ok\n3 translated\nA::OWNER@:rwax\nA::GROUP@:rx\nD::GROUP@:wa\nA::EVERYONE@:rx\nA:fdi:OWNER@:rwax\nA:fdi:bob@example.org:rwax\nA:fdi:GROUP@:rx\nD:fdi:GROUP@:wa\n4 ok\n5 ok\n6 get /d/f file carol guest 640 nfs4\nA::OWNER@:rwa\nD::OWNER@:x\nA::bob@example.org:r\nD::bob@example.org:wax\nA::GROUP@:r\nD::GROUP@:wax\n",
    ),
    (
        "order of nfsv4 entries",
        "create file /a alice 666\nset /a nfs4 D::EVERYONE@:r,A::OWNER@:r\ncheck4 /a alice r\nset /a nfs4 A::OWNER@:r,D::EVERYONE@:r\ncheck4 /a alice r\ncheck4 /a alice x\ncheck4 /a alice rx\n",
        "1 ok\n2 ok\n3 denied\n4 ok\n5 granted\n6 denied\n7 denied\n",
    ),
    (
        "inheritance on an nfs4 directory",
        "create dir /d alice 755\nset /d nfs4 A:f:bob:r,A:dng:ops:rx,D:fn:carol:w,A:fdi:EVERYONE@:tc\ncreate file /d/f carol 640\nget /d/f\ncreate dir /d/e carol 750\nget /d/e\n",
        "1 ok\n2 ok\n3 ok\n4 get /d/f file carol guest 640 nfs4\nA::OWNER@:rwa\nD::OWNER@:x\nA::bob@example.org:r\nD::carol@example.org:w\nA::EVERYONE@:tc\nD::bob@example.org:wax\nD::carol@example.org:ax\nA::GROUP@:r\nD::GROUP@:wax\n5 ok\n6 get /d/e dir carol guest 750 nfs4\nA::OWNER@:rwax\nA:fi:bob@example.org:r\nA:g:ops@example.org:rx\nA:fdi:EVERYONE@:tc\nA::EVERYONE@:tc\nD:g:ops@example.org:wa\nA::GROUP@:rx\nD::GROUP@:wa\n",
    ),
    (
        "mode set on an nfs4 file",
        "create file /a alice 666\nset /a nfs4 A::OWNER@:rwatTcC,A::bob@example.org:rwa,A:g:ops@example.org:r,A::EVERYONE@:r\nchmod /a 604\nget /a\ncheck /a bob r\ncheck /a carol r\n",
        "1 ok\n2 ok\n3 ok\n4 get /a file alice staff 604 nfs4\nA::OWNER@:rwa\nD::OWNER@:x\nA::OWNER@:tTcC\nD::bob@example.org:rwax\nD:g:ops@example.org:rwax\nD::GROUP@:rwax\nA::EVERYONE@:r\n5 denied\n6 granted\n",
    ),
    (
        "refusals of set and of lines",
        "create file /a alice 666\nset /a nfs4 A:i:OWNER@:r\nset /a nfs4 A:f:OWNER@:r\nset /a default u::r,g::r,o::r\nset /a nfs4 A::OWNER@:r\nset /a default u::r,g::r,o::r\n\r\nget /a",
        "1 ok\n2 error 9 inherit-only\n3 error 25 inherit-on-file\n4 error 24 default-on-file\n5 ok\n6 error 23 wrong-style\n7 error 1 syntax\n8 get /a file alice staff 400 nfs4\nA::OWNER@:r\n",
    ),
    (
        "refusals of paths",
        "create file / alice 644\ncreate file /x/y alice 644\ncreate file /a alice 666\ncreate file /a/b alice 644\nget /a/b\ncheck4 /a bob r\ncreate file /a alice 644\n",
        "1 error 21 exists\n2 error 20 no-such-path\n3 ok\n4 error 22 not-a-directory\n5 error 20 no-such-path\n6 error 23 wrong-style\n7 error 21 exists\n",
    ),
    (
        "bad mode at the end",
        "create file /a alice 666\nchmod /a 6",
        "1 ok\n2 error 3 bad-mode\n",
    ),
    ("empty text", "", ""),
    ("blanks and comments", "\n \n\t\n# get /\n", ""),
];

/// A tree of a root alone, which is root's.
fn tree(alloc: Global) -> Option<Tree> {
    let owner = Uid::new(0)?;
    let group = Gid::new(0)?;
    let mode = Mode::from_bits(0o755)?;
    let umask = Mode::from_bits(0o022)?;
    Tree::new(alloc, owner, group, mode, Style::Posix, umask).ok()
}

/// Answers the request, and prints the answer.
fn answer(
    alloc: Global,
    names: &Directory,
    tree: &mut Tree,
    numbered: &Numbered,
    out: &mut Vec<u8>,
) -> Option<()> {
    let line = numbered.line;
    let reply = tree.apply(alloc, &numbered.request, names).ok()?;
    render(&Answer { line, reply }, names, out).ok()
}

/// What is printed of the answers to these requests.
fn answers(alloc: Global, names: &Directory, requests: &[Numbered]) -> Option<Vec<u8>> {
    let mut tree = tree(alloc)?;
    let mut out = Vec::new(alloc);
    for numbered in requests {
        answer(alloc, names, &mut tree, numbered, &mut out)?;
    }
    Some(out)
}

/// Whether a session with this text prints these answers.
fn prints(alloc: Global, text: &str, wanted: &str) -> Option<bool> {
    if text.len() > MAX_TEXT_LEN {
        return None;
    }
    let names = directory(alloc)?;
    let requests = read_text(alloc, text.as_bytes(), &names).ok()?;
    let out = answers(alloc, &names, &requests)?;
    Some(out.as_slice() == wanted.as_bytes())
}

#[test]
fn sessions(rt: HostRuntime) {
    for (name, text, answers) in SESSIONS {
        assert_eq!(rt; prints(rt.alloc(), text, answers), Some(true), "{name}");
    }
}
