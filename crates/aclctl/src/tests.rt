//! Tests of the program.
use crate::program::{run, run_command};
use acl_service::{ErrorOutput, OpenFiles};
use std::alloc::{AllocError, Global};
use std::io::{self, Read, Write};
use std::sync::Wait;
use std::test::Fail;
use std::thread::Threads;
use std::time::Clock;

const ASKED: [&str; 12] = [
    "decide",
    "--owner",
    "1000",
    "--group",
    "50",
    "--uid",
    "1001",
    "--gids",
    "50,60",
    "--perms",
    "r",
    "u::rw,g::r,o::-",
];

const ASKED_LINES: &str =
    "decide\n--owner\n1000\n--group\n50\n--uid\n1001\n--gids\n50,60\n--perms\nr\nu::rw,g::r,o::-\n";

/// Fails at each read and at each write.
#[derive(Drop)]
struct Broken;

impl Read for Broken {
    fn read(&mut self, _buffer: &mut [u8]) -> io::Result<usize> {
        Err(io::Error::from(io::ErrorKind::BrokenPipe))
    }
}

impl Write for Broken {
    fn write(&mut self, _buffer: &[u8]) -> io::Result<usize> {
        Err(io::Error::from(io::ErrorKind::BrokenPipe))
    }

    fn flush(&mut self) -> io::Result<()> {
        Ok(())
    }
}

/// A file whose bytes are at hand.
#[derive(Drop)]
struct Sheet<'a> {
    left: &'a [u8],
}

impl<'a> Read for Sheet<'a> {
    fn read(&mut self, buffer: &mut [u8]) -> io::Result<usize> {
        self.left.read(buffer)
    }
}

/// Files by their names.
#[derive(Clone, Copy)]
struct Shelf<'a> {
    files: &'a [(&'a str, &'a str)],
}

impl<'a> OpenFiles for Shelf<'a> {
    ghost use Rattle.std.specs.Prelude.{None};

    type File = Sheet<'a>;

    ghost bytes_of = { λ _ _. None };

    fn open(&self, name: &str) -> io::Result<Sheet<'a>> {
        for file in self.files {
            if file.0 == name {
                return Ok(Sheet {
                    left: file.1.as_bytes(),
                });
            }
        }
        Err(io::Error::from(io::ErrorKind::NotFound))
    }
}

const EMPTY: Shelf<'static> = Shelf { files: &[] };

fn owned(alloc: Global, words: &[&str]) -> Result<Vec<String>, AllocError> {
    let mut all = Vec::new(alloc);
    for word in words {
        all.push(String::from_str(alloc, word)?)?;
    }
    Ok(all)
}

/// How the program ended: its status, and what went to the output and to standard error.
#[derive(Drop)]
struct Ended {
    status: u8,
    out: Vec<u8>,
    err: Vec<u8>,
}

/// Runs the words that the program was given, or else those of its standard input.
fn run_given<R: Threads + Wait + Clock + Sync, I: Read>(
    rt: &R,
    alloc: Global,
    given: Vec<String>,
    input: &mut I,
) -> Ended {
    let mut out = Vec::new(alloc);
    let mut err = Vec::new(alloc);
    let status = run(
        rt,
        alloc,
        &EMPTY,
        given,
        input,
        &mut out,
        &mut ErrorOutput::new(&mut err),
    );
    Ended { status, out, err }
}

/// Runs the command of these words over these files.
fn run_over<R: Threads + Wait + Clock + Sync, I: Read>(
    rt: &R,
    alloc: Global,
    files: &Shelf<'_>,
    words: &[&str],
    input: &mut I,
) -> Ended {
    let mut out = Vec::new(alloc);
    let mut err = Vec::new(alloc);
    let status = run_command(
        rt,
        alloc,
        files,
        words,
        input,
        &mut out,
        &mut ErrorOutput::new(&mut err),
    );
    Ended { status, out, err }
}

#[test]
fn words_are_those_given_or_those_of_the_reader(rt: HostRuntime) -> Result<(), Fail> {
    let given = owned(rt.alloc(), ASKED.as_slice())?;
    let mut lines = ASKED_LINES.as_bytes();
    for ended in [
        run_given(&rt, rt.alloc(), given, &mut Broken),
        run_given(&rt, rt.alloc(), Vec::new(rt.alloc()), &mut lines),
    ] {
        assert_eq!(rt; ended.status, 0);
        assert_eq!(rt; ended.out.as_slice(), b"granted\n".as_slice());
        assert!(rt; ended.err.is_empty());
    }
    Ok(())
}

/// The words of `compare`, for a file of 1000 and the group 50.
fn compared<'a>(first: [&'a str; 2], second: [&'a str; 2]) -> [&'a str; 9] {
    [
        "compare", "--owner", "1000", "--group", "50", first[0], first[1], second[0], second[1],
    ]
}

#[test]
fn compares_two_lists(rt: HostRuntime) {
    for (first, second, text) in [
        (
            ["posix", "u::rw,g::r,o::-"],
            [
                "nfs4",
                "A::OWNER@:rwa,D::OWNER@:x,A::GROUP@:r,D::GROUP@:wax",
            ],
            "alike\n",
        ),
        (
            ["posix", "u::-,g::-,o::r"],
            ["posix", "u::-,g::-,g:60:r,m::r,o::r"],
            "differ\nrequester 65534 50,60\nlost -\ngained r\n",
        ),
    ] {
        let words = compared(first, second);
        let ended = run_over(&rt, rt.alloc(), &EMPTY, words.as_slice(), &mut Broken);
        assert_eq!(rt; ended.status, 0);
        assert_eq!(rt; ended.out.as_slice(), text.as_bytes());
        assert!(rt; ended.err.is_empty());
    }
}

#[test]
fn explains_an_answer(rt: HostRuntime) {
    let words = [
        "explain",
        "--owner",
        "1000",
        "--group",
        "50",
        "--uid",
        "1001",
        "--gids",
        "60",
        "--perms",
        "rw",
        "nfs4",
        "A::OWNER@:rwa,D:g:60:w,A::EVERYONE@:rwa",
    ];
    let text = "denied\nr 3 A::EVERYONE@:rwa\nw 2 D:g:60:w\na 3 A::EVERYONE@:rwa\n";
    let ended = run_over(&rt, rt.alloc(), &EMPTY, words.as_slice(), &mut Broken);
    assert_eq!(rt; ended.status, 0);
    assert_eq!(rt; ended.out.as_slice(), text.as_bytes());
    assert!(rt; ended.err.is_empty());
}

#[test]
fn first_word_names_no_command(rt: HostRuntime) -> Result<(), Fail> {
    for (words, line) in [
        (["Decide"].as_slice(), "\"Decide\" names no command\n"),
        (["", "decide"].as_slice(), "\"\" names no command\n"),
        (["runs"].as_slice(), "\"runs\" names no command\n"),
        (["decide\r"].as_slice(), "\"decide\\r\" names no command\n"),
    ] {
        let given = owned(rt.alloc(), words)?;
        let ended = run_given(&rt, rt.alloc(), given, &mut Broken);
        assert_eq!(rt; ended.status, 2);
        let text = format!(in rt.alloc(); "aclctl: no command\n{line}\nusage: aclctl COMMAND")?;
        assert!(rt; ended.err.starts_with(text.as_bytes()));
        assert!(rt; ended.out.is_empty());
    }
    Ok(())
}

#[test]
fn help_and_version(rt: HostRuntime) {
    for (word, start) in [
        ("--help", "usage: aclctl COMMAND"),
        ("--version", "aclctl 0.1.0\n"),
    ] {
        let ended = run_over(&rt, rt.alloc(), &EMPTY, [word].as_slice(), &mut Broken);
        assert_eq!(rt; ended.status, 0);
        assert!(rt; ended.out.starts_with(start.as_bytes()));
        assert!(rt; ended.err.is_empty());
    }
}

/// Runs the words of standard input.
fn run_input<R: Threads + Wait + Clock + Sync, I: Read>(
    rt: &R,
    alloc: Global,
    input: &mut I,
) -> Ended {
    run_given(rt, alloc, Vec::new(alloc), input)
}

#[test]
fn standard_input_is_refused(rt: HostRuntime) {
    for (ended, status, line) in [
        (
            run_input(&rt, rt.alloc(), &mut io::repeat(b'x')),
            2,
            "aclctl: too many words\n",
        ),
        (
            run_input(&rt, rt.alloc(), &mut b"decide\n\xff".as_slice()),
            2,
            "aclctl: bad words\n",
        ),
        (
            run_input(&rt, rt.alloc(), &mut Broken),
            1,
            "aclctl: cannot read -\n",
        ),
    ] {
        assert_eq!(rt; ended.status, status);
        assert_eq!(rt; ended.err.as_slice(), line.as_bytes());
        assert!(rt; ended.out.is_empty());
    }
}

#[test]
fn words_on_standard_input_take_65_536_bytes(rt: HostRuntime) -> Result<(), Fail> {
    // No input at all has no word.
    for (count, line) in [
        (0, b"aclctl: no command\n".as_slice()),
        (65_536, b"aclctl: no command\n".as_slice()),
        (65_537, b"aclctl: too many words\n".as_slice()),
    ] {
        let text = vec![in rt.alloc(); b'x'; count]?;
        let ended = run_input(&rt, rt.alloc(), &mut text.as_slice());
        assert_eq!(rt; ended.status, 2);
        assert!(rt; ended.err.starts_with(line));
    }
    Ok(())
}

/// The words that ask, with a comment behind the list, so many bytes in all.
fn commented(alloc: Global, count: usize) -> Result<Vec<u8>, AllocError> {
    let mut text = ASKED_LINES.trim_end().as_bytes().to_vec(alloc)?;
    text.push(b'#')?;
    for _ in text.len()..count {
        text.push(b'x')?;
    }
    Ok(text)
}

/// What words may have is filled.
#[test]
fn long_words_are_words(rt: HostRuntime) -> Result<(), Fail> {
    for count in [10_000, 59_999, 65_536] {
        let text = commented(rt.alloc(), count)?;
        assert_eq!(rt; text.len(), count);
        let ended = run_input(&rt, rt.alloc(), &mut text.as_slice());
        assert_eq!(rt; ended.status, 0);
        assert_eq!(rt; ended.out.as_slice(), b"granted\n".as_slice());
        assert!(rt; ended.err.is_empty());
    }
    Ok(())
}

/// Runs the words where no input can be read and no output can be written.
fn run_broken<R: Threads + Wait + Clock + Sync, E: Write + Drop>(
    rt: &R,
    alloc: Global,
    words: &[&str],
    err: E,
) -> u8 {
    let mut err = ErrorOutput::new(err);
    run_command(rt, alloc, &EMPTY, words, &mut Broken, &mut Broken, &mut err)
}

#[test]
fn failed_writes(rt: HostRuntime) {
    let mut err = Vec::new(rt.alloc());
    assert_eq!(rt; run_broken(&rt, rt.alloc(), ASKED.as_slice(), &mut err), 3);
    assert_eq!(rt; err.as_slice(), b"aclctl: run: output\n".as_slice());
    // A fault while writing to standard error changes no status.
    assert_eq!(rt;
        run_broken(&rt, rt.alloc(), ["assist"].as_slice(), Broken),
        2
    );
    assert_eq!(rt;
        run_broken(&rt, rt.alloc(), ["--help"].as_slice(), &mut err),
        3
    );
    let lines = b"aclctl: run: output\naclctl: run: output\n";
    assert_eq!(rt; err.as_slice(), lines.as_slice());
}

const SETUP: &str =
    "domain = \"a\"\numask = \"022\"\nroot = { owner = \"al\", group = \"staff\", mode = \"755\", style = \"posix\" }\nuser = [ { name = \"al\", uid = 7, groups = [\"staff\"] } ]\ngroup = [ { name = \"staff\", gid = 50 } ]\n";

#[test]
fn sessions_of_files_and_of_standard_input(rt: HostRuntime) -> Result<(), Fail> {
    let shelf = Shelf {
        files: &[("s", SETUP), ("one", "get /\n")],
    };
    let words = ["run", "--setup", "s", "one", "-"].as_slice();
    let mut input = b"check / al w\n".as_slice();
    let ended = run_over(&rt, rt.alloc(), &shelf, words, &mut input);
    let wanted =
        "session 0\n1 get / dir al staff 755 posix\nuser::rwx\ngroup::r-x\nother::r-x\nsession 1\n1 granted\n";
    assert_eq!(rt; ended.status, 0);
    assert_eq!(rt; ended.out.as_slice(), wanted.as_bytes());
    assert!(rt; ended.err.is_empty());
    Ok(())
}

/// Words whose files are refused, with the status and the line.
const REFUSED_FILES: [(&[&str], u8, &str); 5] = [
    (
        &["run", "--setup", "none", "one"],
        1,
        "aclctl: cannot read none\n",
    ),
    (
        &["run", "--setup", "s", "one", "two"],
        1,
        "aclctl: cannot read two\n",
    ),
    (&["run", "--setup", "s", "-"], 1, "aclctl: cannot read -\n"),
    (
        &["run", "--setup", "s", "-", "-"],
        2,
        "aclctl: - is given twice\n",
    ),
    (
        &["run", "--setup", "one", "one"],
        1,
        "aclctl: setup: not toml\n",
    ),
];

#[test]
fn files_that_are_refused(rt: HostRuntime) -> Result<(), Fail> {
    let shelf = Shelf {
        files: &[("s", SETUP), ("one", "get /\n")],
    };
    for (words, status, line) in REFUSED_FILES {
        let ended = run_over(&rt, rt.alloc(), &shelf, words, &mut Broken);
        assert_eq!(rt; ended.status, status);
        assert!(rt; ended.out.is_empty());
        assert_eq!(rt; ended.err.as_slice(), line.as_bytes());
    }
    Ok(())
}
