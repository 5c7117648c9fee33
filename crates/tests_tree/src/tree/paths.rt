//! Which bytes are paths, and in what they lie.
use acl_tree::Path;
use std::alloc::Global;

/// Paths, each with what it lies in. The last two have 16 and 17 bytes: of these the second takes
/// memory.
const PARENTS: [(&str, &str); 6] = [
    ("/", "/"),
    ("/a", "/"),
    ("/a/b.c", "/a"),
    ("/...+_-/9", "/...+_-"),
    ("/plans/budget-26", "/plans"),
    ("/plans/budget-026", "/plans"),
];

/// What stands first, what stands so many times after it, what stands last, and whether all of it
/// is a path.
const LONG: [(&str, &str, usize, &str, bool); 4] = [
    ("/", "a", 64, "", true),
    ("/", "a", 65, "", false),
    ("", "/a", 126, "/aa", true),
    ("", "/a", 126, "/aaa", false),
];

/// Whether these are the bytes of the path, and it lies in this one.
fn is(path: &Path, text: &str, parent: &str) -> bool {
    path.as_bytes() == text.as_bytes() && path.parent() == parent.as_bytes()
}

/// Whether the text is a path, and lies in this one, as its copy does.
fn lies_in(alloc: Global, text: &str, parent: &str) -> Option<bool> {
    let path = Path::read(alloc, text.as_bytes()).ok()?;
    let copy = path.try_clone(alloc).ok()?;
    Some(is(&path, text, parent) && is(&copy, text, parent))
}

#[test]
fn parents(rt: HostRuntime) {
    for (text, parent) in PARENTS {
        assert_eq!(rt; lies_in(rt.alloc(), text, parent), Some(true), "{text}");
    }
}

/// Whether the pieces are a path; none where memory is refused.
fn are_path(alloc: Global, first: &str, piece: &str, count: usize, last: &str) -> Option<bool> {
    let mut bytes = Vec::new(alloc);
    bytes.extend_from_slice(first.as_bytes()).ok()?;
    for _ in 0..count {
        bytes.extend_from_slice(piece.as_bytes()).ok()?;
    }
    bytes.extend_from_slice(last.as_bytes()).ok()?;
    Some(Path::read(alloc, bytes.as_slice()).is_ok())
}

#[test]
fn long_paths(rt: HostRuntime) {
    for (first, piece, count, last, path) in LONG {
        let are = are_path(rt.alloc(), first, piece, count, last);
        assert_eq!(rt; are, Some(path), "{count} of {piece}, {last}");
    }
}
