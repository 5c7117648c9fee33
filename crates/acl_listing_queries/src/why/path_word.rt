//! PATH of `why`, as the words have it and as a listing does.
ghost use Rattle.std.specs.Prelude.{◌≡◌, ◌≢◌, ◌<◌, ◌++◌, [], IfOk, length};
ghost use Rattle.acl_listing_queries.specs.PathWord.{as_listed, is_escaped};

use acl_accounts::{is_pair, octal_front};
use std::alloc::{AllocError, Global};

/// PATH as a listing has it: `\` and three octal digits are that byte, except for the bytes that
/// getfacl prints so, and two backslashes stay. Words are UTF-8, and paths any bytes. Fails only if
/// memory runs out.
pub(super) fn as_listed(alloc: Global, word: &[u8]) -> Result<Vec<u8>, AllocError>
    ensures { IfOk result (λ path. path.items ≡ as_listed word.now) }
{
    let mut path = Vec::new(alloc);
    let mut rest = word;
    while !rest.is_empty() {
        rest = push_front(rest, &mut path)?;
    }
    Ok(path)
}

/// Appends what PATH, which isn't empty, begins with in a listing. Returns the rest of PATH.
fn push_front<'t>(word: &'t [u8], path: &mut Vec<u8>) -> Result<&'t [u8], AllocError>
    requires { word.now ≢ [] }
    ensures listed { IfOk result (λ rest. path.new.items ++ as_listed rest.now
        ≡ path.old.items ++ as_listed word.now) }
    ensures shorter { IfOk result (λ rest. length rest.now < length word.now) }
{
    if word.len() >= 2 && is_pair(word[0], word[1]) {
        path.extend_from_slice(&word[..2])?;
        return Ok(&word[2..]);
    }
    match octal_front(word) {
        Some(byte) if !is_escaped(byte) => {
            path.push(byte)?;
            Ok(&word[4..])
        }
        _ => {
            path.push(word[0])?;
            Ok(&word[1..])
        }
    }
}

fn is_escaped(byte: u8) -> bool
    ensures { result ≡ is_escaped byte }
{
    byte == b'\n' || byte == b'\r' || byte == b'\\'
}
