//! The texts of sessions as they are read.
ghost use Rattle.std.specs.Prelude.{◌≡◌, ◌≤◌, ◌<◌, ◌^◌, All, IfErr, IfOk, length, map};
ghost use Rattle.acl_lang.specs.Texts.{requests_of};
ghost use Rattle.acl_lang.specs.declared.limits.TheConstants.{MAX_TEXT_LEN};
ghost use Rattle.acl_service.specs.Cursor.{rest_of};
ghost use Rattle.acl_service.specs.Sessions.{requests_of_each};

use acl_lang::{MAX_TEXT_LEN, Numbered, Requests};
use acl_names::Directory;
use acl_runs::{RequestSource, ServeFault};
use std::alloc::{AllocError, Global};

/// The requests of a session's text that are still to come, read line by line.
#[derive(Drop)]
pub(crate) struct Cursor<'a> {
    alloc: Global,
    requests: Requests<'a>,
}

impl<'a> Cursor<'a> {
    fn new(alloc: Global, directory: &'a Directory, text: &'a [u8]) -> Cursor<'a>
        requires { length text.now ≤ MAX_TEXT_LEN }
        ensures { rest_of result ≡ requests_of directory.now text.now }
    {
        Cursor {
            alloc,
            requests: Requests::new(text, directory),
        }
    }
}

impl<'a> RequestSource for Cursor<'a> {
    type Request = Numbered;

    ghost rest = { λ cursor. cursor.requests };

    fn next(&mut self) -> Result<Option<Numbered>, AllocError> {
        self.requests.next(self.alloc)
    }
}

/// A cursor at the beginning of each text.
pub(super) fn open_all<'a>(
    alloc: Global,
    directory: &'a Directory,
    texts: &'a [Vec<u8>],
) -> Result<Vec<Cursor<'a>>, ServeFault>
    requires { All (λ text. length text.items ≤ MAX_TEXT_LEN) texts.now }
    ensures requests { IfOk result (λ cursors. map rest_of cursors.items
        ≡ requests_of_each directory.now texts.now) }
    ensures few { IfOk result (λ cursors. All (λ cursor. length (rest_of cursor) < 2 ^ 32)
        cursors.items) }
    ensures fault { IfErr result (λ fault. fault ≡ ServeFault.Memory) }
{
    let Ok(mut cursors) = Vec::with_capacity(alloc, texts.len()) else {
        return Err(ServeFault::Memory);
    };
    for text in texts {
        cursors.push_reserved(Cursor::new(alloc, directory, text.as_slice()));
    }
    Ok(cursors)
}
