//! Reading all of a reader's bytes, up to a limit.
ghost use Rattle.std.specs.Prelude.{◌≡◌, ◌≢◌, ◌+◌, ◌<◌, ◌≤◌, length, vec_len, IfErr, IfOk, IfSome};
ghost use Rattle.std.specs.Prelude.{IsErrOf, OnOk};
ghost use Rattle.std.specs.Io.KnownBytes.{IsAtEnd};
ghost use Rattle.acl_cli.specs.Failures.{IsReadFailure, IsUnexplained, status_of};
ghost use Rattle.acl_cli.specs.Input.{ConsumesAtMost};

use crate::{Failure, OpenFiles, Reason, RunFault};
use std::alloc::Global;
use std::io::{ErrorKind, Read};
use thiserror::Error;

/// Why the bytes weren't read.
#[derive(Clone, Copy, Debug, PartialEq, Eq, Error)]
pub enum CapFault {
    /// A read failed.
    #[error("a read failed")]
    Read,
    /// There are more bytes than the limit.
    #[error("too long")]
    TooLong,
    /// Memory ran out.
    #[error("memory")]
    Memory,
}

/// How many bytes one read requests at most.
const PIECE: usize = 32_768;

/// All bytes of the reader, at most `cap`. It reads at most one more, and repeats interrupted
/// reads.
pub fn read_capped<R: Read>(alloc: Global, reader: &mut R, cap: usize) -> Result<Vec<u8>, CapFault>
    ensures capped { IfOk result (λ bytes. vec_len bytes ≤ cap) }

    // Of a reader that reports its bytes.
    ensures whole { IfOk result (λ bytes. IfSome (R.remaining reader.old)
        (λ reported. bytes.items ≡ reported)) }
    ensures ended { OnOk result (IsAtEnd (R.remaining reader.new)) }
    ensures too_long { IsErrOf result CapFault.TooLong
        → IfSome (R.remaining reader.old) (λ reported. cap < length reported) }
    ensures bounded { ConsumesAtMost (R.remaining reader.old) (R.remaining reader.new) (cap + 1) }
{
    let mut bytes = Vec::new(alloc);
    let mut piece = [0; PIECE];
    for _ in 0..u64::MAX {
        let room = cap - bytes.len();
        let most = room.min(PIECE - 1) + 1;
        match reader.read(&mut piece[..most]) {
            Ok(0) => return Ok(bytes),
            Ok(count) if count > room => return Err(CapFault::TooLong),
            Ok(count) => {
                if bytes.extend_from_slice(&piece[..count]).is_err() {
                    return Err(CapFault::Memory);
                }
            }
            Err(error) if error.kind() == ErrorKind::Interrupted => {}
            Err(_) => return Err(CapFault::Read),
        }
    }
    Err(CapFault::Read)
}

/// All bytes of the reader, at most `cap`. Failures name it `name`.
pub fn read_named<'a, R: Read>(
    alloc: Global,
    name: &'a str,
    reader: &mut R,
    cap: usize,
) -> Result<Vec<u8>, Failure<'a>>
    ensures capped { IfOk result (λ bytes. vec_len bytes ≤ cap) }
    ensures whole { IfOk result (λ bytes. IfSome (R.remaining reader.old)
        (λ reported. bytes.items ≡ reported)) }
    ensures usage { IfErr result (λ failure. status_of failure ≢ 2) }
    ensures refused { IfErr result (IsReadFailure name.entry.now) }
    ensures unexplained { IfErr result (IsUnexplained (λ refused. refused ≡ name.entry.now)) }
{
    match read_capped(alloc, reader, cap) {
        Ok(bytes) => Ok(bytes),
        Err(CapFault::Memory) => Err(Failure::Lacks(RunFault::Memory)),
        Err(_) => Err(Failure::CannotRead(name, Reason::Unknown)),
    }
}

/// All bytes of the file of this name, at most `cap`.
pub fn read_file<'a, F: OpenFiles>(
    alloc: Global,
    files: &F,
    name: &'a str,
    cap: usize,
) -> Result<Vec<u8>, Failure<'a>>
    ensures capped { IfOk result (λ bytes. vec_len bytes ≤ cap) }
    ensures whole { IfOk result (λ bytes. IfSome (F.bytes_of files.now name.entry.now)
        (λ reported. bytes.items ≡ reported)) }
    ensures refused { IfErr result (IsReadFailure name.entry.now) }
{
    match files.open(name) {
        Ok(mut file) => read_named(alloc, name, &mut file, cap),
        Err(error) => Err(Failure::CannotRead(name, Reason::of(error.kind()))),
    }
}
