//! The words of the program: its arguments, or else those on standard input.
ghost use Rattle.std.specs.Prelude.{◌≡◌, ◌≢◌, [], map, IfErr, IfOk, IfSome, IsOkAnd, Some};
ghost use Rattle.std.specs.String.{string_bytes};
ghost use Rattle.aclctl.specs.Input.{AreWordsOf, IsInputFailure};

use acl_cli::{CapFault, Failure, Misuse, Reason, RunFault, WordsFault, read_capped, words_of};
use std::alloc::Global;
use std::io::Read;

/// How many bytes the words on standard input may take.
const MAX_BYTES: usize = 65_536;

/// The words of the reader, one a line.
fn read_words<'n, R: Read>(alloc: Global, reader: &mut R) -> Result<Vec<String>, Failure<'n>>
    // Of a reader that reports its bytes.
    ensures read { IfOk result (λ words. IfSome (R.remaining reader.old)
        (λ bytes. AreWordsOf bytes (map string_bytes words.items)
        × (R.remaining reader.new ≡ Some []))) }
    ensures refused { IfErr result (λ failure. IfSome (R.remaining reader.old)
        (IsInputFailure failure)) }
{
    match read_capped(alloc, reader, MAX_BYTES) {
        Ok(bytes) => match words_of(alloc, bytes.as_slice()) {
            Ok(words) => Ok(words),
            Err(WordsFault::BadWords) => Err(Failure::Misuse(Misuse::BadWords)),
            Err(WordsFault::Memory) => Err(Failure::Lacks(RunFault::Memory)),
        },
        Err(CapFault::Read) => Err(Failure::CannotRead("-", Reason::Unknown)),
        Err(CapFault::TooLong) => Err(Failure::Misuse(Misuse::TooManyWords)),
        Err(CapFault::Memory) => Err(Failure::Lacks(RunFault::Memory)),
    }
}

/// The words given, or, if there are none, those that the reader has, one a line.
pub fn command_words<'n, R: Read>(
    alloc: Global,
    given: Vec<String>,
    reader: &mut R,
) -> Result<Vec<String>, Failure<'n>>
    ensures given { given.items ≢ [] → IsOkAnd result (λ words. words.items ≡ given.items) }
    ensures untouched { given.items ≢ [] → reader.new ≡ reader.old }

    // Of a reader that reports its bytes.
    ensures read { given.items ≡ [] → IfOk result (λ words. IfSome (R.remaining reader.old)
        (λ bytes. AreWordsOf bytes (map string_bytes words.items)
        × (R.remaining reader.new ≡ Some []))) }
    ensures refused { IfErr result (λ failure. IfSome (R.remaining reader.old)
        (IsInputFailure failure)) }
{
    if !given.is_empty() {
        return Ok(given);
    }
    read_words(alloc, reader)
}
