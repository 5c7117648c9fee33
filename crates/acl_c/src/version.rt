//! The version of the calls, and the names of what goes wrong.

ghost use Rattle.std.specs.Prelude.{◌≡◌};
ghost use Rattle.acl_c.specs.Answers.{Puts};
ghost use Rattle.acl_c.specs.Names.{errno_of, error_name};

use crate::buffers::put_bytes;

/// The version of the calls and their numbers: what was there stays while the first of the two
/// halves does.
#[unsafe(no_mangle)]
pub extern "C" fn meardwyn_version() -> u32
    ensures { result ≡ 0x10000 }
{
    0x1_0000
}

/// The name of what goes wrong.
fn name_of(error: i32) -> &'static str
    ensures { result.now ≡ error_name error }
{
    match error {
        -1 => "no-memory",
        -2 => "no-room",
        -3 => "bad-argument",
        -4 => "bad-size",
        -5 => "bad-version",
        -6 => "too-many",
        -7 => "bad-tag",
        -8 => "bad-id",
        -9 => "bad-permissions",
        -10 => "missing-entry",
        -11 => "repeated-entry",
        -12 => "no-mask",
        -13 => "bad-type",
        -14 => "bad-flags",
        -15 => "bad-mask",
        -16 => "bad-who",
        -17 => "inherit-only",
        -18 => "syntax",
        -19 => "unknown-name",
        -20 => "invalid-list",
        -21 => "unkept-bits",
        _ => "unknown",
    }
}

/// The name of what goes wrong, without a byte 0 behind it.
#[unsafe(no_mangle)]
pub extern "C" fn meardwyn_error_name(error: i32, out: &mut [u8], needed: &mut usize) -> i32
    ensures { Puts (error_name error) result out.old out.new needed.new }
{
    put_bytes(name_of(error).as_bytes(), out, needed)
}

/// The number of errno for what a call reports: 0 if that is no error. Of memory it is `ENOMEM`, of
/// a buffer `ERANGE`, of too many entries `ENOSPC`, and else `EINVAL`.
#[unsafe(no_mangle)]
pub extern "C" fn meardwyn_errno(error: i32) -> i32
    ensures { result ≡ errno_of error }
{
    match error {
        0.. => 0,
        -1 => 12,
        -2 => 34,
        -6 => 28,
        _ => 22,
    }
}
