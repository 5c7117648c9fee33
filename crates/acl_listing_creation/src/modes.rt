//! The modes that the words give.
ghost use Rattle.std.specs.Prelude.{◌≡◌, ◌≤◌, IfErr, IfOk, Ok, option_map};
ghost use Rattle.clap.specs.Words.{found_of, rows_of};
ghost use Rattle.acl_listing_creation.specs.NextFields.{ExplainsRefusal, kind_in, mode_of};
ghost use Rattle.acl_listing_creation.specs.NextFields.{modes_in, usual_mode, usual_umask};

use acl_cli::fields::{flag_field, text_field};
use acl_cli::{Failure, Refusal};
use acl_nfs4::Kind;
use acl_posix::{Mode, Perms};
use bitflags::Flags;
use clap::ArgMatches;
use std::alloc::Global;

/// The mode of what is created, and the umask.
#[derive(Drop)]
pub(crate) struct Modes {
    pub mode: Mode,
    pub umask: Mode,
}

/// Whether a file or a folder is created.
pub(crate) fn kind_field(matches: &ArgMatches<'_>) -> Kind
    ensures { result ≡ kind_in (rows_of (found_of matches.now)) }
{
    if flag_field(matches, "dir") {
        Kind::Dir
    } else {
        Kind::File
    }
}

/// The mode with these permissions for all three classes.
fn for_all(bits: u8) -> Mode
    requires { bits ≤ 7 }
    ensures { result ≡ record { user = bits; group = bits; other = bits } }
{
    let perms = Perms::from_bits_retain(bits);
    Mode {
        user: perms,
        group: perms,
        other: perms,
    }
}

/// The mode that programs usually request.
fn usual_mode(kind: Kind) -> Mode
    ensures { result ≡ usual_mode kind }
{
    match kind {
        Kind::File => for_all(6),
        Kind::Dir => for_all(7),
    }
}

/// The umask that programs usually have.
fn usual_umask() -> Mode
    ensures { result ≡ usual_umask }
{
    Mode {
        user: Perms::from_bits_retain(0),
        group: Perms::from_bits_retain(2),
        other: Perms::from_bits_retain(2),
    }
}

/// The mode that a word gives, or `usual` without one.
fn mode_given<'a>(
    alloc: Global,
    place: &'a str,
    usual: Mode,
    word: Option<&'a str>,
) -> Result<Mode, Failure<'a>>
    ensures read { IfOk result (λ mode. mode_of place.entry.now usual
        (option_map (λ text. text.now) word.entry) ≡ Ok mode) }
    ensures refused { IfErr result (ExplainsRefusal (mode_of place.entry.now usual
        (option_map (λ text. text.now) word.entry))) }
{
    let Some(text) = word else {
        return Ok(usual);
    };
    match Mode::from_octal(text.as_bytes()) {
        Some(mode) => Ok(mode),
        None => {
            let text = Vec::from_slice(alloc, text.as_bytes())?;
            Err(Failure::Refused(Refusal::for_text(place, "bad-mode", text)))
        }
    }
}

/// The mode and the umask that the words give, or the usual ones.
pub(crate) fn modes_field<'a>(alloc: Global, matches: &ArgMatches<'a>) -> Result<Modes, Failure<'a>>
    ensures read { IfOk result (λ modes. modes_in (rows_of (found_of matches.now)) ≡ Ok modes) }
    ensures refused { IfErr result
        (ExplainsRefusal (modes_in (rows_of (found_of matches.now)))) }
{
    let usual = usual_mode(kind_field(matches));
    let mode = mode_given(alloc, "--mode", usual, text_field(matches, "mode"))?;
    let umask = mode_given(
        alloc,
        "--umask",
        usual_umask(),
        text_field(matches, "umask"),
    )?;
    Ok(Modes { mode, umask })
}
