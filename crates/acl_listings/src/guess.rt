//! Guesses what a text is that isn't a listing.

ghost use Rattle.std.specs.Prelude.{◌≡◌};
ghost use Rattle.std.specs.Io.BufRead.{ends_with_byte};
ghost use Rattle.acl_names.specs.Bytes.{carriage_return};
ghost use Rattle.acl_listings.specs.Guess.{begins, begins_wide, guess_of_lines, is_nfs4};

use crate::header::{read_path, split_line};
use acl_forms::{Form, form_of};

/// What a text may be in which no block is a file, by its first block.
#[derive(Clone, Copy, Debug, PartialEq, Eq)]
pub enum Guess {
    /// It is compressed by gzip.
    Gzip,
    /// Its characters have two bytes, as in UTF-16.
    Utf16,
    /// Its lines end with a carriage return and a newline.
    CarriageReturns,
    /// It is a table, as `getfacl -t` prints.
    Tabular,
    /// Its blocks have no owner, as `getfacl -c` and `nfs4_getfacl` print.
    NoOwners,
    /// It is none of these.
    NoListing,
}

impl Guess {
    ghost use Rattle.acl_listings.specs.Guess.{guess_of, guess_words};

    /// The guess for a text with this first block.
    pub fn of(block: &[u8]) -> Guess
        ensures { result ≡ guess_of block.now }
    {
        if begins(b"\x1f\x8b", block) {
            return Guess::Gzip;
        }
        if begins(b"\xff\xfe", block) || begins(b"\xfe\xff", block) {
            return Guess::Utf16;
        }
        if begins_wide(block) {
            return Guess::Utf16;
        }
        let (first, behind) = split_line(block);
        let (second, _) = split_line(behind);
        guess_of_lines(first, second)
    }

    /// The words that ask whether the guess is right.
    pub fn words(self) -> &'static str
        ensures { result.now ≡ guess_words self }
    {
        match self {
            Guess::Gzip => "is it gzip?",
            Guess::Utf16 => "is it UTF-16?",
            Guess::CarriageReturns => "has it carriage returns?",
            Guess::Tabular => "is it tabular (getfacl -t)?",
            Guess::NoOwners => "is it without owners (getfacl -c, nfs4_getfacl)?",
            Guess::NoListing => "is it a listing?",
        }
    }
}

/// The guess by a text's first line and its second.
fn guess_of_lines(first: &[u8], second: &[u8]) -> Guess
    ensures { result ≡ guess_of_lines first.now second.now }
{
    if ends_with_return(first) {
        return Guess::CarriageReturns;
    }
    if begins(b"# file: ", first) && begins(b"USER", second) {
        return Guess::Tabular;
    }
    if read_path(first).is_some() && !begins(b"# owner: ", second) {
        return Guess::NoOwners;
    }
    // `getfacl -c` omits the whole header, and so do tools for NFSv4 lists of one file.
    if begins(b"user::", first) || is_nfs4(form_of(first)) {
        return Guess::NoOwners;
    }
    Guess::NoListing
}

fn begins(word: &[u8], text: &[u8]) -> bool
    ensures { result ≡ begins word.now text.now }
{
    text.starts_with(word)
}

/// Whether the form is one of NFSv4 lists.
fn is_nfs4(form: Form) -> bool
    ensures { result ≡ is_nfs4 form }
{
    match form {
        Form::Posix => false,
        Form::Nfs4 | Form::Freebsd => true,
    }
}

/// Whether one of the first two bytes is 0, as in a letter of two bytes.
fn begins_wide(text: &[u8]) -> bool
    ensures { result ≡ begins_wide text.now }
{
    begins(b"\0", text) || !text.is_empty() && begins(b"\0", &text[1..])
}

fn ends_with_return(line: &[u8]) -> bool
    ensures { result ≡ ends_with_byte carriage_return line.now }
{
    line.ends_with(b"\r")
}
