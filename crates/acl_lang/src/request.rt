//! Reading commands.

ghost use Rattle.acl_lang.specs.Commands.{asked_by, check, check4, chmod, command, create, get};
ghost use Rattle.acl_lang.specs.Commands.{set, set_access, set_default, set_list, set_nfs4};
ghost use Rattle.acl_lang.specs.Commands.{translate};
ghost use Rattle.acl_lang.specs.Refusals.{ReadsAs};
ghost use Rattle.acl_lang.specs.Words.{words};

use crate::fields::{
    read_acl, read_acl4, read_default, read_kind, read_mask, read_mode, read_path,
    read_perms_field, read_user,
};
use crate::refusal::Refusal;
use crate::words::Words;
use acl_names::{Directory, split_word};
use acl_tree::{Boxed, LineFault, Request};
use std::alloc::Global;

/// Reads the request of a line without blanks at its ends.
pub(crate) fn read_request(
    alloc: Global,
    line: &[u8],
    directory: &Directory,
) -> Result<Request, Refusal>
    ensures { ReadsAs (asked_by directory.now line.now) result }
{
    let (word, fields) = split_word(line);
    read_command(alloc, word, fields, directory)
}

#[tactic(auto, unfolding(crate::specs::Commands::command))]
fn read_command(
    alloc: Global,
    word: &[u8],
    fields: &[u8],
    directory: &Directory,
) -> Result<Request, Refusal>
    ensures { ReadsAs (command directory.now word.now fields.now) result }
{
    if word == b"get".as_slice() {
        read_get(alloc, fields)
    } else if word == b"set".as_slice() {
        read_set(alloc, fields, directory)
    } else if word == b"chmod".as_slice() {
        read_chmod(alloc, fields)
    } else if word == b"create".as_slice() {
        read_create(alloc, fields, directory)
    } else if word == b"check".as_slice() {
        read_check(alloc, fields, directory)
    } else if word == b"check4".as_slice() {
        read_check4(alloc, fields, directory)
    } else if word == b"translate".as_slice() {
        read_translate(alloc, fields)
    } else {
        Err(Refusal::Fault(LineFault::Syntax))
    }
}

/// `get P`
#[tactic(auto, unfolding(crate::specs::Commands::get))]
fn read_get(alloc: Global, fields: &[u8]) -> Result<Request, Refusal>
    ensures { ReadsAs (get (words fields.now)) result }
{
    let mut words = Words::new(fields);
    match (words.next(), words.next()) {
        (Some(path), None) => Ok(Request::Get(read_path(alloc, path)?)),
        _ => Err(Refusal::Fault(LineFault::Syntax)),
    }
}

/// `translate P`
#[tactic(auto, unfolding(crate::specs::Commands::translate))]
fn read_translate(alloc: Global, fields: &[u8]) -> Result<Request, Refusal>
    ensures { ReadsAs (translate (words fields.now)) result }
{
    let mut words = Words::new(fields);
    match (words.next(), words.next()) {
        (Some(path), None) => Ok(Request::Translate(read_path(alloc, path)?)),
        _ => Err(Refusal::Fault(LineFault::Syntax)),
    }
}

/// `chmod P OOO`
#[tactic(auto, unfolding(crate::specs::Commands::chmod))]
fn read_chmod(alloc: Global, fields: &[u8]) -> Result<Request, Refusal>
    ensures { ReadsAs (chmod (words fields.now)) result }
{
    let mut words = Words::new(fields);
    match (words.next(), words.next(), words.next()) {
        (Some(path), Some(mode), None) => {
            let path = read_path(alloc, path)?;
            let mode = read_mode(mode)?;
            Ok(Request::Chmod(path, mode))
        }
        _ => Err(Refusal::Fault(LineFault::Syntax)),
    }
}

/// `create file P USER OOO`, `create dir P USER OOO`
#[tactic(auto, unfolding(crate::specs::Commands::create))]
fn read_create(alloc: Global, fields: &[u8], directory: &Directory) -> Result<Request, Refusal>
    ensures { ReadsAs (create directory.now (words fields.now)) result }
{
    let mut words = Words::new(fields);
    match (
        words.next(),
        words.next(),
        words.next(),
        words.next(),
        words.next(),
    ) {
        (Some(kind), Some(path), Some(user), Some(mode), None) => {
            let kind = read_kind(kind)?;
            let path = read_path(alloc, path)?;
            let user = read_user(directory, user)?;
            let mode = read_mode(mode)?;
            Ok(Request::Create(kind, path, user, mode))
        }
        _ => Err(Refusal::Fault(LineFault::Syntax)),
    }
}

/// `check P USER PERMS`
#[tactic(auto, unfolding(crate::specs::Commands::check))]
fn read_check(alloc: Global, fields: &[u8], directory: &Directory) -> Result<Request, Refusal>
    ensures { ReadsAs (check directory.now (words fields.now)) result }
{
    let mut words = Words::new(fields);
    match (words.next(), words.next(), words.next(), words.next()) {
        (Some(path), Some(user), Some(perms), None) => {
            let path = read_path(alloc, path)?;
            let user = read_user(directory, user)?;
            let perms = read_perms_field(perms)?;
            Ok(Request::Check(path, user, perms))
        }
        _ => Err(Refusal::Fault(LineFault::Syntax)),
    }
}

/// `check4 P USER LETTERS`
#[tactic(auto, unfolding(crate::specs::Commands::check4))]
fn read_check4(alloc: Global, fields: &[u8], directory: &Directory) -> Result<Request, Refusal>
    ensures { ReadsAs (check4 directory.now (words fields.now)) result }
{
    let mut words = Words::new(fields);
    match (words.next(), words.next(), words.next(), words.next()) {
        (Some(path), Some(user), Some(mask), None) => {
            let path = read_path(alloc, path)?;
            let user = read_user(directory, user)?;
            let mask = read_mask(mask)?;
            Ok(Request::Check4(path, user, mask))
        }
        _ => Err(Refusal::Fault(LineFault::Syntax)),
    }
}

/// `set P KIND TEXT`
fn read_set(alloc: Global, fields: &[u8], directory: &Directory) -> Result<Request, Refusal>
    ensures { ReadsAs (set directory.now fields.now) result }
{
    let (path, fields) = split_word(fields);
    let (kind, text) = split_word(fields);
    read_set_list(alloc, path, kind, text, directory)
}

fn read_set_list(
    alloc: Global,
    path: &[u8],
    kind: &[u8],
    text: &[u8],
    directory: &Directory,
) -> Result<Request, Refusal>
    ensures { ReadsAs (set_list directory.now path.now kind.now text.now) result }
{
    if text.is_empty() {
        Err(Refusal::Fault(LineFault::Syntax))
    } else if kind == b"access".as_slice() {
        read_set_access(alloc, path, text, directory)
    } else if kind == b"default".as_slice() {
        read_set_default(alloc, path, text, directory)
    } else if kind == b"nfs4".as_slice() {
        read_set_nfs4(alloc, path, text, directory)
    } else {
        Err(Refusal::Fault(LineFault::Syntax))
    }
}

#[tactic(auto, unfolding(crate::specs::Commands::set_access))]
fn read_set_access(
    alloc: Global,
    path: &[u8],
    text: &[u8],
    directory: &Directory,
) -> Result<Request, Refusal>
    ensures { ReadsAs (set_access directory.now path.now text.now) result }
{
    let path = read_path(alloc, path)?;
    let acl = Boxed::new(alloc, read_acl(alloc, text, directory)?)?;
    Ok(Request::SetAccess(path, acl))
}

#[tactic(auto, unfolding(crate::specs::Commands::set_default))]
fn read_set_default(
    alloc: Global,
    path: &[u8],
    text: &[u8],
    directory: &Directory,
) -> Result<Request, Refusal>
    ensures { ReadsAs (set_default directory.now path.now text.now) result }
{
    let path = read_path(alloc, path)?;
    let default = read_default(alloc, text, directory)?;
    Ok(Request::SetDefault(path, default))
}

#[tactic(auto, unfolding(crate::specs::Commands::set_nfs4))]
fn read_set_nfs4(
    alloc: Global,
    path: &[u8],
    text: &[u8],
    directory: &Directory,
) -> Result<Request, Refusal>
    ensures { ReadsAs (set_nfs4 directory.now path.now text.now) result }
{
    let path = read_path(alloc, path)?;
    let acl = Boxed::new(alloc, read_acl4(alloc, text, directory)?)?;
    Ok(Request::SetNfs4(path, acl))
}
