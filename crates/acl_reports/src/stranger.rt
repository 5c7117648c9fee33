//! The first id that a block names and no account has.
ghost use Rattle.std.specs.Prelude.{◌≡◌, ℕ, List, Ok, false, is_some, true};
ghost use Rattle.std.specs.List.{list_any};
ghost use Rattle.std.specs.Option.{option_map_or};
ghost use Rattle.acl_names.specs.Bytes.{newline};
ghost use Rattle.acl_names.specs.Pieces.{parts, pieces};
ghost use Rattle.acl_listings.specs.Block.{file_by};
ghost use Rattle.acl_listings.specs.Lines.{after_line};
ghost use Rattle.acl_listings.specs.Views.{view_file};
ghost use Rattle.acl_people.specs.Host.{names_of_host};
ghost use Rattle.acl_reports.specs.Strangers.{entries_in, first_stranger};
ghost use Rattle.acl_reports.specs.Strangers.{group_stranger, has_stranger, have_stranger};
ghost use Rattle.acl_reports.specs.Strangers.{is_strange, is_strange_ace, line_stranger};
ghost use Rattle.acl_reports.specs.Strangers.{list_stranger, names_stranger, owner_stranger};
ghost use Rattle.acl_reports.specs.Strangers.{piece_stranger, placed, stranger_behind};
ghost use Rattle.acl_reports.specs.Strangers.{stranger_in};
ghost use Rattle.acl_reports.specs.Strangers.{tag_stranger, unless_group, unless_user};
ghost use Rattle.acl_reports.specs.Strangers.{who_stranger};

use acl_forms::{Form, form_of, read_entry};
use acl_listings::{File, Lists, lines_behind};
use acl_names::{Gid, Parts, PieceReader, Pieces, ResolveNames, Uid, before_byte};
use acl_nfs4::{Ace, Acl4, NamedAceReader, Who};
use acl_people::Host;
use acl_posix::{Acl, Entry, EntryReader, Tag};

/// An id that no account has.
#[derive(Clone, Copy, Debug, PartialEq, Eq)]
pub struct Stranger {
    pub id: u32,
    /// How many lines of its block stand before the one that names it.
    pub before: usize,
}

/// The uid, if no user has it.
fn unless_user(host: &Host, uid: Uid) -> Option<u32>
    ensures { result ≡ unless_user host.now uid }
{
    if host.lacks_user(uid) {
        Some(uid.value())
    } else {
        None
    }
}

/// The gid, if no group has it.
fn unless_group(host: &Host, gid: Gid) -> Option<u32>
    ensures { result ≡ unless_group host.now gid }
{
    if host.lacks_group(gid) {
        Some(gid.value())
    } else {
        None
    }
}

/// The id that the entry names, if no account has it.
fn entry_stranger(host: &Host, entry: &Entry) -> Option<u32>
    ensures { result ≡ tag_stranger host.now entry.now.tag }
{
    match entry.tag {
        Tag::User(uid) => unless_user(host, uid),
        Tag::Group(gid) => unless_group(host, gid),
        _ => None,
    }
}

/// The same of an NFSv4 list's entry.
fn ace_stranger(host: &Host, ace: &Ace) -> Option<u32>
    ensures { result ≡ who_stranger host.now ace.now.who }
{
    match ace.who() {
        Who::User(uid) => unless_user(host, uid),
        Who::NamedGroup(gid) => unless_group(host, gid),
        _ => None,
    }
}

/// Whether the entry names such an id.
fn is_strange(host: &Host, entry: &Entry) -> bool
    ensures { result ≡ is_strange host.now entry.now }
{
    entry_stranger(host, entry).is_some()
}

/// Whether an NFSv4 list's entry does.
fn is_strange_ace(host: &Host, ace: &Ace) -> bool
    ensures { result ≡ is_strange_ace host.now ace.now }
{
    ace_stranger(host, ace).is_some()
}

/// Whether an entry of the list does.
fn acl_has_stranger(host: &Host, acl: &Acl) -> bool
    ensures { result ≡ has_stranger host.now acl.now }
{
    acl.entries().iter().any(|entry| is_strange(host, entry))
}

/// Whether an entry of the default list does, if there is one.
fn default_has_stranger(host: &Host, default: &Option<Acl>) -> bool
    ensures { result ≡ option_map_or (has_stranger host.now) default.now false }
{
    match default {
        Some(acl) => acl_has_stranger(host, acl),
        None => false,
    }
}

/// Whether an entry of the NFSv4 list does.
fn acl4_has_stranger(host: &Host, acl: &Acl4) -> bool
    ensures { result ≡ list_any (is_strange_ace host.now) acl.now }
{
    acl.aces().iter().any(|ace| is_strange_ace(host, ace))
}

/// Whether an entry of the lists does.
fn lists_have_stranger(host: &Host, lists: &Lists) -> bool
    ensures { result ≡ have_stranger host.now lists.now }
{
    match lists {
        Lists::Posix { access, default } => {
            acl_has_stranger(host, access) || default_has_stranger(host, default)
        }
        Lists::Nfs4 { acl } => acl4_has_stranger(host, acl),
    }
}

/// Whether the file names an id that no account has: its owner, its group or an entry.
pub fn names_stranger(host: &Host, file: &File<'_>) -> bool
    ensures named { result ≡ names_stranger host.now (view_file file.now) }
    // A line of a block that says this file does.
    ensures sighted { (text : List ℕ)
        → file_by (names_of_host host.now) text ≡ Ok (view_file file.now)
        → result ≡ is_some (stranger_in host.now text) }
{
    host.lacks_user(file.owner)
        || host.lacks_group(file.group)
        || lists_have_stranger(host, &file.lists)
}

/// The id that the piece names, as an entry of this form, if no account has it.
fn piece_stranger(host: &Host, form: Form, piece: &[u8]) -> Option<u32>
    ensures { result ≡ piece_stranger host.now form piece.now }
{
    match form {
        Form::Posix => match (EntryReader { names: host }).read(piece) {
            Ok(entry) => entry_stranger(host, &entry),
            Err(_) => None,
        },
        Form::Nfs4 => match (NamedAceReader { names: host }).read(piece) {
            Ok(ace) => ace_stranger(host, &ace),
            Err(_) => None,
        },
        Form::Freebsd => match read_entry(piece, host) {
            Ok(ace) => ace_stranger(host, &ace),
            Err(_) => None,
        },
    }
}

/// The first that pieces of the text name.
fn text_stranger(host: &Host, form: Form, text: &[u8]) -> Option<u32>
    ensures { result ≡ first_stranger host.now form (pieces text.now) }
{
    let mut pieces = Pieces::new(text);
    while let Some(piece) = pieces.next() {
        if let Some(id) = piece_stranger(host, form, piece) {
            return Some(id);
        }
    }
    None
}

/// What the line has of entries of this form: in a default list what stands behind its word.
fn entries_in(form: Form, line: &[u8]) -> &[u8]
    ensures { result.now ≡ entries_in form line.now }
{
    match form {
        Form::Posix => {
            if line.starts_with(b"default:") {
                &line[8..]
            } else {
                line
            }
        }
        Form::Nfs4 | Form::Freebsd => line,
    }
}

/// The first that the line names, before which so many of its block stand.
fn line_stranger(host: &Host, form: Form, line: &[u8], before: usize) -> Option<Stranger>
    ensures { result ≡ placed before (line_stranger host.now form line.now) }
{
    match text_stranger(host, form, entries_in(form, line)) {
        Some(id) => Some(Stranger { id, before }),
        None => None,
    }
}

/// The first that lines behind the three of a header name.
fn list_stranger(host: &Host, form: Form, list: &[u8]) -> Option<Stranger>
    ensures { result ≡ list_stranger host.now form 3 (parts newline list.now) }
{
    let mut before = 3;
    let mut lines = Parts::new(b'\n', list);
    while let Some(line) = lines.next() {
        if let Some(stranger) = line_stranger(host, form, line, before) {
            return Some(stranger);
        }
        before += 1;
    }
    None
}

/// The owner's, by its line.
fn owner_stranger(host: &Host, line: &[u8]) -> Option<u32>
    ensures { result ≡ owner_stranger host.now line.now }
{
    let owner = line.strip_prefix(b"# owner: ")?;
    match host.uid_written(owner) {
        Ok(uid) => unless_user(host, uid),
        Err(_) => None,
    }
}

/// The group's, by its line.
fn group_stranger(host: &Host, line: &[u8]) -> Option<u32>
    ensures { result ≡ group_stranger host.now line.now }
{
    let group = line.strip_prefix(b"# group: ")?;
    match host.gid_written(group) {
        Ok(gid) => unless_group(host, gid),
        Err(_) => None,
    }
}

/// The first id without an account that the lines behind a block's first name.
fn stranger_behind(host: &Host, lines: &[u8]) -> Option<Stranger>
    ensures { result ≡ stranger_behind host.now lines.now }
{
    if let Some(id) = owner_stranger(host, before_byte(b'\n', lines)) {
        return Some(Stranger { id, before: 1 });
    }
    let behind_owner = lines_behind(lines);
    if let Some(id) = group_stranger(host, before_byte(b'\n', behind_owner)) {
        return Some(Stranger { id, before: 2 });
    }
    let list = lines_behind(behind_owner);
    list_stranger(host, form_of(list), list)
}

/// The first id without an account that the block with this text names, whose file `names_stranger`
/// says to name one.
#[tactic(auto, using(crate::proofs::SightedLemmas::block_named))]
pub fn block_stranger(host: &Host, text: &[u8]) -> Option<Stranger>
    ensures lines { result ≡ stranger_behind host.now (after_line text.now) }
    ensures named { is_some (stranger_in host.now text.now) ≡ true
        → result ≡ stranger_in host.now text.now }
{
    stranger_behind(host, lines_behind(text))
}
