//! Reading entries.

ghost use Rattle.std.specs.Prelude.{◌≡◌, ◌≢◌, ◌≤◌, List, length, option_map};
ghost use Rattle.std.specs.Prelude.{IfOk, IfErr, MatchResult};
ghost use Rattle.acl_names.specs.ListText.{Spells};
ghost use Rattle.acl_names.specs.Pieces.{pieces};
ghost use Rattle.acl_posix.specs.Entry.{EntryValue};
ghost use Rattle.acl_posix.specs.EntryText.{entry_by, fields_of, tag_by, tag_word, tag_with_id};
ghost use Rattle.acl_posix.specs.ReadFault.{IsFaultBy, fault_of_name, list_fault};
ghost use Rattle.acl_posix.specs.Views.{view_fields};
ghost use Rattle.acl_posix.specs.declared.limits.TheConstants.{INLINE_ENTRIES};

use crate::front::{read_tag_front, read_word_front};
use crate::limits::MAX_ENTRIES;
use crate::perms::{read_perms, read_perms_front};
use crate::{Entries, Entry, Tag, TextFault};
use acl_names::{ListFault, NameFault, Parts, PieceReader, ResolveNames, read_list, trim_blanks};
use std::alloc::Global;

/// The word that an entry begins with.
#[derive(Clone, Copy, Debug, PartialEq, Eq)]
pub(crate) enum TagWord {
    User,
    Group,
    Mask,
    Other,
}

/// The fields of an entry; the qualifier may be left out.
#[derive(Clone, Copy, Debug)]
struct Fields<'a> {
    tag: &'a [u8],
    qualifier: Option<&'a [u8]>,
    perms: &'a [u8],
}

/// What is wrong with one piece of a text.
#[derive(Clone, Copy, Debug, PartialEq, Eq)]
pub enum PieceFault {
    /// It has none of the shapes of entries.
    Syntax,
    /// It has the shape of an entry, with a name that no user, or no group, has.
    UnknownName,
}

impl From<NameFault> for PieceFault {
    ghost from_gives = { λ fault becomes. becomes ≡ fault_of_name fault };

    fn from(fault: NameFault) -> PieceFault {
        match fault {
            NameFault::Malformed => PieceFault::Syntax,
            NameFault::Unknown => PieceFault::UnknownName,
        }
    }
}

/// Reads entries, and resolves their names by `names`.
#[derive(Drop)]
pub struct EntryReader<'a, N: ResolveNames> {
    pub names: &'a N,
}

impl<'a, N: ResolveNames> PieceReader for EntryReader<'a, N> {
    type Value = Entry;

    type Fault = PieceFault;

    ghost value_of = { λ reader. entry_by (N.names reader.names.now) };

    #[tactic(auto, unfolding(crate::specs::EntryText::entry_by))]
    fn read(&self, piece: &[u8]) -> Result<Entry, PieceFault> {
        let fields = read_fields(piece).ok_or(PieceFault::Syntax)?;
        let word = read_tag_word(fields.tag).ok_or(PieceFault::Syntax)?;
        let perms = read_perms(fields.perms).ok_or(PieceFault::Syntax)?;
        let tag = read_tag(self.names, word, fields.qualifier)?;
        Ok(Entry { tag, perms })
    }

    fn read_front<'t>(&self, text: &'t [u8]) -> Option<(Entry, &'t [u8])> {
        let Some((word, behind_word)) = read_word_front(text) else {
            return None;
        };
        let Some((tag, behind_tag)) = read_tag_front(self.names, word, behind_word) else {
            return None;
        };
        let Some((perms, rest)) = read_perms_front(behind_tag) else {
            return None;
        };
        Some((Entry { tag, perms }, rest))
    }
}

/// Reads entries of the long text form (1003.1e draft 17, section 23): each line is cut at its
/// first `#`, its entries are separated by commas, and blanks around the fields are ignored. A text
/// may have no entries.
///
/// The first piece that is malformed (`Syntax` or `UnknownName`) or one too many (`TooMany`, before
/// it is read) decides the fault. `Memory` means that memory ran out; the text may have a fault
/// further on.
pub fn read_entries<N: ResolveNames>(
    alloc: Global,
    text: &[u8],
    names: &N,
) -> Result<Entries, TextFault>
    ensures read { IfOk result (λ entries. Spells (entry_by (N.names names.now)) MAX_ENTRIES
        text.now entries) }
    ensures fault { IfErr result (IsFaultBy (N.names names.now) text.now) }
    // A text that spells entries is read, unless memory runs out; so it spells at most one list.
    ensures only { (entries : List EntryValue)
        → Spells (entry_by (N.names names.now)) MAX_ENTRIES text.now entries
        → MatchResult result (λ read. read ≡ entries) (λ fault. fault ≡ TextFault.Memory) }
    ensures short { length (pieces text.now) ≤ INLINE_ENTRIES
        → IfErr result (λ fault. fault ≢ TextFault.Memory) }
{
    match read_list(alloc, &EntryReader { names }, MAX_ENTRIES, text) {
        Ok(items) => match Entries::of_items(items) {
            Ok(entries) => Ok(entries),
            Err(_) => Err(TextFault::Memory),
        },
        Err(fault) => Err(text_fault(fault)),
    }
}

fn text_fault(fault: ListFault<PieceFault>) -> TextFault
    ensures { list_fault result ≡ fault }
{
    match fault {
        ListFault::Piece(PieceFault::Syntax) => TextFault::Syntax,
        ListFault::Piece(PieceFault::UnknownName) => TextFault::UnknownName,
        ListFault::TooMany => TextFault::TooMany,
        ListFault::Memory => TextFault::Memory,
    }
}

fn read_fields(piece: &[u8]) -> Option<Fields<'_>>
    ensures { option_map view_fields result ≡ fields_of piece.now }
{
    let mut fields = Parts::new(b':', piece);
    match (fields.next(), fields.next(), fields.next(), fields.next()) {
        (Some(tag), Some(perms), None, _) => Some(Fields {
            tag: trim_blanks(tag),
            qualifier: None,
            perms: trim_blanks(perms),
        }),
        (Some(tag), Some(qualifier), Some(perms), None) => Some(Fields {
            tag: trim_blanks(tag),
            qualifier: Some(trim_blanks(qualifier)),
            perms: trim_blanks(perms),
        }),
        _ => None,
    }
}

fn read_tag_word(text: &[u8]) -> Option<TagWord>
    ensures { result ≡ tag_word text.now }
{
    if text == b"user".as_slice() || text == b"u".as_slice() {
        Some(TagWord::User)
    } else if text == b"group".as_slice() || text == b"g".as_slice() {
        Some(TagWord::Group)
    } else if text == b"mask".as_slice() || text == b"m".as_slice() {
        Some(TagWord::Mask)
    } else if text == b"other".as_slice() || text == b"o".as_slice() {
        Some(TagWord::Other)
    } else {
        None
    }
}

fn read_tag<N: ResolveNames>(
    names: &N,
    word: TagWord,
    qualifier: Option<&[u8]>,
) -> Result<Tag, PieceFault>
    ensures { result ≡ tag_by (N.names names.now) word
        (option_map (λ text. text.now) qualifier.entry) }
{
    match (word, qualifier) {
        (TagWord::User, Some([])) => Ok(Tag::UserObj),
        (TagWord::User, Some(name)) => read_user(names, name),
        (TagWord::Group, Some([])) => Ok(Tag::GroupObj),
        (TagWord::Group, Some(name)) => read_group(names, name),
        (TagWord::Mask, None | Some([])) => Ok(Tag::Mask),
        (TagWord::Other, None | Some([])) => Ok(Tag::Other),
        _ => Err(PieceFault::Syntax),
    }
}

fn read_user<N: ResolveNames>(names: &N, text: &[u8]) -> Result<Tag, PieceFault>
    ensures { result ≡ tag_with_id (N.names names.now).written (λ uid. Tag.User uid)
        (N.names names.now).uid text.now }
{
    let uid = names.uid_written(text)?;
    Ok(Tag::User(uid))
}

fn read_group<N: ResolveNames>(names: &N, text: &[u8]) -> Result<Tag, PieceFault>
    ensures { result ≡ tag_with_id (N.names names.now).written (λ gid. Tag.Group gid)
        (N.names names.now).gid text.now }
{
    let gid = names.gid_written(text)?;
    Ok(Tag::Group(gid))
}
