//! A fast path for the entry that a text begins with, if it has no blanks and no comment.

ghost use Rattle.std.specs.Prelude.{IfSome, Some, [], ◌++◌, ◌≡◌, Ok};
ghost use Rattle.acl_names.specs.Names.{Names};
ghost use Rattle.acl_posix.specs.EntryText.{tag_by};
ghost use Rattle.acl_posix.specs.Front.{BeginsWithTag, BeginsWithWord};

use crate::Tag;
use crate::reading::TagWord;
use acl_names::ResolveNames;

/// The word that the text begins with, and the text after its colon.
pub(crate) fn read_word_front(text: &[u8]) -> Option<(TagWord, &[u8])>
    ensures { IfSome result (λ front. BeginsWithWord text.now front.0 front.1.now) }
{
    if let Some(rest) = after_prefix(b"user:", text) {
        return Some((TagWord::User, rest));
    }
    if let Some(rest) = after_prefix(b"group:", text) {
        return Some((TagWord::Group, rest));
    }
    if let Some(rest) = after_prefix(b"mask:", text) {
        return Some((TagWord::Mask, rest));
    }
    if let Some(rest) = after_prefix(b"other:", text) {
        return Some((TagWord::Other, rest));
    }
    if let Some(rest) = after_prefix(b"u:", text) {
        return Some((TagWord::User, rest));
    }
    if let Some(rest) = after_prefix(b"g:", text) {
        return Some((TagWord::Group, rest));
    }
    if let Some(rest) = after_prefix(b"m:", text) {
        return Some((TagWord::Mask, rest));
    }
    if let Some(rest) = after_prefix(b"o:", text) {
        return Some((TagWord::Other, rest));
    }
    None
}

/// The text after these bytes, if it begins with them.
#[inline(always)]
fn after_prefix<'t>(front: &[u8], text: &'t [u8]) -> Option<&'t [u8]>
    ensures { IfSome result (λ rest. text.now ≡ front.now ++ rest.now) }
{
    text.strip_prefix(front)
}

/// The tag that the word and its qualifier mean (none, a decimal, or a name), and the text after
/// the qualifier's colon.
pub(crate) fn read_tag_front<'t, N: ResolveNames>(
    names: &N,
    word: TagWord,
    text: &'t [u8],
) -> Option<(Tag, &'t [u8])>
    ensures { IfSome result (λ front. BeginsWithTag (N.names names.now) text.now word front.0
        front.1.now) }
{
    if let [b':', rest @ ..] = text {
        return Some((tag_of_word(word), rest));
    }
    match word {
        TagWord::User => read_user_front(names, text),
        TagWord::Group => read_group_front(names, text),
        TagWord::Mask | TagWord::Other => None,
    }
}

fn read_user_front<'t, N: ResolveNames>(names: &N, text: &'t [u8]) -> Option<(Tag, &'t [u8])>
    ensures { IfSome result (λ front. BeginsWithTag (N.names names.now) text.now TagWord.User
        front.0 front.1.now) }
{
    match names.uid_in_front(text) {
        Some((uid, rest)) => Some((Tag::User(uid), rest)),
        None => None,
    }
}

fn read_group_front<'t, N: ResolveNames>(names: &N, text: &'t [u8]) -> Option<(Tag, &'t [u8])>
    ensures { IfSome result (λ front. BeginsWithTag (N.names names.now) text.now TagWord.Group
        front.0 front.1.now) }
{
    match names.gid_in_front(text) {
        Some((gid, rest)) => Some((Tag::Group(gid), rest)),
        None => None,
    }
}

/// The tag of an entry without a qualifier.
fn tag_of_word(word: TagWord) -> Tag
    ensures { (names : Names) → tag_by names word (Some []) ≡ Ok result }
{
    match word {
        TagWord::User => Tag::UserObj,
        TagWord::Group => Tag::GroupObj,
        TagWord::Mask => Tag::Mask,
        TagWord::Other => Tag::Other,
    }
}
