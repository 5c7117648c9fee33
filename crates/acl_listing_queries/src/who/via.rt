//! The entries of a list that decide, in short words.
ghost use Rattle.std.specs.Prelude.{◌≡◌, ◌∷◌, [], OnOk, fold, if◌then◌else◌};
ghost use Rattle.acl_listing_queries.specs.Via.{with_word};

mod nfs4;
mod posix;

pub(super) use nfs4::nfs4_via;
pub(super) use posix::posix_via;
use std::alloc::AllocError;

/// Appends a word, with a comma before it unless the text is empty.
fn push_word(word: &[u8], out: &mut Vec<u8>) -> Result<(), AllocError>
    ensures { OnOk result (out.new.items ≡ with_word out.old.items word.now) }
{
    if !out.is_empty() {
        out.push(b',')?;
    }
    out.extend_from_slice(word)
}

/// Appends the word, if `is` is true.
fn push_word_if(word: &[u8], is: bool, out: &mut Vec<u8>) -> Result<(), AllocError>
    ensures { OnOk result (out.new.items
        ≡ fold with_word out.old.items (if is then word.now ∷ [] else [])) }
{
    if is {
        push_word(word, out)?;
    }
    Ok(())
}
