//! Texts and lists that were made, beside those that are wanted.
use acl_nfs4::Acl4;
use std::alloc::Global;
use tests_common::acl4;

/// Whether the text is the other; none if there is none.
pub fn is_text(text: Option<String>, wanted: &str) -> Option<bool> {
    let text = text?;
    Some(text.as_str() == wanted)
}

/// Whether the text spells the list.
pub fn is_spelt(alloc: Global, list: &Acl4, text: &str) -> Option<bool> {
    let wanted = acl4(alloc, text)?;
    Some(list.aces() == wanted.aces())
}
