//! With ample memory both translations succeed, at each size that there may be.
use acl_bridge::{translate, translate_default};
use acl_names::Uid;
use acl_posix::{Acl, Entries, Entry, Perms, Tag};
use std::alloc::Global;

fn entry(tag: Tag) -> Entry {
    Entry {
        tag,
        perms: Perms::READ,
    }
}

/// A valid list of so many entries, of which each but the mask's gives reading alone.
fn list_of(alloc: Global, count: u32) -> Option<Acl> {
    let mut entries = Entries::new(alloc);
    for tag in [Tag::UserObj, Tag::GroupObj, Tag::Other] {
        entries.push(entry(tag)).ok()?;
    }
    if count > 3 {
        entries.push(entry(Tag::Mask)).ok()?;
    }
    for uid in 4..count {
        entries.push(entry(Tag::User(Uid::new(uid)?))).ok()?;
    }
    Acl::new(entries).ok()
}

/// How many entries the translation of a list of so many has: each but the mask's and the others'
/// allows and denies.
fn translated(count: usize) -> usize {
    if count == 3 {
        return 5;
    }
    count.saturating_mul(2).saturating_sub(3)
}

/// How many entries the list of so many has, and its translations.
fn found(alloc: Global, count: u32) -> Option<[usize; 3]> {
    let list = list_of(alloc, count)?;
    let access = translate(alloc, &list).ok()?.aces().len();
    let default = translate_default(alloc, &list).ok()?.aces().len();
    Some([list.entries().len(), access, default])
}

#[test]
fn translations_of_each_size(rt: HostRuntime) {
    for count in 3..65 {
        let wanted = translated(count as usize);
        let found = found(rt.alloc(), count);
        assert_eq!(rt; found, Some([count as usize, wanted, wanted]));
    }
}
