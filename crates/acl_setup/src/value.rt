//! The values of a table, by their types.
ghost use Rattle.std.specs.Prelude.{◌≡◌, ◌≤◌, ℕ, IfSome, Result, option_map};
ghost use Rattle.toml.specs.Data.{Data, get_member};
ghost use Rattle.toml.specs.View.{items_view, table_view, view};
ghost use Rattle.acl_names.specs.Steps.{or_fault};
ghost use Rattle.acl_names.specs.declared.limits.TheConstants.{MAX_ID};
ghost use Rattle.acl_setup.specs.Readings.{IsReadingOf, each_item, items_at};
ghost use Rattle.acl_setup.specs.SetupTable.{id_at, id_of, mode_at, style_at, table_at, text_at};
ghost use Rattle.acl_setup.specs.SetupTable.{texts_at, texts_in};
ghost use Rattle.acl_setup.specs.Shown.{texts_shown};

use crate::fault::SetupError;
use crate::key::Key;
use acl_bridge::Style;
use acl_names::{Gid, MAX_ID, Uid};
use acl_posix::Mode;
use std::alloc::Global;
use toml::{Table, Value};

/// A type as which the items of an array are read.
pub(crate) trait FromValue: Drop {
    ghost use Rattle.acl_setup.specs.declared.key.Key.{Key};

    ghost reading: { ℕ → Data → Result Self Key };

    /// Reads the item with this index. Fails with the first key without a proper value.
    fn from_value(alloc: Global, index: usize, value: &Value) -> Result<Self, SetupError>
        ensures { IsReadingOf (λ read. read) (reading index (view value.now)) result };
}

/// `Table::get`, with the contract that proofs cite.
fn value_at<'a>(table: &'a Table, key: &str) -> Option<&'a Value>
    ensures { option_map (λ value. view value.now) result
        ≡ get_member key.now (table_view table.now) }
{
    table.get(key)
}

/// The text at a key.
#[tactic(auto, unfolding(crate::specs::SetupTable::text_at))]
pub(crate) fn text_at<'a>(table: &'a Table, key: &str) -> Option<&'a str>
    ensures { option_map (λ text. text.now) result ≡ text_at key.now (table_view table.now) }
{
    match value_at(table, key) {
        Some(value) => value.as_str(),
        None => None,
    }
}

/// The table at a key.
#[tactic(auto, unfolding(crate::specs::SetupTable::table_at))]
pub(crate) fn table_at<'a>(table: &'a Table, key: &str) -> Option<&'a Table>
    ensures { option_map (λ inner. table_view inner.now) result
        ≡ table_at key.now (table_view table.now) }
{
    match value_at(table, key) {
        Some(value) => value.as_table(),
        None => None,
    }
}

/// The number of an id.
fn read_id(number: i64) -> Option<u32>
    ensures value { result ≡ id_of number }
    ensures in_range { IfSome result (λ id. id ≤ MAX_ID) }
{
    if 0 <= number && number <= i64::from(MAX_ID) {
        Some(number as u32)
    } else {
        None
    }
}

/// The number of the id at a key.
#[tactic(auto, unfolding(crate::specs::SetupTable::id_at))]
fn id_at(table: &Table, key: &str) -> Option<u32>
    ensures value { result ≡ id_at key.now (table_view table.now) }
    ensures in_range { IfSome result (λ id. id ≤ MAX_ID) }
{
    match value_at(table, key) {
        Some(value) => read_id(value.as_integer()?),
        None => None,
    }
}

/// The uid at a key.
pub(crate) fn uid_at(table: &Table, key: &str) -> Option<Uid>
    ensures { result ≡ id_at key.now (table_view table.now) }
{
    Uid::new(id_at(table, key)?)
}

/// The gid at a key.
pub(crate) fn gid_at(table: &Table, key: &str) -> Option<Gid>
    ensures { result ≡ id_at key.now (table_view table.now) }
{
    Gid::new(id_at(table, key)?)
}

/// The mode at a key, written as three octal digits.
pub(crate) fn mode_at(table: &Table, key: &str) -> Option<Mode>
    ensures { result ≡ mode_at key.now (table_view table.now) }
{
    match text_at(table, key) {
        Some(text) => Mode::from_octal(text.as_bytes()),
        None => None,
    }
}

/// The style at a key.
pub(crate) fn style_at(table: &Table, key: &str) -> Option<Style>
    ensures { result ≡ style_at key.now (table_view table.now) }
{
    match text_at(table, key) {
        Some(text) => Style::read(text),
        None => None,
    }
}

/// These values as texts, which are at this key of the setup.
fn read_texts(alloc: Global, values: &[Value], at: Key) -> Result<Vec<String>, SetupError>
    ensures { IsReadingOf texts_shown (or_fault at (texts_in (items_view values.now))) result }
{
    let mut texts = Vec::new(alloc);
    for value in values {
        let text = value.as_str().ok_or(SetupError::BadField(at))?;
        texts.push(String::from_str(alloc, text)?)?;
    }
    Ok(texts)
}

/// The texts at a key, which is `at` in the setup.
#[tactic(auto, unfolding(crate::specs::SetupTable::texts_at))]
pub(crate) fn texts_at(
    alloc: Global,
    table: &Table,
    key: &str,
    at: Key,
) -> Result<Vec<String>, SetupError>
    ensures { IsReadingOf texts_shown (or_fault at (texts_at key.now (table_view table.now)))
        result }
{
    let value = value_at(table, key).ok_or(SetupError::BadField(at))?;
    let values = value.as_array().ok_or(SetupError::BadField(at))?;
    read_texts(alloc, values.as_slice(), at)
}

fn read_items<T: FromValue>(alloc: Global, values: &[Value]) -> Result<Vec<T>, SetupError>
    ensures { IsReadingOf (λ items. items.items) (each_item T.reading 0 (items_view values.now))
        result }
{
    let mut items = Vec::new(alloc);
    for index in 0..values.len() {
        items.push(T::from_value(alloc, index, &values[index])?)?;
    }
    Ok(items)
}

/// The items of the array with this name, which is at this key of the setup; none if it is missing.
#[tactic(auto, unfolding(crate::specs::Readings::items_at))]
pub(crate) fn items_at<T: FromValue>(
    alloc: Global,
    table: &Table,
    name: &str,
    at: Key,
) -> Result<Vec<T>, SetupError>
    ensures { IsReadingOf (λ items. items.items)
        (items_at T.reading at name.now (table_view table.now)) result }
{
    match value_at(table, name) {
        Some(value) => {
            let values = value.as_array().ok_or(SetupError::BadField(at))?;
            read_items(alloc, values.as_slice())
        }
        None => Ok(Vec::new(alloc)),
    }
}
