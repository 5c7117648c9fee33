//! Ids as a text writes them.

ghost use Rattle.std.specs.Prelude.{◌≡◌, Some, None, option_map, if◌then◌else◌};
ghost use Rattle.acl_names.specs.Ids.{has_name_shape, written_id};
ghost use Rattle.acl_names.specs.Views.{view_written};

use super::names::is_name;
use crate::read_decimal;
use std::str;

/// An id as a text writes it: a decimal, or a name, whether or not anyone has it.
#[derive(Clone, Copy, Debug)]
pub enum WrittenId<'a> {
    /// An id in decimal.
    Number(u32),
    /// A text with the shape of a name.
    Name(&'a str),
}

impl<'a> WrittenId<'a> {
    /// Reads an id: 1 to 10 digits that write an id, or else a text with the shape of a name.
    /// `None` for any other text.
    pub fn read(text: &'a [u8]) -> Option<WrittenId<'a>>
        ensures { option_map view_written result ≡ written_id text.now }
    {
        match read_decimal(text) {
            Some(number) => Some(WrittenId::Number(number)),
            None => match read_name(text) {
                Some(name) => Some(WrittenId::Name(name)),
                None => None,
            },
        }
    }
}

/// The text as UTF-8, if it has the shape of a name.
fn read_name(text: &[u8]) -> Option<&str>
    ensures { option_map (λ name. name.now) result
        ≡ (if has_name_shape text.now then Some text.now else None) }
{
    if !is_name(text) {
        return None;
    }
    match str::from_utf8(text) {
        Ok(name) => Some(name),
        Err(_) => None,
    }
}
