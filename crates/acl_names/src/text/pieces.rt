//! The pieces of a text.

ghost use Rattle.std.specs.Prelude.{◌≡◌, ◌++◌, ℕ, List, [], ◌∷◌, map, MatchOption, IfNone};
ghost use Rattle.std.specs.List.{flat_map};
ghost use Rattle.acl_names.specs.Pieces.{content, pieces, pieces_of_content, trim};

use super::blanks::trim_blanks;
use super::parts::{Parts, before_byte};
use std::marker::Model;

/// The pieces of a text that are still to come: what is between the commas of each line, without
/// blanks and comments. A contract sees the list of them.
#[derive(Drop)]
pub struct Pieces<'a> {
    /// The rest of the line that was begun.
    line: Parts<'a>,
    /// The lines after it.
    lines: Parts<'a>,
}

impl<'a> Model for Pieces<'a> {
    ghost Value = { List (List ℕ) };

    ghost view = { λ inside. map trim inside.line
        ++ flat_map (λ line. pieces_of_content (content line)) inside.lines };
}

impl<'a> Pieces<'a> {
    /// The pieces of a text.
    pub fn new(text: &'a [u8]) -> Pieces<'a>
        ensures { result ≡ pieces text.now }
    {
        Pieces {
            line: Parts::none(),
            lines: Parts::new(b'\n', text),
        }
    }

    /// Takes the next piece; `None` after the last one, in each later call too.
    pub fn next(&mut self) -> Option<&'a [u8]>
        ensures piece { MatchOption result (self.old ≡ [])
            (λ piece. self.old ≡ piece.now ∷ self.new) }
        ensures end { IfNone result (self.new ≡ []) }
    {
        loop {
            if let Some(part) = self.line.next() {
                return Some(trim_blanks(part));
            }
            let line = self.lines.next()?;
            self.line = parts_of_line(line);
        }
    }
}

/// The parts between the commas of a line's content.
fn parts_of_line(line: &[u8]) -> Parts<'_>
    ensures { map trim result ≡ pieces_of_content (content line.now) }
{
    let content = trim_blanks(before_byte(b'#', line));
    if content.is_empty() {
        Parts::none()
    } else {
        Parts::new(b',', content)
    }
}
