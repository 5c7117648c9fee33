//! Refusals of something with a name.
ghost use Rattle.std.specs.Prelude.{◌≡◌};
ghost use Rattle.acl_cli.specs.ErrorOutput.{Reports, line_of_words};
ghost use Rattle.acl_cli.specs.Refusals.{as_a_whole, at_line, for_text, refusal_words};

use crate::ErrorOutput;
use std::io::Write;
use std::marker::Model;

/// Why something with a name is refused: a file, a setup, an answer. It is reported as `aclctl:
/// NAME:LINE: WORD: TEXT`.
#[derive(Debug, Drop)]
pub struct Refusal<'a> {
    name: &'a str,
    /// The number of the line at fault, from 1, if there is one.
    line: Option<usize>,
    word: &'a str,
    /// The bytes at fault, if there are any.
    text: Option<Vec<u8>>,
}

impl<'a> Model for Refusal<'a> {
    ghost use Rattle.std.specs.Prelude.{option_map};
    ghost use Rattle.acl_cli.specs.Refusals.{Refusal as RefusalValue};

    ghost Value = { RefusalValue };

    ghost view = { λ refusal. record {
      name = refusal.name.now;
      line = refusal.line;
      word = refusal.word.now;
      text = option_map (λ text. text.items) refusal.text;
    } };
}

impl<'a> Refusal<'a> {
    /// The refusal of `name` as a whole.
    pub fn as_a_whole(name: &'a str, word: &'a str) -> Refusal<'a>
        ensures { result ≡ as_a_whole name.entry.now word.entry.now }
    {
        Refusal {
            name,
            line: None,
            word,
            text: None,
        }
    }

    /// The refusal of `name` for these bytes.
    pub fn for_text(name: &'a str, word: &'a str, text: Vec<u8>) -> Refusal<'a>
        ensures { result ≡ for_text name.entry.now word.entry.now text.items }
    {
        Refusal {
            name,
            line: None,
            word,
            text: Some(text),
        }
    }

    /// The refusal of `name` for its line of this number, with these bytes.
    pub fn at_line(name: &'a str, line: usize, word: &'a str, text: Vec<u8>) -> Refusal<'a>
        ensures { result ≡ at_line name.entry.now line word.entry.now text.items }
    {
        Refusal {
            name,
            line: Some(line),
            word,
            text: Some(text),
        }
    }

    /// Writes its line.
    pub(crate) fn report<E: Write + Drop>(&self, err: &mut ErrorOutput<E>)
        ensures { Reports (line_of_words (refusal_words self.now)) err.old err.new }
    {
        let text = self.text.as_ref().map(|text| text.as_slice());
        err.write_refused("", self.name, self.line, self.word, text);
    }
}
