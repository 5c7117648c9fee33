//! Malformed fields, with their place in the words.
ghost use Rattle.std.specs.Prelude.{◌≡◌, [], option_map, unwrap_or};
ghost use Rattle.acl_cli.specs.ErrorOutput.{Reports, line_of_words};
ghost use Rattle.acl_cli.specs.Faults.{malformed_words, place_words};

use crate::{ErrorOutput, FieldFault};
use std::io::Write;
use std::marker::Model;

/// Where a field is in the words.
#[derive(Clone, Copy, Debug)]
pub enum Place<'a> {
    /// It is the value of the option `--NAME`.
    Option(&'a str),
    /// It is a word of its own, which help calls NAME.
    Word(&'a str),
}

/// A malformed field. It is reported as `aclctl: PLACE: FAULT: WORD`.
#[derive(Debug, Drop)]
pub struct Malformed<'a> {
    place: Place<'a>,
    /// The field's text; empty if it isn't given.
    word: &'a str,
    fault: FieldFault,
}

impl<'a> Model for Malformed<'a> {
    ghost use Rattle.acl_cli.specs.Faults.{Malformed as MalformedValue, place_words};

    ghost Value = { MalformedValue };

    ghost view = { λ malformed. record {
      place = place_words malformed.place;
      word = malformed.word.now;
      fault = malformed.fault;
    } };
}

impl<'a> Malformed<'a> {
    /// The field at `place`, with the text `word` and this fault.
    pub fn new(place: Place<'a>, word: Option<&'a str>, fault: FieldFault) -> Malformed<'a>
        ensures { result ≡ record {
          place = place_words place.entry;
          word = unwrap_or (option_map (λ text. text.now) word.entry) [];
          fault = fault;
        } }
    {
        Malformed {
            place,
            word: word.unwrap_or(""),
            fault,
        }
    }

    /// What is wrong with it.
    pub fn fault(&self) -> FieldFault
        ensures { result ≡ self.now.fault }
    {
        self.fault
    }

    /// Writes its line.
    pub(crate) fn report<E: Write + Drop>(&self, err: &mut ErrorOutput<E>)
        ensures { Reports (line_of_words (malformed_words self.now)) err.old err.new }
    {
        let (hyphens, name) = match self.place {
            Place::Option(name) => ("--", name),
            Place::Word(name) => ("", name),
        };
        let word = Some(self.word.as_bytes());
        err.write_refused(hyphens, name, None, self.fault.words(), word);
    }
}
