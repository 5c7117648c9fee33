//! Standard error, on which faults are reported.
ghost use Rattle.std.specs.Prelude.{◌≡◌, ◌++◌, false, option_map, true};
ghost use Rattle.acl_names.specs.Shown.{shown, shown_byte};
ghost use Rattle.acl_cli.specs.ErrorOutput.{Reports, line_of_words};
ghost use Rattle.acl_cli.specs.Refusals.{line_words, refused_words, text_words};

use super::output::write_text;
use acl_names::{is_printable, octal, shown_front};
use itoa::Buffer;
use std::fmt::Display;
use std::io::Write;
use std::marker::Model;

/// Standard error. After a write failed, it writes nothing more. A contract sees what was written,
/// and whether a write failed.
#[derive(Drop)]
pub struct ErrorOutput<W: Write + Drop> {
    inner: W,
    has_failed: bool,
}

impl<W: Write + Drop> Model for ErrorOutput<W> {
    ghost use Rattle.acl_cli.specs.ErrorOutput.{ErrorText};

    ghost Value = { ErrorText };

    ghost view = { λ output. record {
      contents = W.contents output.inner;
      has_failed = output.has_failed;
    } };
}

impl<W: Write + Drop> ErrorOutput<W> {
    /// Reports faults to this writer.
    pub fn new(inner: W) -> ErrorOutput<W>
        ensures { result ≡ record { contents = W.contents inner; has_failed = false } }
    {
        ErrorOutput {
            inner,
            has_failed: false,
        }
    }

    /// Whether a write failed.
    pub fn has_failed(&self) -> bool
        ensures { result ≡ self.now.has_failed }
    {
        self.has_failed
    }

    /// Writes a text. If a write fails, a prefix of the text was written; after that, nothing is.
    pub fn write_text(&mut self, text: &[u8])
        ensures { Reports text.now self.old self.new }
    {
        if !self.has_failed && !text.is_empty() {
            self.has_failed = write_text(text, &mut self.inner).is_err();
        }
    }

    /// Writes a fault's line: `aclctl: `, its words, and a newline.
    pub fn write_line(&mut self, words: &str)
        ensures { Reports (line_of_words words.now) self.old self.new }
    {
        self.write_text(b"aclctl: ");
        self.write_text(words.as_bytes());
        self.write_text(b"\n");
    }

    /// Writes a fault's line, whose words come in two parts.
    pub fn write_pair(&mut self, words: &str, more: &str)
        ensures { Reports (line_of_words (words.now ++ more.now)) self.old self.new }
    {
        self.write_text(b"aclctl: ");
        self.write_text(words.as_bytes());
        self.write_text(more.as_bytes());
        self.write_text(b"\n");
    }

    /// Writes a fault's line: its words, the name that it is about, and a reason.
    pub fn write_named(&mut self, words: &str, name: &str, reason: &str)
        ensures { Reports (line_of_words (words.now ++ name.now ++ reason.now)) self.old self.new }
    {
        self.write_text(b"aclctl: ");
        self.write_text(words.as_bytes());
        self.write_text(name.as_bytes());
        self.write_text(reason.as_bytes());
        self.write_text(b"\n");
    }

    /// Writes the number of a line, if there is one.
    fn write_number(&mut self, line: Option<usize>)
        ensures { Reports (line_words line) self.old self.new }
    {
        if let Some(line) = line {
            self.write_text(b":");
            self.write_text(Buffer::new().format(line).as_bytes());
        }
    }

    /// Writes bytes, those that aren't printable as octal digits.
    fn write_escaped(&mut self, text: &[u8])
        ensures { Reports (shown text.now) self.old self.new }
    {
        for byte in shown_front(text) {
            self.write_byte(*byte);
        }
    }

    /// Writes a byte, as octal digits if it isn't printable.
    fn write_byte(&mut self, byte: u8)
        ensures { Reports (shown_byte byte) self.old self.new }
    {
        if is_printable(byte) {
            self.write_text(&[byte]);
        } else {
            self.write_text(&octal(byte));
        }
    }

    /// Writes the bytes at fault, if there are any.
    fn write_faulty(&mut self, text: Option<&[u8]>)
        ensures { Reports (text_words (option_map (λ text. text.now) text.entry)) self.old self.new }
    {
        if let Some(text) = text {
            self.write_text(b": ");
            self.write_escaped(text);
        }
    }

    /// Writes the line about something that is refused, whose name may have hyphens in front:
    /// `aclctl: NAME:LINE: WORD: TEXT`.
    pub(crate) fn write_refused(
        &mut self,
        hyphens: &str,
        name: &str,
        line: Option<usize>,
        word: &str,
        text: Option<&[u8]>,
    )
        ensures { Reports (line_of_words (refused_words (hyphens.now ++ name.now) line word.now
            (option_map (λ text. text.now) text.entry))) self.old self.new }
    {
        self.write_text(b"aclctl: ");
        self.write_text(hyphens.as_bytes());
        self.write_text(name.as_bytes());
        self.write_number(line);
        self.write_text(b": ");
        self.write_text(word.as_bytes());
        self.write_faulty(text);
        self.write_text(b"\n");
    }

    /// Writes a value as it is displayed, such as the parser's own text. No clause says what is
    /// written; after a failed write nothing is.
    pub(crate) fn write_displayed<D: Display + Drop>(&mut self, value: D)
        ensures { self.old.has_failed ≡ true → self.new ≡ self.old }
    {
        if !self.has_failed {
            self.has_failed = write!(self.inner, "{value}").is_err();
        }
    }
}
