//! Spaces and tabs around a text.

ghost use Rattle.std.specs.Prelude.{◌≡◌, ◌≤◌, length};
ghost use Rattle.std.specs.List.{position_or_len};
ghost use Rattle.acl_names.specs.Pieces.{after_word, first_word, is_blank, trim, trim_end};
ghost use Rattle.acl_names.specs.Pieces.{trim_start};

/// The text without spaces and tabs at both ends.
pub fn trim_blanks(text: &[u8]) -> &[u8]
    ensures { result.now ≡ trim text.now }
{
    without_blanks_behind(skip_blanks(text))
}

/// The first word of a line that doesn't begin with a blank, and the rest after the blanks that
/// follow the word.
pub fn split_word(line: &[u8]) -> (&[u8], &[u8])
    ensures word { result.0.now ≡ first_word line.now }
    ensures rest { result.1.now ≡ after_word line.now }
{
    let (word, rest) = line.split_at(word_len(line));
    (word, skip_blanks(rest))
}

fn word_len(line: &[u8]) -> usize
    ensures value { result ≡ position_or_len is_blank line.now }
    ensures within { result ≤ length line.now }
{
    line.iter()
        .take_while(|byte| !matches!(**byte, b' ' | b'\t'))
        .count()
}

/// The text without the spaces and tabs in front of it.
pub fn skip_blanks(text: &[u8]) -> &[u8]
    ensures { result.now ≡ trim_start text.now }
{
    let mut rest = text;
    while let [b' ' | b'\t', tail @ ..] = rest {
        rest = tail;
    }
    rest
}

fn without_blanks_behind(text: &[u8]) -> &[u8]
    ensures { result.now ≡ trim_end text.now }
{
    let mut rest = text;
    while let [front @ .., b' ' | b'\t'] = rest {
        rest = front;
    }
    rest
}
