//! The words of a command, one a line.
ghost use Rattle.std.specs.Prelude.{◌≡◌, ◌↔◌, map, IfOk, IsErrOf, IsUtf8};
ghost use Rattle.std.specs.String.{string_bytes};
ghost use Rattle.acl_names.specs.Pieces.{lines_of, without_empty_last};

use std::alloc::Global;
use thiserror::Error;

/// Why bytes aren't the words of a command.
#[derive(Clone, Copy, Debug, PartialEq, Eq, Error)]
pub enum WordsFault {
    /// The bytes aren't UTF-8.
    #[error("bad words")]
    BadWords,
    /// Memory ran out.
    #[error("memory")]
    Memory,
}

/// The lines of a text as words. An empty line is an empty word, and a newline at the end begins no
/// line. Fails with `BadWords` exactly if the bytes aren't UTF-8, and with `Memory` if memory runs
/// out.
pub fn words_of(alloc: Global, bytes: &[u8]) -> Result<Vec<String>, WordsFault>
    ensures lines { IfOk result (λ words. map string_bytes words.items ≡ lines_of bytes.now) }
    ensures bad_words { IsErrOf result WordsFault.BadWords ↔ (¬ (IsUtf8 bytes.now)) }
{
    let text = str::from_utf8(bytes).map_err(|_| WordsFault::BadWords)?;
    let mut words = Vec::new(alloc);
    for line in text.split('\n') {
        let word = String::from_str(alloc, line).map_err(|_| WordsFault::Memory)?;
        words.push(word).map_err(|_| WordsFault::Memory)?;
    }
    drop_empty_last(&mut words);
    Ok(words)
}

/// Drops the empty word after the last newline.
fn drop_empty_last(words: &mut Vec<String>)
    ensures { map string_bytes words.new.items
        ≡ without_empty_last (map string_bytes words.old.items) }
{
    match words.last() {
        Some(last) if last.is_empty() => {
            words.pop();
        }
        _ => {}
    }
}
