//! Tests of words that are lines, and of how faults of what is read are reported.
use acl_cli::{CapFault, WordsFault, words_of};
use std::alloc::Global;
use std::fmt::Display;

/// Texts, each with its words.
const TEXTS: [(&str, &[&str]); 3] = [
    ("a\n\nb", &["a", "", "b"]),
    ("", &[]),
    ("a\r\n\n", &["a\r", ""]),
];

/// Whether the words are these.
fn are(words: &[String], wanted: &[&str]) -> bool {
    for (word, wanted) in words.iter().zip(wanted) {
        if word.as_str() != *wanted {
            return false;
        }
    }
    words.len() == wanted.len()
}

/// Whether the text has these words; none where it is refused.
fn has(alloc: Global, text: &str, wanted: &[&str]) -> Option<bool> {
    let words = words_of(alloc, text.as_bytes()).ok()?;
    Some(are(words.as_slice(), wanted))
}

/// Whether the fault says what it is in these words.
fn says<F: Display>(alloc: Global, fault: &F, words: &str) -> Option<bool> {
    let shown = format!(in alloc; "{fault}").ok()?;
    Some(shown.as_str() == words)
}

#[test]
fn words_are_lines(rt: HostRuntime) {
    for (text, words) in TEXTS {
        assert_eq!(rt; has(rt.alloc(), text, words), Some(true), "in {text}");
    }
}

#[test]
fn faults_say_what_they_are(rt: HostRuntime) {
    let alloc = rt.alloc();
    assert_eq!(rt; says(alloc, &WordsFault::BadWords, "bad words"), Some(true));
    assert_eq!(rt; says(alloc, &WordsFault::Memory, "memory"), Some(true));
    assert_eq!(rt; says(alloc, &CapFault::Read, "a read failed"), Some(true));
    assert_eq!(rt; says(alloc, &CapFault::TooLong, "too long"), Some(true));
    assert_eq!(rt; says(alloc, &CapFault::Memory, "memory"), Some(true));
}
