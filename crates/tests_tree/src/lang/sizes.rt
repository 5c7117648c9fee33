//! Tests of the sizes of requests and answers, and so of what is in them: a request of the tree,
//! and a reply.
use acl_lang::{Answer, Numbered};
use std::test::Fail;

/// Journals and rings hold many requests and answers, so that their lists stand in boxes.
#[test]
fn requests_and_answers_are_small(rt: HostRuntime) -> Result<(), Fail> {
    assert!(rt; size_of::<Numbered>() <= 64);
    assert!(rt; size_of::<Answer>() <= 64);
    Ok(())
}
