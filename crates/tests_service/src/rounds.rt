//! Tests of sessions in rounds.
use crate::fixture::tree;
use crate::texts::{Seen, serving_in_rounds};

/// Texts of three, one, no and two requests: the first of each, then the second, then the third.
#[test]
fn rounds_take_a_request_of_each(rt: HostRuntime) {
    let texts = [
        "create file /a alice 600\ncheck /a bob r\ncheck /a bob r\n",
        "check /a alice r\n",
        "# nothing\n\n",
        "check /a bob r\n\nchmod /a 644\n",
    ];
    let seen = [
        Seen::Journal(&[(0, 1), (1, 1), (3, 1), (0, 2), (3, 3), (0, 3)]),
        Seen::Output(0, "1 ok\n2 denied\n3 granted\n"),
        Seen::Output(1, "1 granted\n"),
        Seen::Output(2, ""),
        Seen::Output(3, "1 denied\n3 ok\n"),
        Seen::Sessions(4),
    ];
    let served = serving_in_rounds(rt.alloc(), tree(rt.alloc()), &texts, &seen);
    assert_eq!(rt; served, Some(Ok(true)));
}
