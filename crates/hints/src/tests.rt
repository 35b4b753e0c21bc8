// Places of small texts.
use crate::place::{Position, Spot};
use std::process::Abort;

const TEXT: &[u8] = b"(plan a\n  (do jump\n(end)))";

// The place stands in that line and column, in a line of so many bytes, at a token of that length.
fn stands(rt: &impl Abort, place: usize, line: usize, column: usize, bytes: usize, token: usize) {
    let spot = Spot { text: TEXT, place };
    assert_eq!(rt; spot.position(), Position { line, column });
    assert_eq!(rt; spot.line().len(), bytes);
    assert_eq!(rt; spot.token_len(), token);
}

#[test]
fn places(rt: HostRuntime) {
    stands(&rt, 0, 1, 1, 7, 1);
    stands(&rt, 6, 1, 7, 7, 1);
    stands(&rt, 7, 1, 8, 7, 1);
    stands(&rt, 8, 2, 1, 10, 1);
    stands(&rt, 14, 2, 7, 10, 4);
    stands(&rt, 20, 3, 2, 7, 3);
    stands(&rt, 26, 3, 8, 7, 1);
    stands(&rt, 99, 3, 8, 7, 1);
}
