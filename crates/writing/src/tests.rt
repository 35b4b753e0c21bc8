use crate::at_place::{put_bytes, put_number};
use crate::fault::OutputFault;
use crate::output::Output;
use crate::words::is_word;

#[test]
fn words(rt: HostRuntime) {
    assert!(rt; is_word(b"lamp8off"));
    assert!(rt; !is_word(b"lamp8offs"));
    assert!(rt; !is_word(b""));
    assert!(rt; !is_word(b"Fwd"));
}

#[test]
fn numbers(rt: HostRuntime) {
    let mut out = [0; 3];
    let mut to = Output::at(&mut out, 1).unwrap();
    assert!(rt; to.put_number(24) == Ok(()));
    assert!(rt; to.finish() == 3);
    assert!(rt; out == [0, b'2', b'4']);
    let mut to = Output::at(&mut out, 2).unwrap();
    assert!(rt; to.put_number(24) == Err(OutputFault::Short));
}

#[test]
fn at_a_place(rt: HostRuntime) {
    let mut out = [7; 4];
    assert!(rt; put_number(&mut out, 1, 24) == Ok(3));
    assert!(rt; out == [7, b'2', b'4', 7]);
    assert!(rt; put_bytes(&mut out, 5, b"") == Err(OutputFault::Short));
    assert!(rt; out == [7, b'2', b'4', 7]);
}
