use crate::naming::{motion_of, name_of};
use crate::shown::Named;
use std::test::Fail;

#[test]
fn words_and_motions(rt: HostRuntime) {
    assert_eq!(rt; motion_of(b"fwd"), Some(1));
    assert_eq!(rt; motion_of(b"enter"), Some(12));
    assert_eq!(rt; motion_of(b"report"), Some(24));
    assert_eq!(rt; motion_of(b"jump"), None);
    assert!(rt; name_of(0).is_none());
    assert!(rt; name_of(25).is_none());
}

#[test]
fn shown(rt: HostRuntime) -> Result<(), Fail> {
    let known = Named { motion: 12 };
    let other = Named { motion: 25 };
    let text = format!(in rt.alloc(); "{known} {other}")?;
    assert_eq!(rt; text.as_str(), "enter unknown");
    Ok(())
}
