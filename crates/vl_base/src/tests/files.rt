//! Files added and looked up.

use crate::files::{FileError, FileSet};
use crate::items::{Bytes, Text};
use std::test::Fail;

#[test]
fn files_by_name(rt: HostRuntime) -> Result<(), Fail> {
    let mut files = FileSet::new(rt.alloc());
    for number in 0..16u8 {
        let name = Text::from_vec(Vec::from_slice(rt.alloc(), [b'f', b'a' + number].as_slice())?);
        let bytes = Bytes::from_vec(Vec::from_slice(rt.alloc(), [number, 7].as_slice())?);
        assert!(rt; files.add(name, bytes).is_ok());
    }
    let third = Text::from_vec(Vec::from_slice(rt.alloc(), b"fc".as_slice())?);
    let other = Text::from_vec(Vec::from_slice(rt.alloc(), b"f".as_slice())?);
    assert_eq!(rt; files.number(&third), Some(2));
    assert_eq!(rt; files.number(&other), None);
    assert_eq!(rt;
        files.find(&third).map(|bytes| bytes.as_slice().len()),
        Some(2)
    );
    assert!(rt; files.find(&other).is_none());
    let bytes = Bytes::new(rt.alloc());
    match files.add(other, bytes) {
        Err((error, name, _)) => {
            assert_eq!(rt; error, FileError::Full);
            assert_eq!(rt; name.as_slice(), b"f".as_slice());
        }
        Ok(()) => return Err(Fail::from("a set takes 16 files")),
    }
    let bytes = Bytes::new(rt.alloc());
    match files.add(third, bytes) {
        Err((error, _, _)) => assert_eq!(rt; error, FileError::Twice),
        Ok(()) => return Err(Fail::from("a name is there once")),
    }
    Ok(())
}
