//! Each allocating call once; the operators are rows of the crate operator_rows.

mod files;

use crate::items::Text;
use std::test::Fail;

#[test]
fn items_are_pushed(rt: HostRuntime) -> Result<(), Fail> {
    let mut text = Text::from_vec(Vec::from_slice(rt.alloc(), b"clk".as_slice())?);
    assert!(rt; text.push(b'2').is_ok());
    assert_eq!(rt; text.as_slice(), b"clk2".as_slice());
    text.truncate(1);
    assert_eq!(rt; text.as_slice(), b"c".as_slice());
    let mut empty = Text::new(rt.alloc());
    assert!(rt; empty.push(b'a').is_ok());
    assert_eq!(rt; empty.as_slice(), b"a".as_slice());
    Ok(())
}
