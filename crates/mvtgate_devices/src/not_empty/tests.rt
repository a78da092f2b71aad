use super::NotEmpty;
use std::io::{ErrorKind, Read};
use std::test::Fail;

#[test]
fn fails_at_an_end_before_a_byte(rt: HostRuntime) -> Result<(), Fail> {
    let nothing: &[u8] = b"";
    let mut reader = NotEmpty::new(nothing);
    let mut buf = [0u8; 4];
    // (a read of no room says nothing of the input)
    assert!(rt; reader.read(&mut [])? == 0);
    assert!(rt; !reader.is_empty());
    match reader.read(&mut buf) {
        Ok(_) => assert!(rt; false),
        Err(error) => assert!(rt; error.kind() == ErrorKind::UnexpectedEof),
    }
    assert!(rt; reader.is_empty());
    Ok(())
}

#[test]
fn passes_on_an_end_behind_a_byte(rt: HostRuntime) -> Result<(), Fail> {
    let bytes: &[u8] = b"abc";
    let mut reader = NotEmpty::new(bytes);
    let mut buf = [0u8; 2];
    assert!(rt; reader.read(&mut buf)? == 2 && buf == *b"ab");
    assert!(rt; reader.read(&mut buf)? == 1 && buf[0] == b'c');
    assert!(rt; reader.read(&mut buf)? == 0);
    assert!(rt; !reader.is_empty());
    Ok(())
}
