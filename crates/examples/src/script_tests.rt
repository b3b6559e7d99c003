// The words of a script line.
use script_words::{Hex, bytes, decimal};
use std::test::Fail;

#[test]
fn numbers(rt: HostRuntime) -> Result<(), Fail> {
    assert_eq!(rt; decimal(b"0042"), Some(42));
    assert_eq!(rt; decimal(b"18446744073709551616"), Some(u64::MAX));
    assert_eq!(rt; decimal(b""), None);
    assert_eq!(rt; decimal(b"-1"), None);
    Ok(())
}

#[test]
fn bytes_from_hex(rt: HostRuntime) -> Result<(), Fail> {
    let read = bytes(rt.alloc(), b"00a5ff")?;
    assert!(rt; matches!(&read, Some(read) if read.as_slice() == [0x00, 0xa5, 0xff].as_slice()));
    let none = bytes(rt.alloc(), b"-")?;
    assert!(rt; matches!(&none, Some(none) if none.is_empty()));
    assert!(rt; bytes(rt.alloc(), b"A5")?.is_none());
    assert!(rt; bytes(rt.alloc(), b"a5f")?.is_none());
    assert!(rt; bytes(rt.alloc(), b"")?.is_none());
    Ok(())
}

#[test]
fn hex_of_bytes(rt: HostRuntime) -> Result<(), Fail> {
    assert_eq!(rt;
        Hex(&[0x00, 0xa5, 0xff]).to_string(rt.alloc())?.as_str(),
        "00a5ff"
    );
    assert_eq!(rt; Hex(&[]).to_string(rt.alloc())?.as_str(), "-");
    Ok(())
}
