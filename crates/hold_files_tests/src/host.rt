use hold_base::Name;
use hold_files::{Files, HostFiles, ReadError, read_whole, say_whole, write_whole};
use std::fs;

#[test]
fn writes_and_reads_a_real_file(rt: HostRuntime) {
    let name = Name::from_bytes(rt.alloc(), b"hold_files_host_test.txt").expect(&rt, "memory");
    let missing = Name::from_bytes(rt.alloc(), b"no such folder/at all").expect(&rt, "memory");
    let mut files = HostFiles::new(rt);

    assert!(rt; write_whole(&mut files, &name, b"a longer text, which goes away").is_ok());
    assert!(rt; files.start(&name).is_ok());
    assert!(rt; files.put(&name, b"hold ").is_ok());
    assert!(rt; files.put(&name, b"this\n").is_ok());
    let text = read_whole(rt.alloc(), &mut files, &name, u64::MAX).expect(&rt, "read");
    assert!(rt; text.as_slice() == b"hold this\n".as_slice());
    assert!(rt; read_whole(rt.alloc(), &mut files, &name, 9).err() == Some(ReadError::TooLong));
    assert!(rt; read_whole(rt.alloc(), &mut files, &missing, 9).err() == Some(ReadError::Fault));
    assert!(rt; write_whole(&mut files, &missing, b"x").is_err());
    assert!(rt; say_whole(&mut files, b"").is_ok());
    assert!(rt; fs::remove_file(&rt, "hold_files_host_test.txt").is_ok());
}
