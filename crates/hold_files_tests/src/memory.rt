use hold_base::{List, Memory, Name};
use hold_files::{Fails, MemoryFiles, ReadError, read_whole, say_whole, write_whole};
use std::alloc::{AllocError, Global};

fn name(alloc: Global, text: &[u8]) -> Result<Name, Memory> {
    Name::from_bytes(alloc, text)
}

fn numbers(alloc: Global, listed: &[u64]) -> Result<List<u64>, AllocError> {
    Ok(List::from_vec(Vec::from_slice(alloc, listed)?))
}

/// A text `a` of three bytes and an output `b`, with room for four bytes. These calls fail.
fn two_files(
    alloc: Global,
    reads: &[u64],
    starts: &[u64],
    puts: &[u64],
    says: &[u64],
) -> Result<MemoryFiles, Memory> {
    let mut texts = Vec::new(alloc);
    texts.push((name(alloc, b"a")?, Vec::from_slice(alloc, b"abc")?))?;
    let mut outputs = Vec::new(alloc);
    outputs.push(name(alloc, b"b")?)?;
    let fails = Fails {
        reads: numbers(alloc, reads)?,
        starts: numbers(alloc, starts)?,
        puts: numbers(alloc, puts)?,
        says: numbers(alloc, says)?,
    };
    MemoryFiles::new(alloc, texts, outputs, 4, fails)
}

#[test]
fn fails_for_its_own_causes_alone(rt: HostRuntime) {
    let alloc = rt.alloc();
    let a = name(alloc, b"a").expect(&rt, "memory");
    let b = name(alloc, b"b").expect(&rt, "memory");
    let mut files = two_files(alloc, &[], &[], &[], &[]).expect(&rt, "memory");

    let text = read_whole(alloc, &mut files, &a, 3).expect(&rt, "read");
    assert!(rt; text.as_slice() == b"abc".as_slice());
    assert!(rt; read_whole(alloc, &mut files, &a, 2).err() == Some(ReadError::TooLong));
    assert!(rt; write_whole(&mut files, &a, b"x").is_err());
    assert!(rt; write_whole(&mut files, &b, b"wxyz").is_ok());
    assert!(rt; write_whole(&mut files, &b, b"vwxyz").is_err());
    let cut = read_whole(alloc, &mut files, &b, u64::MAX).expect(&rt, "read");
    assert!(rt; cut.as_slice() == b"vwxy".as_slice());
    assert!(rt; say_whole(&mut files, b"met\n").is_ok());
    assert!(rt; say_whole(&mut files, b"more").is_err());
    assert!(rt; files.said() == b"met\n".as_slice());
}

#[test]
fn fails_where_it_is_told_to(rt: HostRuntime) {
    let alloc = rt.alloc();
    let a = name(alloc, b"a").expect(&rt, "memory");
    let b = name(alloc, b"b").expect(&rt, "memory");
    let mut files = two_files(alloc, &[1], &[0], &[0], &[0]).expect(&rt, "memory");

    assert!(rt; read_whole(alloc, &mut files, &a, 3).err() == Some(ReadError::Fault));
    assert!(rt; read_whole(alloc, &mut files, &a, 3).is_ok());
    assert!(rt; write_whole(&mut files, &b, b"x").is_err());
    assert!(rt; write_whole(&mut files, &b, b"x").is_err());
    assert!(rt; write_whole(&mut files, &b, b"x").is_ok());
    assert!(rt; say_whole(&mut files, b"x").is_err());
    assert!(rt; say_whole(&mut files, b"x").is_ok());
}

#[test]
fn a_copy_of_what_fails_is_equal(rt: HostRuntime) -> Result<(), Memory> {
    let alloc = rt.alloc();
    let fails = Fails {
        reads: numbers(alloc, &[1, 3])?,
        starts: numbers(alloc, &[])?,
        puts: numbers(alloc, &[0])?,
        says: numbers(alloc, &[2])?,
    };
    let copy = fails.clone()?;
    assert!(rt; copy == fails);
    Ok(())
}
