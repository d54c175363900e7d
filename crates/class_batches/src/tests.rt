use crate::{Batch, BatchFault, LONGEST_FILE, LoadedFile};
use std::alloc::{AllocError, Global};
use std::test::Fail;
use std::thread::Threads;

/// `public class A extends java/lang/Object`, without members. Its name is the byte 16.
const A: [u8; 53] = [
    0xCA, 0xFE, 0xBA, 0xBE, 0, 0, 0, 0x34, 0, 5, 7, 0, 2, 1, 0, 1, 0x41, 7, 0, 4, 1, 0, 0x10, 0x6A,
    0x61, 0x76, 0x61, 0x2F, 0x6C, 0x61, 0x6E, 0x67, 0x2F, 0x4F, 0x62, 0x6A, 0x65, 0x63, 0x74, 0,
    0x21, 0, 1, 0, 3, 0, 0, 0, 0, 0, 0, 0, 0,
];

/// Takes bytes in as the file of a number, where the batch isn't full and they aren't too long.
fn take(batch: &mut Batch, number: u32, bytes: Vec<u8>) -> Result<(), AllocError> {
    if batch.is_full() || bytes.len() > LONGEST_FILE {
        return Err(AllocError);
    }
    batch.take(LoadedFile::new(number, bytes))
}

/// The file of the class of this letter, which is cut where the letter is small.
fn class_file(alloc: Global, letter: u8) -> Result<Vec<u8>, AllocError> {
    let mut bytes = Vec::new(alloc);
    bytes.extend_from_slice(&A[..16])?;
    bytes.push(letter)?;
    bytes.extend_from_slice(&A[17..])?;
    if letter.is_ascii_lowercase() {
        bytes.truncate(52);
    }
    Ok(bytes)
}

/// A batch of the files of these letters, numbered from 7.
fn batch_of(alloc: Global, letters: &[u8]) -> Result<Batch, AllocError> {
    let mut batch = Batch::new(alloc);
    let mut number: u32 = 7;
    for letter in letters {
        take(&mut batch, number, class_file(alloc, *letter)?)?;
        number = number.wrapping_add(1);
    }
    Ok(batch)
}

/// The names of the classes that a batch gives, or the number of the first file that is none and the place of its fault.
fn told<R: Threads + Sync>(
    rt: &R,
    alloc: Global,
    batch: &mut Batch,
) -> Result<(Vec<u8>, u32, u32), AllocError> {
    let mut names = Vec::new(alloc);
    match batch.parse(rt, alloc) {
        Ok(classes) => {
            for class in classes.as_slice() {
                names.extend_from_slice(class.name.as_str().as_bytes())?;
            }
            Ok((names, 0, 0))
        }
        Err(BatchFault::Broken(number, fault)) => Ok((names, number, fault.at)),
        Err(BatchFault::OutOfMemory) => Err(AllocError),
    }
}

/// Files, and what is told of them.
const ROWS: [(&[u8], &[u8], u32, u32); 9] = [
    (b"", b"", 0, 0),
    (b"A", b"A", 0, 0),
    (b"CAB", b"CAB", 0, 0),
    (b"ABCDEFGHIJKLM", b"ABCDEFGHIJKLM", 0, 0),
    (b"a", b"", 7, 52),
    (b"aBC", b"", 7, 52),
    (b"ABc", b"", 9, 52),
    (b"abC", b"", 7, 52),
    (b"Abc", b"", 8, 52),
];

#[test]
fn a_batch_gives_its_classes_or_the_first_fault(rt: HostRuntime) -> Result<(), Fail> {
    for (letters, names, number, place) in &ROWS {
        let mut batch = batch_of(rt.alloc(), letters)?;
        let answer = told(&rt, rt.alloc(), &mut batch)?;
        assert_eq!(rt; answer.0.as_slice(), *names);
        assert_eq!(rt; (answer.1, answer.2), (*number, *place));
    }
    Ok(())
}

#[test]
fn a_batch_is_empty_after_it_was_parsed(rt: HostRuntime) -> Result<(), Fail> {
    let mut batch = batch_of(rt.alloc(), b"Ab")?;
    assert_eq!(rt; told(&rt, rt.alloc(), &mut batch)?.1, 8);
    take(&mut batch, 1, class_file(rt.alloc(), b'C')?)?;
    assert_eq!(rt;
        told(&rt, rt.alloc(), &mut batch)?.0.as_slice(),
        b"C".as_slice()
    );
    assert_eq!(rt; told(&rt, rt.alloc(), &mut batch)?.0.is_empty(), true);
    Ok(())
}

#[test]
fn so_many_files_fill_a_batch(rt: HostRuntime) -> Result<(), Fail> {
    let letters = vec![in rt.alloc(); b'A'; 4_095]?;
    let mut batch = batch_of(rt.alloc(), letters.as_slice())?;
    assert_eq!(rt; batch.is_full(), false);
    take(&mut batch, 0, class_file(rt.alloc(), b'B')?)?;
    assert_eq!(rt; batch.is_full(), true);
    let names = told(&rt, rt.alloc(), &mut batch)?.0;
    assert_eq!(rt; (names.len(), names.last().copied()), (4_096, Some(b'B')));
    assert_eq!(rt; batch.is_full(), false);
    Ok(())
}

#[test]
fn so_many_bytes_fill_a_batch(rt: HostRuntime) -> Result<(), Fail> {
    let mut batch = Batch::new(rt.alloc());
    for number in 0..15 {
        take(&mut batch, number, vec![in rt.alloc(); 0u8; LONGEST_FILE]?)?;
    }
    take(&mut batch, 15, vec![in rt.alloc(); 0u8; LONGEST_FILE - 1]?)?;
    assert_eq!(rt; batch.is_full(), false);
    take(&mut batch, 16, vec![in rt.alloc(); 0u8; 1]?)?;
    assert_eq!(rt; batch.is_full(), true);
    assert_eq!(rt; told(&rt, rt.alloc(), &mut batch)?.1, 0);
    Ok(())
}
