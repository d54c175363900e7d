use crate::{Instr, WalkCause, WalkFault, instructions};
use std::alloc::Global;
use std::process::Abort;
use std::test::*;

/// The lengths of the instructions by their opcodes, as the JDK's class file library has them
/// (`java.lang.classfile.Opcode`); 0 where there is none, at `wide` and at the two switches.
const LENGTHS: [u32; 256] = [
    1, 1, 1, 1, 1, 1, 1, 1, 1, 1, 1, 1, 1, 1, 1, 1, 2, 3, 2, 3, 3, 2, 2, 2, 2, 2, 1, 1, 1, 1, 1, 1,
    1, 1, 1, 1, 1, 1, 1, 1, 1, 1, 1, 1, 1, 1, 1, 1, 1, 1, 1, 1, 1, 1, 2, 2, 2, 2, 2, 1, 1, 1, 1, 1,
    1, 1, 1, 1, 1, 1, 1, 1, 1, 1, 1, 1, 1, 1, 1, 1, 1, 1, 1, 1, 1, 1, 1, 1, 1, 1, 1, 1, 1, 1, 1, 1,
    1, 1, 1, 1, 1, 1, 1, 1, 1, 1, 1, 1, 1, 1, 1, 1, 1, 1, 1, 1, 1, 1, 1, 1, 1, 1, 1, 1, 1, 1, 1, 1,
    1, 1, 1, 1, 3, 1, 1, 1, 1, 1, 1, 1, 1, 1, 1, 1, 1, 1, 1, 1, 1, 1, 1, 1, 1, 3, 3, 3, 3, 3, 3, 3,
    3, 3, 3, 3, 3, 3, 3, 3, 3, 2, 0, 0, 1, 1, 1, 1, 1, 1, 3, 3, 3, 3, 3, 3, 3, 5, 5, 3, 2, 3, 1, 1,
    3, 3, 1, 1, 0, 4, 3, 3, 5, 5, 0, 0, 0, 0, 0, 0, 0, 0, 0, 0, 0, 0, 0, 0, 0, 0, 0, 0, 0, 0, 0, 0,
    0, 0, 0, 0, 0, 0, 0, 0, 0, 0, 0, 0, 0, 0, 0, 0, 0, 0, 0, 0, 0, 0, 0, 0, 0, 0, 0, 0, 0, 0, 0, 0,
];

/// The opcodes that `wide` goes before, and the bytes of both, as that library has them.
const WIDENED: [(u8, u32); 12] = [
    (0x15, 4),
    (0x16, 4),
    (0x17, 4),
    (0x18, 4),
    (0x19, 4),
    (0x36, 4),
    (0x37, 4),
    (0x38, 4),
    (0x39, 4),
    (0x3A, 4),
    (0x84, 6),
    (0xA9, 4),
];

/// What is answered for code that stands in its file behind three other bytes.
fn walked(alloc: Global, file: &[u8]) -> Result<Vec<Instr>, WalkFault> {
    if file.len() < 3 || file.len() > 1000 {
        return Err(WalkFault {
            at: 0,
            cause: WalkCause::Place,
        });
    }
    instructions(alloc, file, (3, file.len() as u32))
}

/// The instructions are these, by their places in the file and their lengths.
fn has(rt: &impl Abort, alloc: Global, file: &[u8], rows: &[(u32, u32)]) {
    let found = walked(alloc, file).expect(rt, "the code is tiled");
    assert_eq!(rt; found.len(), rows.len());
    for (one, (at, len)) in found.iter().zip(rows) {
        assert_eq!(rt; one.at, *at);
        assert_eq!(rt; one.len, *len);
    }
}

fn faults(rt: &impl Abort, alloc: Global, file: &[u8], at: u32, cause: WalkCause) {
    match walked(alloc, file) {
        Ok(_) => panic!(rt; "the code has a fault"),
        Err(fault) => assert_eq!(rt; fault, WalkFault { at, cause }),
    }
}

#[test]
fn instructions_tile_the_code(rt: HostRuntime) {
    let rows: [(&[u8], &[(u32, u32)]); 12] = [
        (b"\xFF\xFF\xFF", &[]),
        (
            b"\xFF\xFF\xFF\x2A\xB7\x00\x01\xB1",
            &[(3, 1), (4, 3), (7, 1)],
        ),
        (
            b"\xFF\xFF\xFF\xC4\x84\x00\x01\x00\x05\xB1",
            &[(3, 6), (9, 1)],
        ),
        (
            b"\xFF\xFF\xFF\xB9\x00\x01\x02\x00\xBA\x00\x02\x00\x00",
            &[(3, 5), (8, 5)],
        ),
        // tableswitch with the jumps 0 and 1, at each place up to a multiple of four
        (
            b"\xFF\xFF\xFF\xAA\0\0\0\0\0\0\x18\0\0\0\0\0\0\0\x01\0\0\0\x18\0\0\0\x18\xB1",
            &[(3, 24), (27, 1)],
        ),
        (
            b"\xFF\xFF\xFF\0\xAA\0\0\0\0\0\x18\0\0\0\0\0\0\0\x01\0\0\0\x18\0\0\0\x18\xB1",
            &[(3, 1), (4, 23), (27, 1)],
        ),
        (
            b"\xFF\xFF\xFF\0\0\xAA\0\0\0\0\x18\0\0\0\0\0\0\0\x01\0\0\0\x18\0\0\0\x18\xB1",
            &[(3, 1), (4, 1), (5, 22), (27, 1)],
        ),
        (
            b"\xFF\xFF\xFF\x11\0\0\xAA\0\0\0\x18\0\0\0\0\0\0\0\x01\0\0\0\x18\0\0\0\x18\xB1",
            &[(3, 3), (6, 21), (27, 1)],
        ),
        // tableswitch from -1 to 1
        (
            b"\xFF\xFF\xFF\xAA\0\0\0\0\0\0\x1C\xFF\xFF\xFF\xFF\0\0\0\x01\0\0\0\x1C\0\0\0\x1C\0\0\0\x1C",
            &[(3, 28)],
        ),
        // lookupswitch without pairs and with one, at two places
        (
            b"\xFF\xFF\xFF\xAB\0\0\0\0\0\0\x0C\0\0\0\0\xB1",
            &[(3, 12), (15, 1)],
        ),
        (
            b"\xFF\xFF\xFF\xAB\0\0\0\0\0\0\x14\0\0\0\x01\0\0\0\x07\0\0\0\x14\xB1",
            &[(3, 20), (23, 1)],
        ),
        (
            b"\xFF\xFF\xFF\x11\0\0\xAB\0\0\0\x11\0\0\0\x01\0\0\0\x07\0\0\0\x11\xB1",
            &[(3, 3), (6, 17), (23, 1)],
        ),
    ];
    for (file, list) in rows {
        has(&rt, rt.alloc(), file, list);
    }
}

#[test]
fn each_opcode_has_its_length(rt: HostRuntime) {
    for (opcode, length) in LENGTHS.iter().enumerate() {
        let mut file = [0; 9];
        file[3] = opcode as u8;
        if *length > 0 && *length < 6 {
            has(
                &rt,
                rt.alloc(),
                &file[..3 + *length as usize],
                &[(3, *length)],
            );
            for cut in 1..*length {
                faults(
                    &rt,
                    rt.alloc(),
                    &file[..3 + cut as usize],
                    3,
                    WalkCause::Cut,
                );
            }
        } else if opcode != 0xAA && opcode != 0xAB && opcode != 0xC4 {
            faults(&rt, rt.alloc(), &file, 3, WalkCause::Opcode);
        }
    }
}

fn widened_length(opcode: u8) -> u32 {
    for (widened, length) in WIDENED {
        if widened == opcode {
            return length;
        }
    }
    0
}

#[test]
fn wide_goes_before_few_opcodes(rt: HostRuntime) {
    faults(&rt, rt.alloc(), b"\xFF\xFF\xFF\xC4", 3, WalkCause::Cut);
    for opcode in 0..=255 {
        let file = [0xFF, 0xFF, 0xFF, 0xC4, opcode, 0, 0, 0, 0];
        let length = widened_length(opcode);
        if length > 2 && length < 7 {
            has(
                &rt,
                rt.alloc(),
                &file[..3 + length as usize],
                &[(3, length)],
            );
            for cut in 2..length {
                faults(
                    &rt,
                    rt.alloc(),
                    &file[..3 + cut as usize],
                    3,
                    WalkCause::Cut,
                );
            }
        } else {
            faults(&rt, rt.alloc(), &file, 3, WalkCause::Opcode);
        }
    }
}

#[test]
fn the_first_fault_is_answered(rt: HostRuntime) {
    let rows: [(&[u8], u32, WalkCause); 12] = [
        (b"\xFF\xFF\xFF\x11\x00", 3, WalkCause::Cut),
        (b"\xFF\xFF\xFF\xCA", 3, WalkCause::Opcode),
        (b"\xFF\xFF\xFF\x00\xC4\x00", 4, WalkCause::Opcode),
        // before the fault there may be others behind it
        (
            b"\xFF\xFF\xFF\x00\x11\x00\x00\xFE\x11",
            7,
            WalkCause::Opcode,
        ),
        // tableswitch from 1 to 0, from 0 to -1, and without its last byte
        (
            b"\xFF\xFF\xFF\xAA\0\0\0\0\0\0\0\0\0\0\x01\0\0\0\0",
            3,
            WalkCause::Switch,
        ),
        (
            b"\xFF\xFF\xFF\xAA\0\0\0\0\0\0\0\0\0\0\0\xFF\xFF\xFF\xFF",
            3,
            WalkCause::Switch,
        ),
        (
            b"\xFF\xFF\xFF\xAA\0\0\0\0\0\0\0\0\0\0\x01\0\0\0",
            3,
            WalkCause::Cut,
        ),
        (
            b"\xFF\xFF\xFF\xAA\0\0\0\0\0\0\0\0\0\0\0\0\0\0\0\0\0\0",
            3,
            WalkCause::Cut,
        ),
        // from the least number to the greatest
        (
            b"\xFF\xFF\xFF\xAA\0\0\0\0\0\0\0\x80\0\0\0\x7F\xFF\xFF\xFF",
            3,
            WalkCause::Cut,
        ),
        // lookupswitch with -1 pairs, and with one that passes the end
        (
            b"\xFF\xFF\xFF\xAB\0\0\0\0\0\0\0\xFF\xFF\xFF\xFF",
            3,
            WalkCause::Switch,
        ),
        (
            b"\xFF\xFF\xFF\xAB\0\0\0\0\0\0\0\0\0\0\x01\0\0\0\0\0\0\0",
            3,
            WalkCause::Cut,
        ),
        (
            b"\xFF\xFF\xFF\xAB\0\0\0\0\0\0\0\xFF\xFF\xFF",
            3,
            WalkCause::Cut,
        ),
    ];
    for (file, at, cause) in rows {
        faults(&rt, rt.alloc(), file, at, cause);
    }
}
