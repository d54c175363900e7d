ghost use Rattle.std.specs.Prelude.{◌≡◌, ◌≢◌, ◌≤◌, ◌+◌, length, drop, slice_range, List, IfOk, IfErr, MatchResult};
ghost use Rattle.code_walk.specs.declared.walk.Instr.{Instr};
ghost use Rattle.code_walk.specs.declared.fault.WalkFault.{WalkFault};
ghost use Rattle.code_walk.specs.declared.fault.WalkCause.TheVariants.{OutOfMemory};
ghost use Rattle.code_walk.specs.Faults.{no_memory};
ghost use Rattle.code_walk.specs.Walk.{AreInstructions, IsFirstFault};

use crate::fault::WalkFault;
use crate::lengths::length_at;
use std::alloc::Global;

/// An instruction: the place of its opcode, counted in bytes from the file's first, and its length.
#[derive(Clone, Copy, Debug, PartialEq, Eq)]
pub struct Instr {
    pub at: u32,
    pub len: u32,
}

fn bytes_after(bytes: &[u8], len: usize) -> &[u8]
    requires { len ≤ length bytes.now }
    ensures { result.now ≡ drop len bytes.now }
{
    &bytes[len..]
}

/// The instructions of the code that begins at `start` of the file.
fn walk(alloc: Global, start: u32, code: &[u8]) -> Result<Vec<Instr>, WalkFault>
    requires { start + length code.now ≤ 16777216 }
    ensures found { IfOk result (λ list. AreInstructions start code.now list.items) }
    ensures first { IfErr result (λ fault. fault ≢ no_memory → IsFirstFault start code.now fault) }
{
    let mut all = Vec::new(alloc);
    let mut rest = code;
    while !rest.is_empty() {
        let at = (code.len() - rest.len()) as u32;
        let len = match length_at(at, rest) {
            Ok(len) => len,
            Err(cause) => {
                return Err(WalkFault {
                    at: start + at,
                    cause,
                });
            }
        };
        all.push(Instr {
            at: start + at,
            len: len as u32,
        })?;
        rest = bytes_after(rest, len);
    }
    Ok(all)
}

/// The instructions of the code from `code.0` up to `code.1` in the file, in order, or the first fault: an
/// opcode that is unknown, alone or after `wide` (Opcode), a fixed part that passes the code's end (Cut), a
/// switch whose low is above its high or whose number of pairs is negative (Switch), and a switch whose table
/// passes the code's end (Cut). Padding of switches is counted from the code's start. Takes eight bytes of
/// memory for each instruction, and time that grows with the code's length.
pub fn instructions(alloc: Global, bytes: &[u8], code: (u32, u32)) -> Result<Vec<Instr>, WalkFault>
    requires small { length bytes.now ≤ 16777216 }
    requires in_order { code.0 ≤ code.1 }
    requires in_file { code.1 ≤ length bytes.now }
    // What is answered tiles the code.
    ensures found { IfOk result (λ list. AreInstructions code.0 (slice_range bytes.now code.0 code.1) list.items) }
    // What tiles the code is answered, unless memory runs out.
    ensures only { (list : List Instr) → AreInstructions code.0 (slice_range bytes.now code.0 code.1) list → MatchResult result (λ found. found.items ≡ list) (λ fault. fault ≡ no_memory) }
    // A fault is the first place where no instruction stands.
    ensures first { IfErr result (λ fault. fault.cause ≢ OutOfMemory → IsFirstFault code.0 (slice_range bytes.now code.0 code.1) fault) }
    // That place is answered, unless memory runs out.
    ensures refused { (fault : WalkFault) → IsFirstFault code.0 (slice_range bytes.now code.0 code.1) fault → MatchResult result (λ _. ⊥) (λ answered. answered ≢ no_memory → answered ≡ fault) }
    // Want of memory has no place.
    ensures memory { IfErr result (λ fault. fault.cause ≡ OutOfMemory → fault.at ≡ 0) }
{
    walk(alloc, code.0, &bytes[code.0 as usize..code.1 as usize])
}
