ghost use Rattle.std.specs.Prelude.{◌≡◌, ◌<◌, ◌≤◌, ◌+◌, drop, length, Some, IfOk};
ghost use Rattle.code_walk.specs.Lengths.{padding, rank, jumps, pairs, wide_fixed, some_fixed, fixed_extent, table_extent, lookup_extent, extent_of, extent_at, Measures};

use crate::fault::WalkCause;
use crate::opcodes::{Form, form_of, widened};
use byteorder::{BigEndian, ByteOrder};

/// The bytes of padding after the opcode of a switch.
fn padding(at: u32) -> usize
    ensures is { result ≡ padding at }
    ensures few { result ≤ 3 }
{
    3 - at as usize % 4
}

/// The signed number of four bytes at a place, counted from the least one.
fn rank_at(bytes: &[u8], place: usize) -> u32
    requires { place + 4 ≤ length bytes.now }
    ensures { result ≡ rank (drop place bytes.now) }
{
    BigEndian::read_u32(&bytes[place..]).wrapping_add(1 << 31)
}

/// The bytes of a switch's jumps; None where `low` is above `high`.
fn jumps(low: u32, high: u32) -> Option<u64>
    ensures { result ≡ jumps low high }
{
    if high < low {
        return None;
    }
    Some(4 * (u64::from(high - low) + 1))
}

/// The bytes of a switch's pairs; None where their number is negative.
fn pairs(count: u32) -> Option<u64>
    ensures { result ≡ pairs count }
{
    if count < 1 << 31 {
        return None;
    }
    Some(8 * u64::from(count - (1 << 31)))
}

/// The length of an instruction, by its fixed part and its table, or the first fault.
fn measure(fixed: usize, table: Option<u64>, bytes: &[u8]) -> Result<usize, WalkCause>
    requires { fixed ≤ length bytes.now }
    ensures { Measures (length bytes.now) (Some (record { fixed = fixed; table = table })) result }
{
    let Some(table) = table else {
        return Err(WalkCause::Switch);
    };
    if table > (bytes.len() - fixed) as u64 {
        return Err(WalkCause::Cut);
    }
    Ok(fixed + table as usize)
}

fn fixed_length(fixed: u32, bytes: &[u8]) -> Result<usize, WalkCause>
    ensures { Measures (length bytes.now) (Some (fixed_extent fixed)) result }
{
    if bytes.len() < fixed as usize {
        return Err(WalkCause::Cut);
    }
    Ok(fixed as usize)
}

fn wide_length(bytes: &[u8]) -> Result<usize, WalkCause>
    requires { 0 < length bytes.now }
    ensures { Measures (length bytes.now) (some_fixed (wide_fixed (drop 1 bytes.now))) result }
{
    let [_, opcode, ..] = bytes else {
        return Err(WalkCause::Cut);
    };
    match widened(*opcode) {
        Some(fixed) => fixed_length(fixed, bytes),
        None => Err(WalkCause::Opcode),
    }
}

fn table_length(at: u32, bytes: &[u8]) -> Result<usize, WalkCause>
    ensures { Measures (length bytes.now) (Some (table_extent at bytes.now)) result }
{
    let pad = padding(at);
    if bytes.len() < 13 + pad {
        return Err(WalkCause::Cut);
    }
    let low = rank_at(bytes, 5 + pad);
    let high = rank_at(bytes, 9 + pad);
    measure(13 + pad, jumps(low, high), bytes)
}

fn lookup_length(at: u32, bytes: &[u8]) -> Result<usize, WalkCause>
    ensures { Measures (length bytes.now) (Some (lookup_extent at bytes.now)) result }
{
    let pad = padding(at);
    if bytes.len() < 9 + pad {
        return Err(WalkCause::Cut);
    }
    let count = rank_at(bytes, 5 + pad);
    measure(9 + pad, pairs(count), bytes)
}

fn form_length(at: u32, bytes: &[u8], form: Option<Form>) -> Result<usize, WalkCause>
    requires { 0 < length bytes.now }
    ensures { Measures (length bytes.now) (extent_of at bytes.now form) result }
{
    match form {
        Some(Form::Fixed(fixed)) => fixed_length(fixed, bytes),
        Some(Form::Wide) => wide_length(bytes),
        Some(Form::TableSwitch) => table_length(at, bytes),
        Some(Form::LookupSwitch) => lookup_length(at, bytes),
        None => Err(WalkCause::Opcode),
    }
}

/// The length of the instruction that the bytes begin with, at a place that is counted from the start of the
/// code; or the first fault, in the order of the causes.
#[tactic(auto, unfolding(crate::specs::Lengths::extent_at))]
pub fn length_at(at: u32, bytes: &[u8]) -> Result<usize, WalkCause>
    requires { 0 < length bytes.now }
    ensures measured { Measures (length bytes.now) (extent_at at bytes.now) result }
{
    match bytes {
        [opcode, ..] => form_length(at, bytes, form_of(*opcode)),
        [] => unreachable!(),
    }
}
