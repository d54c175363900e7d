ghost use Rattle.std.specs.Prelude.{◌≡◌, ◌<◌, ◌≤◌, ◌+◌, length, IfOk, IfErr};
ghost use Rattle.class_pool.specs.Reading.{Gives, number_at, block_at, text_at, cut};

use crate::fault::{ClassCause, ClassFault};
use byteorder::{BigEndian, ByteOrder};

/// The file, which has `total` bytes, ends within a part.
pub fn cut(total: u32) -> ClassFault
    ensures is { result ≡ cut total }
{
    ClassFault {
        at: total,
        cause: ClassCause::Truncated,
    }
}

/// The number of two bytes at the front, and the bytes after it. `total` is the length of the file.
pub fn u16_at(total: u32, bytes: &[u8]) -> Result<(u16, &[u8]), ClassFault>
    ensures exact { Gives (λ x. (x.0, x.1.now)) result (number_at total 2 bytes.now) }
    ensures long { IfOk result (λ x. length x.1.now + 2 ≡ length bytes.now) }
    ensures cut { IfErr result (λ e. e ≡ cut total) }
{
    if bytes.len() < 2 {
        return Err(cut(total));
    }
    Ok((BigEndian::read_u16(bytes), &bytes[2..]))
}

/// The number of four bytes at the front, and the bytes after it. `total` is the length of the file.
pub fn u32_at(total: u32, bytes: &[u8]) -> Result<(u32, &[u8]), ClassFault>
    ensures exact { Gives (λ x. (x.0, x.1.now)) result (number_at total 4 bytes.now) }
    ensures long { IfOk result (λ x. length x.1.now + 4 ≡ length bytes.now) }
{
    if bytes.len() < 4 {
        return Err(cut(total));
    }
    Ok((BigEndian::read_u32(bytes), &bytes[4..]))
}

/// So many bytes at the front, and those after them. `total` is the length of the file.
pub fn block_of(total: u32, len: usize, bytes: &[u8]) -> Result<(&[u8], &[u8]), ClassFault>
    ensures exact { Gives (λ x. (x.0.now, x.1.now)) result (block_at total len bytes.now) }
    ensures cut { IfErr result (λ e. e ≡ cut total) }
{
    if bytes.len() < len {
        return Err(cut(total));
    }
    Ok(bytes.split_at(len))
}

/// The text at the front, and the bytes after it.
#[tactic(auto, unfolding(crate::specs::Reading::text_at))]
pub fn text_of(total: u32, bytes: &[u8]) -> Result<(&[u8], &[u8]), ClassFault>
    ensures exact { Gives (λ x. (x.0.now, x.1.now)) result (text_at total bytes.now) }
    ensures cut { IfErr result (λ e. e ≡ cut total) }
{
    let (len, rest) = u16_at(total, bytes)?;
    block_of(total, len as usize, rest)
}
