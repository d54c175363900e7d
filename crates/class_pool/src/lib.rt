// The header and the constant pool of a class file (JVMS 4.1 and 4.4), with an index by place over the
// borrowed bytes, and modified UTF-8 (JVMS 4.4.7). The main definition is `head`, the spelling of a
// header and a pool; `read_pool` answers the pool that the bytes begin with, or the first fault. It stands
// on the kit's `byteorder` and on `lists`.
#![tactic(auto)]

mod fault;
mod modified;
mod parts;
mod pool;
mod reading;

pub use fault::{ClassCause, ClassFault, no_memory};
pub use modified::decode_modified;
pub use parts::{block_of, u16_at, u32_at};
pub use pool::{Pool, read_pool};

#[cfg(test)]
mod tests;
