ghost use Rattle.std.specs.Prelude.{[], ◌∷◌, false, OnOk, ◌≡◌, ◌<◌, ◌≤◌, ◌-◌, ◌+◌, ◌++◌, length, IfOk};
ghost use Rattle.class_pool.specs.Spelling.{tag_size, is_wide};
ghost use Rattle.class_pool.specs.Reading.{on_ok, passed, Gives, fixed_at, entry_at, entries_at};
ghost use Rattle.class_pool.specs.Index.{after, blank};

use crate::fault::{ClassCause, ClassFault};
use crate::parts::{block_of, cut, text_of};
use std::alloc::{AllocError, Global};

/// How many bytes follow a tag other than 1.
fn size_of_tag(tag: u8) -> Option<usize>
    ensures { result ≡ tag_size tag }
{
    match tag {
        3 | 4 => Some(4),
        5 | 6 => Some(8),
        7 | 8 | 16 | 19 | 20 => Some(2),
        9..=12 | 17 | 18 => Some(4),
        15 => Some(3),
        _ => None,
    }
}

/// Whether the entry at the front takes two places, and the bytes after it.
#[tactic(auto, unfolding(crate::specs::Reading::entry_at, crate::specs::Reading::fixed_at))]
fn pass_entry(total: u32, left: usize, bytes: &[u8]) -> Result<(bool, &[u8]), ClassFault>
    requires { length bytes.now ≤ total }
    ensures { Gives (λ x. (x.0, x.1.now)) result (on_ok passed (entry_at total left bytes.now)) }
{
    let [tag, rest @ ..] = bytes else {
        return Err(cut(total));
    };
    if *tag == 1 {
        let (_, rest) = text_of(total, rest)?;
        return Ok((false, rest));
    }
    let wide = *tag == 5 || *tag == 6;
    let bad = ClassFault {
        at: total - bytes.len() as u32,
        cause: ClassCause::Tag,
    };
    let Some(size) = size_of_tag(*tag) else {
        return Err(bad);
    };
    if wide && left == 0 {
        return Err(bad);
    }
    let (_, rest) = block_of(total, size, rest)?;
    Ok((wide, rest))
}

/// Puts down where an entry stands.
fn push_start(starts: &mut Vec<u32>, at: u32, wide: bool) -> Result<(), AllocError>
    ensures { OnOk result (starts.new.items ≡ starts.old.items ++ (at ∷ blank 0 wide)) }
{
    starts.push(at)?;
    if wide {
        starts.push(0)?;
    }
    Ok(())
}

/// Where the entries stand that fill so many places, and the bytes after them.
pub fn index_entries(
    alloc: Global,
    total: u32,
    count: u16,
    bytes: &[u8],
) -> Result<(Vec<u32>, &[u8]), ClassFault>
    requires { length bytes.now ≤ total }
    ensures long { IfOk result (λ x. length x.1.now ≤ total) }
    ensures exact { Gives (λ x. (x.0.items, x.1.now)) result (after (0 ∷ []) (total - length bytes.now) (entries_at total false (count - 1) bytes.now)) }
{
    let mut starts = Vec::new(alloc);
    starts.push(0)?;
    let mut rest = bytes;
    let mut skip = false;
    for place in 1..count {
        if skip {
            skip = false;
            continue;
        }
        let (wide, next) = pass_entry(total, (count - place - 1) as usize, rest)?;
        push_start(&mut starts, total - rest.len() as u32, wide)?;
        rest = next;
        skip = wide;
    }
    Ok((starts, rest))
}
