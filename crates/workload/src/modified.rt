ghost use Rattle.std.specs.Prelude.{◌≡◌, ◌++◌, OnOk};
ghost use Rattle.std.specs.List.{flat_map};
ghost use Rattle.std.specs.Char.Escape.{encode_utf16};
ghost use Rattle.workload.specs.Modified.{unit_bytes, modified};

use std::alloc::AllocError;

/// Adds the bytes of a unit of UTF-16 at the end.
#[tactic(auto, unfolding(crate::specs::Modified::unit_bytes))]
fn put_unit(out: &mut Vec<u8>, unit: u16) -> Result<(), AllocError>
    ensures { OnOk result (out.new.items ≡ out.old.items ++ unit_bytes unit) }
{
    if 0 < unit && unit < 128 {
        out.push(unit as u8)?;
    } else if unit < 2048 {
        out.extend_from_slice(&[(192 + unit / 64) as u8, (128 + unit % 64) as u8])?;
    } else {
        out.extend_from_slice(&[
            (224 + unit / 4096) as u8,
            (128 + unit / 64 % 64) as u8,
            (128 + unit % 64) as u8,
        ])?;
    }
    Ok(())
}

/// Adds the bytes of a character at the end.
fn put_char(out: &mut Vec<u8>, c: char) -> Result<(), AllocError>
    ensures { OnOk result (out.new.items ≡ out.old.items ++ flat_map unit_bytes (encode_utf16 c)) }
{
    let mut room = [0; 2];
    for unit in c.encode_utf16(&mut room).iter() {
        put_unit(out, *unit)?;
    }
    Ok(())
}

/// Adds a text in modified UTF-8 at the end (JVMS 4.4.7): the shortest spelling, but two bytes for the
/// character 0.
#[tactic(auto, unfolding(crate::specs::Modified::modified))]
pub fn put_modified(out: &mut Vec<u8>, text: &str) -> Result<(), AllocError>
    ensures { OnOk result (out.new.items ≡ out.old.items ++ modified text.now) }
{
    for c in text.chars() {
        put_char(out, c)?;
    }
    Ok(())
}
