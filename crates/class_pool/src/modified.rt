ghost use Rattle.std.specs.Prelude.{◌≡◌, ◌<◌, ◌≤◌, ◌++◌, ◌∷◌, [], length, IfOk, IfSome, IfNone, Some, None, List, ℕ, string_bytes};
ghost use Rattle.std.specs.Option.{option_map};
ghost use Rattle.class_pool.specs.Units.{unit_at, AreUnits, IsText, text_of};

use lists::Text;
use std::alloc::{AllocError, Global};

/// The unit at the front, and the bytes after it.
#[tactic(auto, unfolding(crate::specs::Units::unit_at))]
fn unit_at(bytes: &[u8]) -> Option<(u16, &[u8])>
    ensures { option_map (λ x. (x.0, x.1.now)) result ≡ unit_at bytes.now }
{
    match bytes {
        [a @ 1..=127, rest @ ..] => Some((*a as u16, rest)),
        [a @ 192..=223, b @ 128..=191, rest @ ..] => Some((
            (*a as u16 - 192) * 64 + (*b as u16 - 128),
            rest,
        )),
        [a @ 224..=239, b @ 128..=191, c @ 128..=191, rest @ ..] => {
            Some((
                (*a as u16 - 224) * 4096 + ((*b as u16 - 128) * 64 + (*c as u16 - 128)),
                rest,
            ))
        }
        _ => None,
    }
}

/// The units that the bytes spell.
fn units_of(alloc: Global, bytes: &[u8]) -> Result<Option<Vec<u16>>, AllocError>
    ensures found { IfOk result (λ o. IfSome o (λ v. AreUnits bytes.now v.items)) }
    ensures only { (us : List ℕ) → AreUnits bytes.now us → IfOk result (λ o. option_map (λ v. v.items) o ≡ Some us) }
{
    let mut units = Vec::new(alloc);
    let mut rest = bytes;
    while !rest.is_empty() {
        let Some((unit, next)) = unit_at(rest) else {
            return Ok(None);
        };
        units.push(unit)?;
        rest = next;
    }
    Ok(Some(units))
}

fn text_in(alloc: Global, bytes: &[u8]) -> Result<Option<Text>, AllocError>
    ensures found { IfOk result (λ o. IfSome o (λ text. IsText bytes.now text)) }
    ensures only { (text : List ℕ) → IsText bytes.now text → IfOk result (λ o. o ≡ Some text) }
{
    let Some(units) = units_of(alloc, bytes)? else {
        return Ok(None);
    };
    match String::from_utf16(alloc, &units)? {
        Ok(text) => Ok(Some(Text::from_string(text))),
        Err(_) => Ok(None),
    }
}

/// The text that bytes spell in modified UTF-8 (JVMS 4.4.7), and None exactly where they spell none or
/// one with a lone surrogate. Spellings that are longer than needed are accepted.
pub fn decode_modified(alloc: Global, bytes: &[u8]) -> Result<Option<Text>, AllocError>
    ensures found { IfOk result (λ o. IfSome o (λ text. IsText bytes.now text)) }
    ensures only { (text : List ℕ) → IsText bytes.now text → IfOk result (λ o. o ≡ Some text) }
    ensures exact { IfOk result (λ o. o ≡ text_of bytes.now) }
{
    text_in(alloc, bytes)
}
