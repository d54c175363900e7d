use crate::variables::Declared;
use lists::Text;
use std::alloc::{AllocError, Global};

/// The place of the variable of the same declaration that the bound of the one at a place is.
fn next_place(declared: &Declared<'_, '_>, place: usize) -> Option<usize> {
    let bound = declared.at(place)?.bound.as_ref()?;
    let name: &Text = match bound.parts.as_slice() {
        [name] => name,
        _ => return None,
    };
    declared.place(name)
}

/// The places from one on, each followed by that of its bound, up to one that was met before.
fn places_from(
    alloc: Global,
    declared: &Declared<'_, '_>,
    met: &mut Vec<bool>,
    place: usize,
) -> Result<Vec<usize>, AllocError> {
    let mut places = Vec::new(alloc);
    let mut next = Some(place);
    for _place in 0..met.len() {
        let Some(here) = next else {
            return Ok(places);
        };
        if here >= met.len() || met[here] {
            return Ok(places);
        }
        met[here] = true;
        places.push(here)?;
        next = next_place(declared, here);
    }
    Ok(places)
}

/// The places of the variables of a declaration, each behind the one that its bound is but on a cycle. Each variable
/// is looked at once.
pub fn in_order(alloc: Global, declared: &Declared<'_, '_>) -> Result<Vec<usize>, AllocError> {
    let mut met = Vec::new(alloc);
    for _place in 0..declared.count() {
        met.push(false)?;
    }
    let mut order = Vec::new(alloc);
    for place in 0..declared.count() {
        let mut places = places_from(alloc, declared, &mut met, place)?;
        places.reverse();
        order.append(&mut places)?;
    }
    Ok(order)
}
