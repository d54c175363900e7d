ghost use Rattle.std.specs.Prelude.{◌≡◌, IfOk};
ghost use Rattle.java_resolve.specs.Index.{bucket, IsIndex, ArePlaces};
ghost use Rattle.java_resolve.specs.Keys.{key};

use crate::texts::key;
use name_places::Names;
use number_places::{list_at, places_by_number};
use std::alloc::{AllocError, Global};
use terms::{Decl, Parts};

/// The declarations by their words: by a name, by a call's name, by a method's or a field's own name.
#[derive(Drop)]
pub struct Index {
    pub names: Names,
    pub numbers: Vec<Vec<u32>>,
}

/// The words of declarations.
fn keys(alloc: Global, decls: &[Decl]) -> Result<Names, AllocError> {
    let mut names = Names::new(alloc);
    for decl in decls {
        names.add(alloc, key(&decl.form))?;
    }
    Ok(names)
}

/// For each declaration the place of its word.
fn key_places(alloc: Global, names: &Names, decls: &[Decl]) -> Result<Vec<u32>, AllocError>
    ensures right { IfOk result (λ places. ArePlaces names.now decls.now places.items) }
{
    let mut places = Vec::with_capacity(alloc, decls.len())?;
    for decl in decls {
        match names.place(key(&decl.form)) {
            Some(place) => places.push(place)?,
            None => return Err(AllocError),
        }
    }
    Ok(places)
}

impl Index {
    /// The declarations of an environment.
    pub fn of(alloc: Global, parts: &Parts) -> Result<Index, AllocError>
        ensures right { IfOk result (λ index. IsIndex parts.now index) }
    {
        let decls = parts.decls.as_slice();
        let names = keys(alloc, decls)?;
        let places = key_places(alloc, &names, decls)?;
        let numbers = places_by_number(alloc, names.len(), places.as_slice())?;
        Ok(Index { names, numbers })
    }

    /// The numbers of the declarations with this word, rising.
    pub fn find(&self, word: &str) -> &[u32]
        ensures value { result.now ≡ bucket self.now word.now }
    {
        match self.names.place(word) {
            Some(place) => list_at(&self.numbers, place as usize),
            None => &[],
        }
    }
}
