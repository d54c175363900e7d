ghost use Rattle.std.specs.Prelude.{◌≡◌, ◌<◌, ◌^◌, ◌++◌, ◌∷◌, [], None, OnOk, OnErr, length};
ghost use Rattle.name_places.specs.Places.{place_of, IsPlaced, IsGrown};

use lists::{Items, Text};
use std::alloc::{AllocError, Global};
use std::collections::HashMap;
use std::marker::Model;

/// Names in their order, with an index: a name is looked up by its hash. Contracts see the list. The hash has a
/// fixed seed, so names that are made to collide slow their own table.
#[derive(Drop)]
pub struct Names {
    texts: Items<Text>,
    places: HashMap<String, u32>,
}

impl Model for Names {
    ghost use Rattle.std.specs.Prelude.{◌≡◌, List, ℕ};
    ghost use Rattle.std.specs.HashMap.{get_by_text};
    ghost use Rattle.name_places.specs.Places.{place_of};

    ghost Value = { List (List ℕ) };

    ghost view = { λ n. n.texts };

    ghost invariant = { λ n. (name : List ℕ) → get_by_text n.places name ≡ place_of n.texts name };
}

impl Names {
    /// No name.
    pub fn new(alloc: Global) -> Names
        ensures empty { result ≡ [] }
    {
        Names {
            texts: Items::new(alloc),
            places: HashMap::new(alloc),
        }
    }

    /// How many names there are.
    pub fn len(&self) -> usize
        ensures len { result ≡ length self.now }
    {
        self.texts.len()
    }

    /// The names in order.
    pub fn texts(&self) -> &[Text]
        ensures same { result.now ≡ self.now }
    {
        self.texts.as_slice()
    }

    /// The place of a name, from 0.
    pub fn place(&self, name: &str) -> Option<u32>
        ensures value { result ≡ place_of self.now name.now }
    {
        self.places.get(name).copied()
    }

    /// Gives a new name the next place.
    pub fn push(&mut self, alloc: Global, name: &str) -> Result<(), AllocError>
        requires room { length self.old < 2 ^ 32 }
        requires fresh { place_of self.old name.now ≡ None }
        ensures added { OnOk result (self.new ≡ self.old ++ name.now ∷ []) }
        ensures kept { OnErr result (self.new ≡ self.old) }
    {
        let text = Text::from_str(alloc, name)?;
        let key = String::from_str(alloc, name)?;
        let place = self.texts.len() as u32;
        self.texts.push(text)?;
        match self.places.insert(key, place) {
            Ok(_) => Ok(()),
            Err(_) => {
                self.texts.pop();
                Err(AllocError)
            }
        }
    }

    /// Gives a name a place, if it has none. It answers `AllocError` also where a new name would be one more than
    /// 2^32.
    pub fn add(&mut self, alloc: Global, name: &str) -> Result<(), AllocError>
        ensures placed { OnOk result (IsPlaced self.new name.now) }
        ensures kept { OnErr result (self.new ≡ self.old) }
        ensures grown { IsGrown self.old self.new }
    {
        if self.place(name).is_some() {
            return Ok(());
        }
        if self.len() > u32::MAX as usize {
            return Err(AllocError);
        }
        self.push(alloc, name)
    }

    /// The names alone.
    pub fn into_texts(self) -> Items<Text>
        ensures same { result ≡ self }
    {
        let Names { texts, places: _ } = self;
        texts
    }
}
