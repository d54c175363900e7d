ghost use Rattle.std.specs.Prelude.{◌≡◌, is_some, ◌⊎◌, IfOk, OnOk, Some, None};
ghost use Rattle.std.specs.Option.{option_copied};
ghost use Rattle.offers.specs.Spelled.{AreSpelled};
ghost use Rattle.offers.specs.Spellings.{class_spelling, spelling};
ghost use Rattle.offers.specs.Views.{scene};

use crate::spelling::class_spelling;
use crate::view::View;
use lists::{Copies, Text, at};
use name_places::Names;
use std::alloc::{AllocError, Global};
use std::marker::Model;
use type_names::{Base, Erased};

/// A view with the spellings of classes at its site, each made once. Contracts see the view.
#[derive(Drop)]
pub struct Spellings<'a> {
    view: &'a View<'a>,
    names: Names,
    texts: Vec<Option<Text>>,
}

impl<'a> Model for Spellings<'a> {
    ghost use Rattle.offers.specs.Views.{Outlook};
    ghost use Rattle.offers.specs.Spelled.{AreSpelled};

    ghost Value = { Outlook };

    ghost view = { λ s. s.view.now };

    ghost invariant = { λ s. AreSpelled s.view.now s.names s.texts.items };
}

/// Adds the spelling of a class, if it isn't there.
fn add_name(
    alloc: Global,
    view: &View<'_>,
    name: &Text,
    names: &mut Names,
    texts: &mut Vec<Option<Text>>,
) -> Result<(), AllocError>
    requires { AreSpelled view.now names.old texts.old.items }
    ensures { OnOk result (AreSpelled view.now names.new texts.new.items) }
{
    if names.place(name.as_str()).is_some() || names.len() > u32::MAX as usize {
        return Ok(());
    }
    let text = class_spelling(alloc, view, name)?;
    names.push(alloc, name.as_str())?;
    texts.push(text)?;
    Ok(())
}

/// Adds the spelling of the class that a type is made of, if it isn't there.
fn add_type(
    alloc: Global,
    view: &View<'_>,
    kind: &Erased,
    names: &mut Names,
    texts: &mut Vec<Option<Text>>,
) -> Result<(), AllocError>
    requires { AreSpelled view.now names.old texts.old.items }
    ensures { OnOk result (AreSpelled view.now names.new texts.new.items) }
{
    match &kind.base {
        Base::Class(name) => add_name(alloc, view, name, names, texts),
        _ => Ok(()),
    }
}

/// A copy of a text, where there is one.
fn copied(alloc: Global, text: Option<&Text>) -> Result<Option<Text>, AllocError>
    ensures { IfOk result (λ copy. copy ≡ option_copied text.entry) }
{
    match text {
        Some(text) => Ok(Some(text.copy(alloc)?)),
        None => Ok(None),
    }
}

impl<'a> Spellings<'a> {
    /// The view with the spellings of the classes of these types.
    pub fn new(
        alloc: Global,
        view: &'a View<'a>,
        types: &[Erased],
    ) -> Result<Spellings<'a>, AllocError>
        ensures { IfOk result (λ all. all ≡ view.now) }
    {
        let mut names = Names::new(alloc);
        let mut texts = Vec::new(alloc);
        for kind in types {
            add_type(alloc, view, kind, &mut names, &mut texts)?;
        }
        Ok(Spellings { view, names, texts })
    }

    /// The view.
    pub fn view(&self) -> &'a View<'a>
        ensures { result.now ≡ self.now }
    {
        self.view
    }

    /// The spelling of a class at the site, if it is kept.
    fn kept(&self, name: &str) -> Option<&Option<Text>>
        ensures { option_copied result ≡ Some (class_spelling (scene self.now) name.now) ⊎ (option_copied result ≡ None) }
    {
        match self.names.place(name) {
            Some(place) => at(self.texts.as_slice(), place as usize),
            None => None,
        }
    }

    /// The spelling of a class at the site.
    pub fn of(&self, alloc: Global, name: &Text) -> Result<Option<Text>, AllocError>
        ensures { IfOk result (λ text. text ≡ class_spelling (scene self.now) name.now) }
    {
        match self.kept(name.as_str()) {
            Some(text) => copied(alloc, text.as_ref()),
            None => class_spelling(alloc, self.view, name),
        }
    }

    /// Whether a class has a spelling at the site.
    pub(crate) fn has(&self, alloc: Global, name: &Text) -> Result<bool, AllocError>
        ensures { IfOk result (λ yes. yes ≡ is_some (class_spelling (scene self.now) name.now)) }
    {
        if let Some(text) = self.kept(name.as_str()) {
            return Ok(text.is_some());
        }
        let text = class_spelling(alloc, self.view, name)?;
        Ok(text.is_some())
    }

    /// Whether a type has a spelling at the site.
    #[tactic(auto, unfolding(crate::specs::Spellings::spelling))]
    pub(crate) fn has_type(&self, alloc: Global, kind: &Erased) -> Result<bool, AllocError>
        ensures { IfOk result (λ yes. yes ≡ is_some (spelling (scene self.now) kind.now)) }
    {
        match &kind.base {
            Base::Class(name) => self.has(alloc, name),
            _ => Ok(true),
        }
    }
}
