ghost use Rattle.std.specs.Prelude.{◌≡◌, map, IfOk};
ghost use Rattle.offers.specs.Scenes.{is_among};
ghost use Rattle.offers.specs.Spellings.{parts};

use lists::{Items, Text};
use std::alloc::{AllocError, Global};

/// Whether one of these texts is this one.
pub fn is_among(texts: &[Text], text: &str) -> bool
    ensures { result ≡ is_among texts.now text.now }
{
    texts.iter().any(|t| t.as_str() == text)
}

/// The parts between dots, borrowed.
fn pieces(alloc: Global, text: &str) -> Result<Vec<&str>, AllocError>
    ensures { IfOk result (λ all. map (λ w. w.now) all.items ≡ parts text.now) }
{
    text.split('.').collect(alloc)
}

/// The parts between dots.
pub(crate) fn parts(alloc: Global, text: &str) -> Result<Items<Text>, AllocError>
    ensures { IfOk result (λ all. all ≡ parts text.now) }
{
    let pieces = pieces(alloc, text)?;
    let mut all = Items::new(alloc);
    for piece in &pieces {
        all.push(Text::from_str(alloc, piece)?)?;
    }
    Ok(all)
}
