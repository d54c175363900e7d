ghost use Rattle.std.specs.Prelude.{◌≡◌, ◌⊎◌, true, false, if◌then◌else◌, Some, IfOk, OnOk};
ghost use Rattle.documents.specs.Edits.{within, edit_of};
ghost use Rattle.answers.specs.declared.types.DocumentState.TheVariants.{Sure, Unsure, NoMemory};
ghost use Rattle.answers.specs.Sessions.{state_of, state_after, changed_state, state_by};

use answers::DocumentState;
use documents::{Document, EditFault, TextChange};
use lists::{Items, Text};
use lsp_forms::ChangeForm;
use std::alloc::{AllocError, Global};

/// The greatest length of a document's text.
const LONGEST: usize = 16_777_216;

/// The state of a document with this text, or "no memory" where its copy finds none.
#[tactic(auto, unfolding(documents::specs::Edits::within))]
pub fn opened(alloc: Global, text: &str) -> DocumentState
    ensures state { (result ≡ state_of (within text.now)) ⊎ (result ≡ NoMemory) }
{
    if text.len() > LONGEST {
        return DocumentState::Unsure;
    }
    match String::from_str(alloc, text) {
        Ok(text) => DocumentState::Sure(Document::from_text(alloc, text)),
        Err(_) => DocumentState::NoMemory,
    }
}

/// The state of a document with this text.
#[tactic(auto, unfolding(documents::specs::Edits::within))]
fn replaced(alloc: Global, text: Text) -> DocumentState
    ensures state { result ≡ state_of (within text) }
{
    if text.len() > LONGEST {
        return DocumentState::Unsure;
    }
    DocumentState::Sure(Document::from_text(alloc, text.into_string()))
}

/// Makes a change of a text, and tells whether it could be made.
#[tactic(auto, unfolding(documents::specs::Edits::document_after))]
fn edit(document: &mut Document, change: &TextChange) -> Result<bool, AllocError>
    ensures made { IfOk result (λ made. state_of (edit_of document.old change.now.text change.now.range) ≡ (if made then Sure document.new else Unsure)) }
{
    match document.apply(change) {
        Ok(()) => Ok(true),
        Err(EditFault::OutOfMemory) => Err(AllocError),
        Err(_) => Ok(false),
    }
}

/// Makes one change of a document. After an Err its state tells nothing.
#[tactic(auto, using(crate::proofs::Changes::changes))]
fn change_once(
    alloc: Global,
    state: &mut DocumentState,
    form: &ChangeForm,
) -> Result<(), AllocError>
    ensures made { OnOk result (state.new ≡ state_after state.old form.now) }
{
    let text = Text::from_str(alloc, form.text.as_str())?;
    match form.range {
        None => *state = replaced(alloc, text),
        Some(range) => change_range(state, range, text)?,
    }
    Ok(())
}

/// Makes a change that has a range; a text that isn't sure stays as it is. After an Err its state tells nothing.
#[tactic(auto, using(crate::proofs::Changes::changes))]
fn change_range(
    state: &mut DocumentState,
    range: ((u32, u32), (u32, u32)),
    text: Text,
) -> Result<(), AllocError>
    ensures made { OnOk result (state.new ≡ state_after state.old (record { range = Some range; text = text })) }
{
    if let DocumentState::Sure(document) = state {
        let change = TextChange {
            range: Some(range),
            text,
        };
        if !edit(document, &change)? {
            *state = DocumentState::Unsure;
        }
    }
    Ok(())
}

/// Makes changes of a document, one after the other. After an Err its state tells nothing.
fn change_each(
    alloc: Global,
    state: &mut DocumentState,
    changes: &[ChangeForm],
) -> Result<(), AllocError>
    ensures made { OnOk result (state.new ≡ changed_state state.old changes.now) }
{
    let mut rest = changes;
    while let Some((form, more)) = rest.split_first() {
        change_once(alloc, state, form)?;
        rest = more;
    }
    Ok(())
}

/// Makes the changes of a message, none where they aren't well formed. Where there is no memory for one of them the
/// state is "no memory".
pub fn change_all(alloc: Global, state: &mut DocumentState, changes: Option<Items<ChangeForm>>)
    ensures state { (state.new ≡ state_by state.old changes) ⊎ (state.new ≡ NoMemory) }
{
    let Some(changes) = changes else {
        if let DocumentState::Sure(_) = state {
            *state = DocumentState::Unsure;
        }
        return;
    };
    if change_each(alloc, state, changes.as_slice()).is_err() {
        *state = DocumentState::NoMemory;
    }
}

/// Puts a document into the state "no memory".
pub fn forget(state: &mut DocumentState)
    ensures state { state.new ≡ NoMemory }
{
    *state = DocumentState::NoMemory;
}
