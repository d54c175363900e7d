ghost use Rattle.std.specs.Prelude.{◌≡◌, Some, IfOk};
ghost use Rattle.terms.specs.Place.{IsInhabitant};
ghost use Rattle.listing.specs.Found.{IsItem, term_of};
ghost use Rattle.answers.specs.Asks.{explain};
ghost use Rattle.answers.specs.Certificates.{spelled, first_floor, certificate_data};
ghost use Rattle.sessions.specs.declared.failure.Failure.TheVariants as variant;
ghost use Rattle.sessions.specs.Texts.{result_text, failure_text};
ghost use Rattle.sessions.specs.Kept.{StandsAt};
ghost use Rattle.sessions.specs.Explained.{IsItemTold, AreFloorsTold};
ghost use Rattle.sessions.specs.Questions.{Answers};

use crate::cursors::Cursors;
use crate::failure::Failure;
use crate::replies::{failure_reply, result_reply};
use crate::world::World;
use answers::Cursor;
use certificates::{floors, item_rows};
use checker::Floor;
use json_rpc::Id;
use listing::Item;
use lsp_forms::{make_floors, make_rows};
use std::alloc::{AllocError, Global};
use terms::Env;

/// An item isn't among those that its cursor has answered.
const NOT_ANSWERED: u32 = 20;

/// The reply with the rows of an item.
#[tactic(auto, using(crate::proofs::Explained::whole))]
fn rows_reply(alloc: Global, id: &Id, env: &Env, item: &Item) -> Result<Vec<u8>, AllocError>
    requires inhabitant { IsInhabitant env.now (term_of item.now) }
    requires says { IsItem env.now item.now }
    ensures body { IfOk result (λ body. body.items ≡ result_text id.now (certificate_data env.now (spelled (term_of item.now)))) }
{
    let rows = item_rows(alloc, env, &item.term)?;
    let value = make_rows(alloc, rows.as_slice(), item.weight)?;
    result_reply(alloc, id, value)
}

/// The first floor.
fn first_floor(floors: &[Floor]) -> u32
    ensures { result ≡ first_floor floors.now }
{
    match floors.first() {
        Some(first) => first.floor,
        None => 0,
    }
}

/// The reply with the floors of a cursor's list.
#[tactic(auto, using(crate::proofs::Explained::whole))]
fn explain_list(alloc: Global, id: &Id, cursor: &Cursor) -> Result<Vec<u8>, AllocError>
    ensures told { IfOk result (λ reply. AreFloorsTold cursor.now id.now reply.items) }
{
    let floors = floors(alloc, cursor.env.env())?;
    let value = make_floors(alloc, floors.as_slice(), first_floor(floors.as_slice()))?;
    result_reply(alloc, id, value)
}

/// The reply for an item that wasn't answered.
fn unanswered(alloc: Global, id: &Id) -> Result<Vec<u8>, AllocError>
    ensures { IfOk result (λ body. body.items ≡ failure_text (Some id.now) (variant.InvalidParams 20 0)) }
{
    failure_reply(
        alloc,
        Some(id),
        Failure::InvalidParams {
            cause: NOT_ANSWERED,
            index: 0,
        },
    )
}

/// The reply that explains the item of this number, counted from 0 over all pages of a cursor.
#[tactic(auto, using(crate::proofs::Explained::items))]
fn explain_item<W: World>(
    alloc: Global,
    id: &Id,
    cursor: &Cursor,
    item: u32,
    world: &mut W,
) -> Result<Vec<u8>, AllocError>
    ensures told { IfOk result (λ reply. IsItemTold cursor.now item id.now reply.items) }
    ensures same { W.state world.new ≡ W.state world.old }
{
    let _parts = cursor.env.env().parts();
    if cursor.answered <= item as u64 {
        return unanswered(alloc, id);
    }
    let page = world.page(alloc, &cursor.env, item as u64, 1)?;
    match page.items.as_slice().first() {
        Some(item) => rows_reply(alloc, id, cursor.env.env(), item),
        None => unanswered(alloc, id),
    }
}

impl Cursors {
    /// Explains an item of the list of the cursor at a place, or the list where none is named.
    #[tactic(auto, using(crate::proofs::Explained::explains))]
    fn explain_at<W: World>(
        &self,
        alloc: Global,
        id: &Id,
        number: u32,
        place: usize,
        item: Option<u32>,
        world: &mut W,
    ) -> Result<Vec<u8>, AllocError>
        requires stands { StandsAt self.now.cursors number place }
        ensures answers { IfOk result (λ reply. Answers self.now (explain number item) id.now self.now reply.items (W.state world.old) (W.state world.new)) }
        ensures same { W.state world.new ≡ W.state world.old }
    {
        let cursor = self.at(place);
        match item {
            Some(item) => explain_item(alloc, id, cursor, item, world),
            None => explain_list(alloc, id, cursor),
        }
    }

    /// Explains an item of a list, or where none is named its least weight. The version of the list may be withdrawn: no
    /// version is read.
    pub fn explain<W: World>(
        &self,
        alloc: Global,
        id: &Id,
        number: u32,
        item: Option<u32>,
        world: &mut W,
    ) -> Result<Vec<u8>, AllocError>
        ensures answers { IfOk result (λ reply. Answers self.now (explain number item) id.now self.now reply.items (W.state world.old) (W.state world.new)) }
        ensures same { W.state world.new ≡ W.state world.old }
    {
        match self.place(number) {
            Some(place) => self.explain_at(alloc, id, number, place, item, world),
            None => failure_reply(
                alloc,
                Some(id),
                Failure::InvalidParams { cause: 6, index: 0 },
            ),
        }
    }
}
