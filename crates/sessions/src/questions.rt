ghost use Rattle.std.specs.Prelude.{◌≡◌, ◌≤◌, ◌<◌, length, false, Some, IfOk, OnOk, OnErr};
ghost use Rattle.std.specs.Str.{IsCharBoundary};
ghost use Rattle.offers.specs.Sites.{IsSiteOf};
ghost use Rattle.answers.specs.Asks.{complete, page, close, is_used_up};
ghost use Rattle.sessions.specs.Kept.{StandsAt};
ghost use Rattle.sessions.specs.Options.{AreInRange};
ghost use Rattle.sessions.specs.Worlds.{WorldState, IsRead, MayRead};
ghost use Rattle.sessions.specs.Spots.{hole_in, IsSpot, IsMade};
ghost use Rattle.sessions.specs.Opened.{IsNewAt, Opens};
ghost use Rattle.sessions.specs.Texts.{shut_text};
ghost use Rattle.sessions.specs.Questions.{Answers};

use crate::cursors::Cursors;
use crate::failure::Failure;
use crate::replies::{failure_reply, null_reply, page_reply};
use crate::world::World;
use answers::Cursor;
use documents::Document;
use fingerprint::Fingerprinted;
use java_bodies::{HoleSite, hole_at};
use java_tokens::tokens;
use java_units::{Unit, read_unit};
use json_rpc::Id;
use lsp_forms::Initialize;
use scopes::environment;
use std::alloc::{AllocError, Global};
use terms::Env;

/// The unit of a text and the site of the hole at a place of it, where there is one.
#[derive(Drop)]
struct Spot {
    unit: Unit,
    site: Option<HoleSite>,
}

/// What a text has at a place.
fn spot_at(alloc: Global, text: &str, place: u32) -> Result<Spot, AllocError>
    requires short { length text.now ≤ 16777216 }
    requires boundary { IsCharBoundary text.now place }
    ensures spot { IfOk result (λ spot. IsSpot text.now place spot.unit spot.site) }
{
    let tokens = tokens(alloc, text)?;
    let unit = read_unit(alloc, text, tokens.as_slice())?;
    let site = hole_at(alloc, text, tokens.as_slice(), &unit, place)?;
    Ok(Spot { unit, site })
}

/// The environment of a site in the newest version, and the number of that version.
#[tactic(auto, using(crate::proofs::WorldReads::reads))]
fn environment_now<W: World>(
    alloc: Global,
    unit: &Unit,
    site: &HoleSite,
    options: Initialize,
    world: &mut W,
) -> Result<(Env, u32), AllocError>
    requires site { IsSiteOf unit.now site.now }
    requires options { AreInRange options }
    ensures made { IfOk result (λ made. IsMade (W.state world.new).known unit.now site.now options made.0 made.1) }
    ensures read { OnOk result (IsRead (W.state world.old) (W.state world.new)) }
    ensures no_memory { OnErr result (MayRead (W.state world.old) (W.state world.new)) }
{
    let version = world.read()?;
    let env = environment(
        alloc,
        &version.index,
        unit,
        site,
        options.limit,
        options.depth,
    )?;
    Ok((env, version.number))
}

/// The reply to a request that closes a cursor, which is kept or isn't.
fn shut_reply(alloc: Global, id: &Id, is_kept: bool) -> Result<Vec<u8>, AllocError>
    ensures body { IfOk result (λ body. body.items ≡ shut_text id.now is_kept) }
{
    if is_kept {
        return null_reply(alloc, id);
    }
    failure_reply(
        alloc,
        Some(id),
        Failure::InvalidParams { cause: 6, index: 0 },
    )
}

impl Cursors {
    /// Keeps a new cursor, and answers its first page.
    fn open<W: World>(
        &mut self,
        alloc: Global,
        id: &Id,
        cursor: Cursor,
        count: u64,
        world: &mut W,
    ) -> Result<Vec<u8>, AllocError>
        requires count { (1 ≤ count) × (count ≤ 1000) }
        ensures opens { IfOk result (λ reply. Opens self.old id.now cursor count self.new reply.items) }
        ensures unchanged { OnErr result (self.new ≡ self.old) }
        ensures same { W.state world.new ≡ W.state world.old }
    {
        let page = world.page(alloc, &cursor.env, 0, count)?;
        let answered = page.items.len() as u64;
        let cursor = Cursor { answered, ..cursor };
        let reply = page_reply(alloc, id, &cursor, 0, &page)?;
        self.keep(cursor)?;
        Ok(reply)
    }

    /// A new cursor for a site of a document, with nothing answered yet. It isn't kept.
    #[tactic(auto, using(crate::proofs::WorldReads::reads))]
    fn new_cursor<W: World>(
        &self,
        alloc: Global,
        document: &Document,
        unit: &Unit,
        site: &HoleSite,
        options: Initialize,
        world: &mut W,
    ) -> Result<Cursor, AllocError>
        requires site { IsSiteOf unit.now site.now }
        requires options { AreInRange options }
        requires start { IsCharBoundary document.now site.now.prefix.0 }
        requires end { IsCharBoundary document.now site.now.prefix.1 }
        requires room { is_used_up self.now ≡ false }
        ensures cursor { IfOk result (λ c. IsNewAt self.now.made document.now site.now c) }
        ensures made { IfOk result (λ c. IsMade (W.state world.new).known unit.now site.now options c.env c.version) }
        ensures read { OnOk result (IsRead (W.state world.old) (W.state world.new)) }
        ensures no_memory { OnErr result (MayRead (W.state world.old) (W.state world.new)) }
    {
        let (env, version) = environment_now(alloc, unit, site, options, world)?;
        Ok(Cursor {
            number: self.made() + 1,
            env: Fingerprinted::new(env),
            version,
            start: document.position(site.prefix.0),
            end: document.position(site.prefix.1),
            answered: 0,
        })
    }

    /// Answers a completion at a place of a document.
    #[tactic(auto, using(crate::proofs::Asked::asked))]
    pub fn complete<W: World>(
        &mut self,
        alloc: Global,
        id: &Id,
        document: &Document,
        place: u32,
        options: Initialize,
        world: &mut W,
    ) -> Result<Vec<u8>, AllocError>
        requires boundary { IsCharBoundary document.now place }
        requires options { AreInRange options }
        ensures answers { IfOk result (λ reply. Answers self.old (complete (hole_in document.now place options) options.count) id.now self.new reply.items (W.state world.old) (W.state world.new)) }
        ensures unchanged { OnErr result (self.new ≡ self.old) }
        ensures no_memory { OnErr result (MayRead (W.state world.old) (W.state world.new)) }
    {
        let Spot { unit, site } = spot_at(alloc, document.text(), place)?;
        let Some(site) = site else {
            return null_reply(alloc, id);
        };
        if self.is_used_up() {
            return failure_reply(
                alloc,
                Some(id),
                Failure::InvalidParams { cause: 2, index: 0 },
            );
        }
        let cursor = self.new_cursor(alloc, document, &unit, &site, options, world)?;
        self.open(alloc, id, cursor, options.count, world)
    }

    /// The next page of the cursor at a place.
    #[tactic(auto, using(crate::proofs::Asked::asked))]
    fn turn<W: World>(
        &mut self,
        alloc: Global,
        id: &Id,
        number: u32,
        place: usize,
        count: u64,
        world: &mut W,
    ) -> Result<Vec<u8>, AllocError>
        requires stands { StandsAt self.old.cursors number place }
        requires count { (1 ≤ count) × (count ≤ 1000) }
        ensures answers { IfOk result (λ reply. Answers self.old (page number count) id.now self.new reply.items (W.state world.old) (W.state world.new)) }
        ensures unchanged { OnErr result (self.new ≡ self.old) }
        ensures no_memory { OnErr result (MayRead (W.state world.old) (W.state world.new)) }
    {
        let version = world.read()?;
        let cursor = self.at(place);
        if let Some(through) = version.withdrawn(cursor.version) {
            let failure = Failure::VersionWithdrawn {
                number: through,
                version: cursor.version,
            };
            return failure_reply(alloc, Some(id), failure);
        }
        let page = world.page(alloc, &cursor.env, cursor.answered, count)?;
        let reply = page_reply(alloc, id, cursor, cursor.answered, &page)?;
        self.move_on(number, place, page.items.len() as u64);
        Ok(reply)
    }

    /// The next page of a cursor.
    #[tactic(auto, using(crate::proofs::Asked::asked))]
    pub fn page<W: World>(
        &mut self,
        alloc: Global,
        id: &Id,
        number: u32,
        count: u64,
        world: &mut W,
    ) -> Result<Vec<u8>, AllocError>
        requires count { (1 ≤ count) × (count ≤ 1000) }
        ensures answers { IfOk result (λ reply. Answers self.old (page number count) id.now self.new reply.items (W.state world.old) (W.state world.new)) }
        ensures unchanged { OnErr result (self.new ≡ self.old) }
        ensures no_memory { OnErr result (MayRead (W.state world.old) (W.state world.new)) }
    {
        match self.place(number) {
            Some(place) => self.turn(alloc, id, number, place, count, world),
            None => failure_reply(
                alloc,
                Some(id),
                Failure::InvalidParams { cause: 6, index: 0 },
            ),
        }
    }

    /// Closes a cursor.
    #[tactic(auto, using(crate::proofs::Asked::asked))]
    pub fn shut(&mut self, alloc: Global, id: &Id, number: u32) -> Result<Vec<u8>, AllocError>
        ensures answers { IfOk result (λ reply. (w : WorldState) → Answers self.old (close number) id.now self.new reply.items w w) }
        ensures unchanged { OnErr result (self.new ≡ self.old) }
    {
        let reply = shut_reply(alloc, id, self.has(number))?;
        self.close(number);
        Ok(reply)
    }
}
