ghost use Rattle.std.specs.Prelude.{◌≡◌, ◌≤◌, List, length, IfOk};
ghost use Rattle.std.specs.Str.{IsCharBoundary};
ghost use Rattle.decl_index.specs.declared.change.Change.{Change};
ghost use Rattle.version_board.specs.Versions.{IsVersion};
ghost use Rattle.samples.specs.Samples.{HasEnvironment};

use java_bodies::hole_at;
use java_tokens::tokens;
use java_units::read_unit;
use scopes::environment;
use std::alloc::{AllocError, Global};
use terms::Env;
use version_board::Snapshot;

/// The greatest weight of an item, unless a session is told another.
const LIMIT: u32 = 4000;

/// The depth of lambdas, unless a session is told another.
const DEPTH: u32 = 1;

/// The environment of the hole at a place of a text, in a version. Where there is no hole it answers as for want of memory.
#[tactic(auto, using(crate::proofs::Holes::at_hole))]
pub fn environment_at(
    alloc: Global,
    version: &Snapshot,
    text: &str,
    place: u32,
) -> Result<Env, AllocError>
    requires short { length text.now ≤ 16777216 }
    requires boundary { IsCharBoundary text.now place }
    ensures exact { (history : List Change) → IsVersion history version.now → IfOk result (λ env. HasEnvironment history (record { text = text.now; place = place; limit = 4000; depth = 1 }) env) }
{
    let tokens = tokens(alloc, text)?;
    let unit = read_unit(alloc, text, tokens.as_slice())?;
    let Some(site) = hole_at(alloc, text, tokens.as_slice(), &unit, place)? else {
        return Err(AllocError);
    };
    environment(alloc, &version.index, &unit, &site, LIMIT, DEPTH)
}
