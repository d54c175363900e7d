ghost use Rattle.std.specs.Prelude.{◌≤◌, IfOk};
ghost use Rattle.terms.specs.Faults.{greatest_depth};
ghost use Rattle.java_shapes.specs.Readable.{IsApart};
ghost use Rattle.scopes.specs.Environments.{IsEnvironmentAt};
ghost use Rattle.hole_texts.specs.Holes.{IsTextHole};

use crate::looks::look_at_texts;
use decl_index::Index;
use java_bodies::HoleSite;
use java_units::Unit;
use known_classes::Classes;
use scopes::environment;
use std::alloc::{AllocError, Global};
use terms::Env;

/// The environment of a hole of a text in UTF-8, as `scopes::environment` makes it: its texts can be read back, and they
/// tell its terms apart. What it looks at besides is the number of classes, the weights, and each text of the
/// environment, once.
pub fn apart_environment(
    alloc: Global,
    index: &Index,
    unit: &Unit,
    site: &HoleSite,
    limit: u32,
    depth: u32,
) -> Result<Env, AllocError>
    requires hole { IsTextHole unit.now site.now }
    requires limit { (1 ≤ limit) × (limit ≤ 10000) }
    requires depth { depth ≤ greatest_depth }
    ensures exact { IfOk result (IsEnvironmentAt index.now unit.now site.now limit depth) }
    ensures apart { IfOk result (λ env. IsApart env) }
{
    let _count = index.count();
    let _weights = index.weights();
    let env = environment(alloc, index, unit, site, limit, depth)?;
    look_at_texts(env.parts());
    Ok(env)
}
