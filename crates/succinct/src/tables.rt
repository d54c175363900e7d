// The tables that grow while the sources are gone through.

ghost use Rattle.std.specs.Prelude.{◌≡◌, ◌∷◌, [], map, IfOk, OnOk};
ghost use Rattle.succinct.specs.Compression.{Adds, AddsWants, AreWants, of_decl, of_pair, sources, IsNumbered};

use crate::compressing::{kind_number, need_numbers};
use crate::kind::Succinct;
use crate::need::Need;
use crate::rows::Rows;
use crate::sets::set_of;
use indexmap::IndexSet;
use lists::Items;
use std::alloc::{AllocError, Global};
use terms::{Arg, Decl, Parts};

/// Needs and kinds by their numbers, and of each source so far the number of its kind and those of its needs.
#[derive(Drop)]
pub struct Tables {
    pub needs: IndexSet<Need>,
    pub kinds: IndexSet<Succinct>,
    pub kind_numbers: Items<u32>,
    pub wanted: Rows,
}

/// Puts one source more at the end.
pub fn add_source(
    alloc: Global,
    tables: &mut Tables,
    args: &[Arg],
    gives: u32,
) -> Result<(), AllocError>
    ensures one_more { OnOk result (Adds (record { args = args.now; result = gives } ∷ []) tables.old.needs.keys tables.old.kinds.keys tables.old.kind_numbers tables.new.needs.keys tables.new.kinds.keys tables.new.kind_numbers) }
    ensures wants { OnOk result (AddsWants (record { args = args.now; result = gives } ∷ []) tables.old.needs.keys tables.old.wanted tables.new.needs.keys tables.new.wanted) }
{
    let numbers = need_numbers(alloc, &mut tables.needs, args)?;
    tables.wanted.push(numbers.as_slice())?;
    let needs = set_of(numbers);
    let kind = kind_number(
        &mut tables.kinds,
        Succinct {
            needs,
            result: gives,
        },
    )?;
    tables.kind_numbers.push(kind)?;
    Ok(())
}

/// Puts declarations at the end, in their order.
pub fn add_decls(alloc: Global, tables: &mut Tables, decls: &[Decl]) -> Result<(), AllocError>
    ensures more { OnOk result (Adds (map of_decl decls.now) tables.old.needs.keys tables.old.kinds.keys tables.old.kind_numbers tables.new.needs.keys tables.new.kinds.keys tables.new.kind_numbers) }
    ensures wants { OnOk result (AddsWants (map of_decl decls.now) tables.old.needs.keys tables.old.wanted tables.new.needs.keys tables.new.wanted) }
{
    for decl in decls {
        add_source(alloc, tables, decl.args.as_slice(), decl.result)?;
    }
    Ok(())
}

/// Puts pairs at the end, in their order.
pub fn add_pairs(alloc: Global, tables: &mut Tables, pairs: &[(u32, u32)]) -> Result<(), AllocError>
    ensures more { OnOk result (Adds (map of_pair pairs.now) tables.old.needs.keys tables.old.kinds.keys tables.old.kind_numbers tables.new.needs.keys tables.new.kinds.keys tables.new.kind_numbers) }
    ensures wants { OnOk result (AddsWants (map of_pair pairs.now) tables.old.needs.keys tables.old.wanted tables.new.needs.keys tables.new.wanted) }
{
    for pair in pairs {
        let wanted = [Arg::Plain(pair.0)];
        add_source(alloc, tables, &wanted, pair.1)?;
    }
    Ok(())
}

/// The tables of the declarations and then the pairs of an environment.
pub fn tables_of(alloc: Global, parts: &Parts) -> Result<Tables, AllocError>
    ensures numbered { IfOk result (λ tables. IsNumbered (sources parts.now) tables.needs.keys tables.kinds.keys tables.kind_numbers) }
    ensures wants { IfOk result (λ tables. AreWants (sources parts.now) tables.needs.keys tables.wanted) }
{
    let mut tables = Tables {
        needs: IndexSet::new(alloc),
        kinds: IndexSet::new(alloc),
        kind_numbers: Items::new(alloc),
        wanted: Rows::new(alloc),
    };
    add_decls(alloc, &mut tables, parts.decls.as_slice())?;
    add_pairs(alloc, &mut tables, parts.pairs.as_slice())?;
    Ok(tables)
}
