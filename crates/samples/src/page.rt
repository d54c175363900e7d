ghost use Rattle.std.specs.Prelude.{◌≡◌, length, sum_by, IfOk, IfSome};
ghost use Rattle.samples.specs.Lines.{yes_or_no, first_weight, last_weight, text_length, page_lines, ArePageLines};

use listing::{Item, Listing};
use lists::Text;
use reconstruction::Rebuild;
use std::alloc::{AllocError, Global};
use terms::Env;

/// How many items are asked for.
const COUNT: u64 = 100;

fn yes_or_no(yes: bool) -> &'static str
    ensures { result.now ≡ yes_or_no yes }
{
    if yes { "yes" } else { "no" }
}

/// The weight of the first item, 0 where there is none.
fn first_weight(items: &[Item]) -> u32
    ensures { result ≡ first_weight items.now }
{
    match items.first() {
        Some(item) => item.weight,
        None => 0,
    }
}

/// The weight of the last item, 0 where there is none.
fn last_weight(items: &[Item]) -> u32
    ensures { result ≡ last_weight items.now }
{
    match items.last() {
        Some(item) => item.weight,
        None => 0,
    }
}

/// How long the texts of items are together, in bytes; None where that passes 64 bits.
fn text_lengths(items: &[Item]) -> Option<u64>
    ensures { IfSome result (λ sum. sum ≡ sum_by text_length items.now) }
{
    let mut sum: u64 = 0;
    for item in items {
        sum = sum.checked_add(item.text.len() as u64)?;
    }
    Some(sum)
}

/// The lines of items, and of whether the list ends with them.
fn items_told(alloc: Global, items: &[Item], is_last: bool) -> Result<Text, AllocError>
    ensures { IfOk result (λ lines. lines ≡ page_lines items.now is_last) }
{
    let Some(bytes) = text_lengths(items) else {
        return Err(AllocError);
    };
    let count = items.len();
    let last = yes_or_no(is_last);
    let lightest = first_weight(items);
    let heaviest = last_weight(items);
    let lines = format!(in alloc;
        "items {count}\nlast {last}\nweights {lightest} {heaviest}\nbytes {bytes}\n"
    )?;
    Ok(Text::from_string(lines))
}

/// The lines of the first page of an environment's list.
pub fn page_told(alloc: Global, env: Env) -> Result<Text, AllocError>
    ensures exact { IfOk result (λ lines. ArePageLines env lines) }
{
    let mut listing: Listing<Rebuild> = Listing::new(alloc, env)?;
    let page = listing.page(alloc, 0, COUNT)?;
    items_told(alloc, listing.items(&page), page.last)
}
