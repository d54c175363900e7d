ghost use Rattle.std.specs.Prelude.{◌≡◌, ◌≢◌, ◌≤◌, ◌<◌, ◌+◌, ◌^◌, ◌++◌, ◌∷◌, ◌↔◌, [], ℕ, IsTrue, IfOk, IfSome, IfNone, length, chars, decimal, slice_get};
ghost use Rattle.terms.specs.Typing.{rows, joined};
ghost use Rattle.terms.specs.Expr.{var};
ghost use Rattle.java_shapes.specs.Readable.{IsReadable};
ghost use Rattle.java_resolve.specs.Found.{one};
ghost use Rattle.java_resolve.specs.Reading.{variable_in, IsVariableRow};
ghost use Rattle.java_resolve.specs.Trees.{tree_view, row_view};

use crate::binder::after_prefix;
use crate::found::{Entry, Found, Row};
use crate::setting::Setting;
use crate::tree::Tree;
use lists::Items;
use std::alloc::{AllocError, Global};
use std::rc::Rc;

/// How many variables there are at most where texts are read back: their numbers have 32 bits.
const MOST_VARIABLES: usize = 4_294_967_295;

/// Whether the digits are the number in decimal.
fn spells(alloc: Global, digits: &str, number: u32) -> Result<bool, AllocError>
    ensures { IfOk result (λ b. IsTrue b ↔ (digits.now ≡ decimal number)) }
{
    let text = number.to_string(alloc)?;
    Ok(text.as_str() == digits)
}

/// The number that a text is in decimal, without leading zeros.
fn decimal_value(alloc: Global, digits: &str) -> Result<Option<u32>, AllocError>
    ensures some { IfOk result (λ o. IfSome o (λ n. (n < 2 ^ 32) × (chars digits.now ≡ decimal n))) }
    ensures none { IfOk result (λ o. IfNone o ((n : ℕ) → n < 2 ^ 32 → chars digits.now ≢ decimal n)) }
{
    match digits.parse::<u32>() {
        Ok(number) => {
            let is_text = spells(alloc, digits, number)?;
            if is_text {
                return Ok(Some(number));
            }
            Ok(None)
        }
        Err(_) => Ok(None),
    }
}

/// The number of the variable that is written so.
fn number_of(alloc: Global, binder: &str, word: &str) -> Result<Option<u32>, AllocError>
    ensures some { IfOk result (λ o. IfSome o (λ n. (n < 2 ^ 32) × (chars word.now ≡ chars binder.now ++ decimal n))) }
    ensures none { IfOk result (λ o. IfNone o ((n : ℕ) → n < 2 ^ 32 → chars word.now ≢ chars binder.now ++ decimal n)) }
{
    match after_prefix(binder, word) {
        Some(digits) => decimal_value(alloc, digits),
        None => Ok(None),
    }
}

/// The variable that is written so.
pub fn variable_row(alloc: Global, setting: &Setting<'_>, text: &str) -> Result<Row, AllocError>
    ensures right { IsReadable setting.now.env.now → IfOk result (λ row. IsVariableRow setting.now.env.now (rows setting.now.ctx) (chars text.now) (row_view row)) }
{
    let count = setting.ctx.variables();
    if count > MOST_VARIABLES {
        return Err(AllocError);
    }
    let found = number_of(alloc, setting.env.parts().binder.as_str(), text)?;
    match found {
        Some(number) => numbered(alloc, setting, number),
        None => Ok(Row::none(alloc)),
    }
}

/// The variable with this number.
fn numbered(alloc: Global, setting: &Setting<'_>, number: u32) -> Result<Row, AllocError>
    ensures value { IfOk result (λ row. row_view row ≡ variable_in number (slice_get (joined (rows setting.now.ctx)) number)) }
{
    match setting.ctx.variable(number) {
        Some(kind) => variable(alloc, number, kind),
        None => Ok(Row::none(alloc)),
    }
}

/// A variable of this type.
fn variable(alloc: Global, number: u32, kind: u32) -> Result<Row, AllocError>
    ensures { IfOk result (λ row. row_view row ≡ (kind, one (var number)) ∷ []) }
{
    match Rc::new(alloc, Tree::Var(number)) {
        Ok(tree) => variable_entry(alloc, kind, tree),
        Err(_) => Err(AllocError),
    }
}

/// The row of one term of this type.
fn variable_entry(alloc: Global, kind: u32, tree: Rc<Tree>) -> Result<Row, AllocError>
    ensures { IfOk result (λ row. row_view row ≡ (kind, one (tree_view tree.value)) ∷ []) }
{
    let mut entries = Items::new(alloc);
    let found = Found::One(tree);
    entries.push(Entry { kind, found })?;
    Ok(Row { entries, depth: 1 })
}
