ghost use Rattle.std.specs.Prelude.{◌≡◌, ◌≢◌, ◌≤◌, ◌<◌, List, ℕ, length, Ok, Err, Some, IfOk, IfErr};
ghost use Rattle.class_pool.specs.declared.fault.ClassFault.{ClassFault};
ghost use Rattle.class_pool.specs.declared.fault.ClassCause.TheVariants.{OutOfMemory};
ghost use Rattle.class_pool.specs.Spelling.{IsPoolOf};
ghost use Rattle.class_pool.specs.Reading.{Gives, head_at};
ghost use Rattle.class_shape.specs.declared.shapes.ClassShape.{ClassShape};
ghost use Rattle.class_shape.specs.Shapes.{IsClassFile};
ghost use Rattle.class_shape.specs.Meaning.{shape_of, own_names, list_shapes};
ghost use Rattle.class_shape.specs.Views.{body_view};
ghost use Rattle.class_shape.specs.Violations.{shape_read, first_violation};

use crate::resolved::{class_name, class_or_none};
use crate::resolved_lists::{all_rows, class_names, member_shapes};
use crate::shapes::{ClassShape, MemberKind};
use crate::tables::{Body, body_of};
use crate::texts::are_texts_within;
use crate::unread::Unread;
use class_pool::{ClassFault, Pool, no_memory, read_pool};
use std::alloc::Global;

/// What the used indices of a body mean, in file order.
#[tactic(auto, unfolding(crate::specs::Meaning::shape_of, crate::specs::Meaning::own_names, crate::specs::Meaning::list_shapes))]
fn shape_of(alloc: Global, pool: &Pool<'_>, body: &Body<'_>) -> Result<ClassShape, ClassFault>
    ensures { Gives (λ shape. shape) result (shape_of pool.now (body_view body.now)) }
{
    let name = class_name(alloc, pool, body.own.this)?;
    let parent = class_or_none(alloc, pool, body.own.parent)?;
    let interfaces = class_names(alloc, pool, &body.lists.interfaces)?;
    let fields = member_shapes(alloc, pool, MemberKind::Field, &body.lists.fields)?;
    let methods = member_shapes(alloc, pool, MemberKind::Method, &body.lists.methods)?;
    let inner = all_rows(alloc, pool, &body.lists.attributes)?;
    Ok(ClassShape {
        minor: pool.minor(),
        major: pool.major(),
        flags: body.own.flags,
        name,
        parent,
        interfaces,
        fields,
        methods,
        inner,
    })
}

/// What is left of a file after its pool.
pub fn after_pool<'a>(pool: &Pool<'_>, bytes: &'a [u8]) -> Unread<'a>
    requires small { length bytes.now ≤ 16777216 }
    requires pool { IsPoolOf bytes.now pool.now }
    ensures whole { result.end ≡ length bytes.now }
    ensures exact { head_at (length bytes.now) bytes.now ≡ Ok (pool.now, result.bytes.now) }
{
    Unread {
        end: bytes.len() as u32,
        bytes: &bytes[pool.end() as usize..],
    }
}

#[tactic(auto, unfolding(crate::specs::Violations::shape_read))]
fn shape_in(alloc: Global, bytes: &[u8]) -> Result<ClassShape, ClassFault>
    requires { length bytes.now ≤ 16777216 }
    ensures { Gives (λ shape. shape) result (shape_read bytes.now) }
{
    let pool = read_pool(alloc, bytes)?;
    let body = body_of(alloc, after_pool(&pool, bytes))?;
    if !are_texts_within(&pool, &body, bytes.len()) {
        return Err(no_memory());
    }
    shape_of(alloc, &pool, &body)
}

/// The shape of a class file, or its first violation: that of the first pass, which goes through the file in
/// order (Truncated, Magic, Version, Tag, Extra), before that of the second, which follows the used indices
/// in file order (Place, Name, Descriptor, Attribute). Attributes of members are passed unread, and of the
/// class's own only `InnerClasses` is read. Memory taken is at most a small multiple of the file's size, whatever
/// its counts promise: a shape whose texts would be longer than sixteen times the file and 64 MiB is
/// answered `OutOfMemory`.
pub fn read_class(alloc: Global, bytes: &[u8]) -> Result<ClassShape, ClassFault>
    requires { length bytes.now ≤ 16777216 }
    // What is read is what the file says.
    ensures found { IfOk result (λ shape. IsClassFile bytes.now shape) }
    // Every class file is read, unless memory runs out.
    ensures only { (shape : ClassShape) → IsClassFile bytes.now shape → Gives (λ s. s) result (Ok shape) }
    // A fault is the first violation.
    ensures first { IfErr result (λ fault. fault.cause ≢ OutOfMemory → first_violation bytes.now ≡ Some fault) }
    // Every violation is answered, unless memory runs out.
    ensures refused { (fault : ClassFault) → first_violation bytes.now ≡ Some fault → Gives (λ s. s) result (Err fault) }
    // Want of memory has no place.
    ensures memory { IfErr result (λ fault. fault.cause ≡ OutOfMemory → fault.at ≡ 0) }
{
    shape_in(alloc, bytes)
}
