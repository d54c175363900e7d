use crate::parts::{AttributeAt, IndexAt, MemberAt};
use crate::resolved_lists::is_inner_classes;
use crate::tables::Body;
use byteorder::{BigEndian, ByteOrder};
use class_pool::Pool;

/// Whether the texts of a shape are together at most sixteen times as long as the file and 64 MiB. A
/// file can name one long text many times, so that its shape would be tens of thousands of times as long;
/// such a one isn't built. The shapes of a JDK's classes hold at most 1.3 times as much text as their files.
pub fn are_texts_within(pool: &Pool<'_>, body: &Body<'_>, file: usize) -> bool {
    let limit = (file as u64).saturating_mul(16).saturating_add(67_108_864);
    let names = class_texts(pool, &body.lists.interfaces);
    let fields = member_texts(pool, &body.lists.fields);
    let methods = member_texts(pool, &body.lists.methods);
    let rows = attribute_texts(pool, &body.lists.attributes);
    names
        .saturating_add(fields)
        .saturating_add(methods)
        .saturating_add(rows)
        <= limit
}

fn text_len(pool: &Pool<'_>, index: u16) -> u64 {
    match pool.utf8(index) {
        Some(raw) => raw.len() as u64,
        None => 0,
    }
}

fn class_len(pool: &Pool<'_>, index: u16) -> u64 {
    match pool.class_name(index) {
        Some(raw) => raw.len() as u64,
        None => 0,
    }
}

fn class_texts(pool: &Pool<'_>, indices: &[IndexAt]) -> u64 {
    let mut sum = 0u64;
    for i in 0..indices.len() {
        sum = sum.saturating_add(class_len(pool, indices[i].index));
    }
    sum
}

fn member_texts(pool: &Pool<'_>, members: &[MemberAt]) -> u64 {
    let mut sum = 0u64;
    for i in 0..members.len() {
        let name = text_len(pool, members[i].name.index);
        let descriptor = text_len(pool, members[i].descriptor.index);
        sum = sum.saturating_add(name).saturating_add(descriptor);
    }
    sum
}

/// The texts of the rows of an `InnerClasses`, which stand after a count of two bytes.
fn row_texts(pool: &Pool<'_>, rows: &[u8]) -> u64 {
    let mut sum = 0u64;
    for row in rows.chunks_exact(8) {
        let inner = class_len(pool, BigEndian::read_u16(row));
        let outer = class_len(pool, BigEndian::read_u16(&row[2..]));
        let name = text_len(pool, BigEndian::read_u16(&row[4..]));
        sum = sum
            .saturating_add(inner)
            .saturating_add(outer)
            .saturating_add(name);
    }
    sum
}

fn rows_len(pool: &Pool<'_>, attribute: &AttributeAt<'_>) -> u64 {
    match pool.utf8(attribute.name.index) {
        Some(name) => {
            if !is_inner_classes(name) || attribute.body.len() < 2 {
                return 0;
            }
            row_texts(pool, &attribute.body[2..])
        }
        None => 0,
    }
}

fn attribute_texts(pool: &Pool<'_>, attributes: &[AttributeAt<'_>]) -> u64 {
    let mut sum = 0u64;
    for i in 0..attributes.len() {
        sum = sum.saturating_add(rows_len(pool, &attributes[i]));
    }
    sum
}
