ghost use Rattle.std.specs.Prelude.{◌≡◌, ◌≢◌, ◌≤◌, ◌<◌, ◌++◌, ◌∷◌, ◌+◌, ◌-◌, false, List, ℕ, length, Ok, Err, IfOk, IfErr, None, MatchOption, get_or, drop};
ghost use Rattle.std.specs.Option.{option_map};
ghost use Rattle.byteorder.specs.Endian.{big_number};
ghost use Rattle.class_pool.specs.declared.fault.ClassFault.{ClassFault};
ghost use Rattle.class_pool.specs.declared.fault.ClassCause.TheVariants.{OutOfMemory};
ghost use Rattle.class_pool.specs.Causes.{IsPoolCause};
ghost use Rattle.class_pool.specs.Spelling.{Entry, FileHeader, header_bytes, IsFileHeader, Head, IsPoolOf, entries};
ghost use Rattle.class_pool.specs.Reading.{Gives, header_at, head_at, head_read};
ghost use Rattle.class_pool.specs.Index.{Kept, kept, slot, start_in, class_index, IsAt, text_in, name_in};
ghost use Rattle.class_pool.specs.Members.{is_member_tag, is_name_and_type, pair_of, member_in};
ghost use Rattle.class_pool.specs.Faults.{Stops};
ghost use Rattle.class_pool.specs.Views.{header_seen, index_seen};

use crate::fault::{ClassCause, ClassFault};
use crate::parts::{text_of, u16_at, u32_at};
use crate::reading::index_entries;
use byteorder::{BigEndian, ByteOrder};
use std::alloc::Global;
use std::marker::Model;

/// The numbers of a header.
#[derive(Clone, Copy, Debug)]
struct Header {
    minor: u16,
    major: u16,
    count: u16,
}

/// The header, and the bytes after it.
#[tactic(auto, unfolding(crate::specs::Reading::header_at))]
fn header_of(total: u32, bytes: &[u8]) -> Result<(Header, &[u8]), ClassFault>
    ensures exact { Gives (λ x. (header_seen x.0, x.1.now)) result (header_at total bytes.now) }
    ensures long { IfOk result (λ x. length x.1.now + 10 ≡ length bytes.now) }
{
    let (sign, rest) = u32_at(total, bytes)?;
    if sign != 0xCAFE_BABE {
        return Err(ClassFault {
            at: 0,
            cause: ClassCause::Magic,
        });
    }
    let (minor, rest) = u16_at(total, rest)?;
    let (major, rest) = u16_at(total, rest)?;
    if major < 45 {
        return Err(ClassFault {
            at: 6,
            cause: ClassCause::Version,
        });
    }
    let (count, rest) = u16_at(total, rest)?;
    let header = Header {
        minor,
        major,
        count,
    };
    Ok((header, rest))
}

/// What is kept of a pool beside its bytes: the version, where the entries stand, by their places of the
/// pool, with 0 at place 0 and at a second place, and where the pool ends.
#[derive(Drop)]
struct PoolIndex {
    minor: u16,
    major: u16,
    starts: Vec<u32>,
    end: u32,
}

/// The index of the pool that the bytes begin with.
#[tactic(auto, unfolding(crate::specs::Reading::head_at))]
fn index_pool(alloc: Global, total: u32, bytes: &[u8]) -> Result<PoolIndex, ClassFault>
    requires { length bytes.now ≡ total }
    ensures { Gives index_seen result (kept total (head_at total bytes.now)) }
{
    let (header, rest) = header_of(total, bytes)?;
    let (starts, rest) = index_entries(alloc, total, header.count, rest)?;
    Ok(PoolIndex {
        minor: header.minor,
        major: header.major,
        starts,
        end: total - rest.len() as u32,
    })
}

/// The header and the constant pool of a class file, over its borrowed bytes. Beside them it keeps four
/// bytes for each place of the pool. Places are those that the file's indices name, from 1 on.
#[derive(Drop)]
pub struct Pool<'a> {
    bytes: &'a [u8],
    index: PoolIndex,
}

impl<'a> Model for Pool<'a> {
    ghost use Rattle.class_pool.specs.Spelling.{Head};
    ghost use Rattle.class_pool.specs.Index.{head_of, IsKept};
    ghost use Rattle.class_pool.specs.Views.{index_seen};

    ghost Value = { Head };

    ghost view = { λ p. head_of p.bytes.now };

    ghost invariant = { λ p. IsKept p.bytes.now (index_seen p.index) };
}

fn pool_of(alloc: Global, bytes: &[u8]) -> Result<Pool<'_>, ClassFault>
    requires { length bytes.now ≤ 16777216 }
    ensures { Gives (λ p. p) result (head_read (head_at (length bytes.now) bytes.now)) }
{
    let index = index_pool(alloc, bytes.len() as u32, bytes)?;
    Ok(Pool { bytes, index })
}

/// The header and the constant pool that the bytes begin with, or the first fault up to the pool's end:
/// one of Truncated, Magic, Version and Tag.
pub fn read_pool(alloc: Global, bytes: &[u8]) -> Result<Pool<'_>, ClassFault>
    requires { length bytes.now ≤ 16777216 }
    // What is read is spelled so.
    ensures found { IfOk result (λ pool. IsPoolOf bytes.now pool) }
    // What is spelled so is read, unless memory runs out.
    ensures only { (pool : Head) → IsPoolOf bytes.now pool → Gives (λ p. p) result (Ok pool) }
    // Where the header has a fault, it is the answer.
    ensures header_fault { (fault : ClassFault) → header_at (length bytes.now) bytes.now ≡ Err fault → Gives (λ p. p) result (Err fault) }
    // After a good header, a fault stands where no good entry does.
    ensures entry_fault { (header : FileHeader) (rest : List ℕ) → IsFileHeader header → bytes.now ≡ header_bytes header ++ rest → IfErr result (λ fault. fault.cause ≢ OutOfMemory → Stops (length bytes.now) false (header.count - 1) rest fault) }
    // Both in one.
    ensures exact { Gives (λ p. p) result (head_read (head_at (length bytes.now) bytes.now)) }
    // No other cause comes from a header and a pool.
    ensures causes { IfErr result (λ fault. fault.cause ≢ OutOfMemory → IsPoolCause fault.cause) }
    // Want of memory has no place.
    ensures memory { IfErr result (λ fault. fault.cause ≡ OutOfMemory → fault.at ≡ 0) }
{
    pool_of(alloc, bytes)
}

/// Where an entry stands, and 0 where none does.
fn start_of(starts: &[u32], place: u16) -> u32
    ensures { result ≡ get_or starts.now place 0 }
{
    match starts.get(place as usize) {
        Some(start) => *start,
        None => 0,
    }
}

fn bytes_from(bytes: &[u8], start: usize) -> &[u8]
    requires { start ≤ length bytes.now }
    ensures { result.now ≡ drop start bytes.now }
{
    &bytes[start..]
}

/// The first two numbers of two bytes.
fn two_numbers(bytes: &[u8]) -> (u16, u16)
    requires { 4 ≤ length bytes.now }
    ensures { result ≡ (big_number 2 bytes.now, big_number 2 (drop 2 bytes.now)) }
{
    (BigEndian::read_u16(bytes), BigEndian::read_u16(&bytes[2..]))
}

/// Whether an entry of this tag names a field, or else a method of a class or an interface.
fn is_member_tag(tag: u8, field: bool) -> bool
    ensures { result ≡ is_member_tag field tag }
{
    if field {
        tag == 9
    } else {
        tag == 10 || tag == 11
    }
}

impl<'a> Pool<'a> {
    /// The minor version.
    pub fn minor(&self) -> u16
        ensures is { result ≡ self.now.header.minor }
    {
        self.index.minor
    }

    /// The major version, 45 or more.
    pub fn major(&self) -> u16
        ensures is { result ≡ self.now.header.major }
    {
        self.index.major
    }

    /// The place in the file of the byte after the pool.
    pub fn end(&self) -> u32
        ensures is { result ≡ 10 + length (entries self.now.entries) }
    {
        self.index.end
    }

    /// The place in the file of the tag of the entry at a place of the pool; 0 where there is none.
    pub fn start(&self, place: u16) -> u32
        ensures is { result ≡ start_in self.now.entries place }
        ensures small { result ≤ 16777216 }
    {
        start_of(&self.index.starts, place)
    }

    /// The tag of the entry at a place, and the bytes after it.
    fn tag_at(&self, place: u16) -> Option<(u8, &[u8])>
        ensures { MatchOption result (slot self.now.entries place ≡ None) (λ b. IsAt self.now.entries place (b.0 ∷ b.1.now)) }
    {
        let [tag, rest @ ..] = self.entry_bytes(place)? else {
            return None;
        };
        Some((*tag, rest))
    }

    /// The bytes from the entry at a place on.
    fn entry_bytes(&self, place: u16) -> Option<&[u8]>
        ensures { MatchOption result (slot self.now.entries place ≡ None) (λ b. IsAt self.now.entries place b.now) }
    {
        let start = start_of(&self.index.starts, place) as usize;
        if start == 0 {
            return None;
        }
        Some(bytes_from(self.bytes, start))
    }

    /// The bytes of the text at a place, as they stand; None exactly where the place isn't a Utf8 entry.
    pub fn utf8(&self, place: u16) -> Option<&[u8]>
        ensures is { option_map (λ t. t.now) result ≡ text_in self.now.entries place }
    {
        let (tag, rest) = self.tag_at(place)?;
        if tag != 1 {
            return None;
        }
        match text_of(0, rest) {
            Ok((text, _)) => Some(text),
            Err(_) => None,
        }
    }

    /// The place that the Class entry at a place names; None exactly where it isn't a Class entry.
    pub fn name_place(&self, place: u16) -> Option<u16>
        ensures is { result ≡ class_index (slot self.now.entries place) }
    {
        let (tag, rest) = self.tag_at(place)?;
        if tag != 7 {
            return None;
        }
        Some(BigEndian::read_u16(rest))
    }

    /// The bytes of the name of the class at a place, as they stand; None exactly where the place isn't a
    /// Class entry whose name is a Utf8 entry.
    pub fn class_name(&self, place: u16) -> Option<&[u8]>
        ensures is { option_map (λ t. t.now) result ≡ name_in self.now.entries place }
    {
        self.utf8(self.name_place(place)?)
    }

    /// The places of the class and of the name with the descriptor that a member's entry names.
    fn member_places(&self, place: u16, field: bool) -> Option<(u16, u16)>
        ensures { result ≡ pair_of (is_member_tag field) (slot self.now.entries place) }
    {
        let (tag, rest) = self.tag_at(place)?;
        if !is_member_tag(tag, field) {
            return None;
        }
        Some(two_numbers(rest))
    }

    /// The places of the name and of the descriptor that a NameAndType entry names.
    fn name_and_type(&self, place: u16) -> Option<(u16, u16)>
        ensures { result ≡ pair_of is_name_and_type (slot self.now.entries place) }
    {
        let (tag, rest) = self.tag_at(place)?;
        if tag != 12 {
            return None;
        }
        Some(two_numbers(rest))
    }

    /// The class, the name and the descriptor, as they stand, of the member that the entry at a place names: a field,
    /// or else a method of a class or of an interface (JVMS 4.4.2). None exactly where the place isn't a Fieldref entry,
    /// or else neither a Methodref nor an InterfaceMethodref entry, whose Class and NameAndType are Utf8 in all parts.
    pub fn member(&self, place: u16, field: bool) -> Option<(&[u8], &[u8], &[u8])>
        ensures is { option_map (λ m. (m.0.now, m.1.now, m.2.now)) result ≡ member_in self.now.entries place field }
    {
        let (owner, described) = self.member_places(place, field)?;
        let (name, descriptor) = self.name_and_type(described)?;
        Some((
            self.class_name(owner)?,
            self.utf8(name)?,
            self.utf8(descriptor)?,
        ))
    }
}
