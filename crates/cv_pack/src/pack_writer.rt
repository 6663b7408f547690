//! The writer of packs.
ghost use Rattle.std.specs.Prelude.{◌≡◌, ◌≢◌, ◌++◌, ◌∷◌, [], ◌↔◌, ◌≤◌, IsTrue, IfOk, OnOk, OnErr, Contains, Ok, Err, false, decimal, length, map};
ghost use Rattle.sha1.specs.Sha1.{sha1};
ghost use Rattle.cv_base.specs.declared.id.Kind.TheVariants.{History};
ghost use Rattle.cv_pack.specs.declared.header_reader.TheConstants.{TOTAL_LIMIT};
ghost use Rattle.cv_pack.specs.declared.add_fault.AddFault.TheVariants.{Full as IsFull};
ghost use Rattle.cv_pack.specs.Pack.{IsPack, entry, line, ids, contents, contents_size, has_room, header_bytes, pack_bytes};
ghost use Rattle.cv_pack.specs.PackInner.{lines_of, lent};
ghost use Rattle.cv_pack.specs.Reading.{object, reading};

use crate::add_fault::AddFault;
use crate::header_reader::{COUNT_LIMIT, TOTAL_LIMIT};
use cv_base::{Bytes, NoMemory, OBJECT_LIMIT, ObjectId};
use itoa::Buffer;
use std::alloc::Global;
use std::marker::Model;

/// A content that is lent, and the id of its object.
#[derive(Clone, Copy, Drop)]
struct Lent<'a> {
    id: ObjectId,
    bytes: &'a [u8],
}

/// Writes a pack of objects whose contents are lent to it, so that each is copied once, to where the pack is written. Clauses see
/// the list of the objects.
#[derive(Drop)]
pub struct PackWriter<'a> {
    alloc: Global,
    objects: Vec<Lent<'a>>,
    total: usize,
}

impl<'a> Model for PackWriter<'a> {
    ghost use Rattle.std.specs.Prelude.{List, ◌≡◌, map};
    ghost use Rattle.cv_base.specs.declared.object.Object.{Object};
    ghost use Rattle.cv_pack.specs.Pack.{IsPack, contents_size};
    ghost use Rattle.cv_pack.specs.Reading.{object};

    ghost Value = { List Object };

    ghost view = { λ w. map (λ o. object o.id o.bytes.now) w.objects.items };

    ghost invariant = { λ w. IsPack (map (λ o. object o.id o.bytes.now) w.objects.items)
        × (w.total ≡ contents_size (map (λ o. object o.id o.bytes.now) w.objects.items)) };
}

/// Adds a number in decimal.
fn push_decimal(out: &mut Vec<u8>, number: usize) -> Result<(), NoMemory>
    ensures { OnOk result (out.new.items ≡ out.old.items ++ decimal number) }
{
    let mut buffer = Buffer::new();
    out.extend_from_slice(buffer.format(number).as_bytes())?;
    Ok(())
}

/// Adds the line of an object.
fn push_line(alloc: Global, out: &mut Vec<u8>, object: &Lent) -> Result<(), NoMemory>
    ensures { OnOk result (out.new.items ≡ out.old.items
        ++ line (entry object.now.id (length object.now.bytes.now))) }
{
    out.extend_from_slice(b"C ")?;
    out.extend_from_slice(object.id.text(alloc)?.as_bytes())?;
    out.extend_from_slice(b" ")?;
    push_decimal(out, object.bytes.len())?;
    out.extend_from_slice(b"\n")?;
    Ok(())
}

/// Adds the lines of objects.
fn push_lines(alloc: Global, out: &mut Vec<u8>, objects: &[Lent]) -> Result<(), NoMemory>
    ensures { OnOk result (out.new.items ≡ out.old.items ++ lines_of (lent objects.now)) }
{
    for object in objects {
        push_line(alloc, out, object)?;
    }
    Ok(())
}

/// Adds the contents of objects.
fn push_contents(out: &mut Vec<u8>, objects: &[Lent]) -> Result<(), NoMemory>
    ensures { OnOk result (out.new.items ≡ out.old.items ++ contents (lent objects.now)) }
{
    for object in objects {
        out.extend_from_slice(object.bytes)?;
    }
    Ok(())
}

/// Whether an object has this id.
fn is_id_of(id: &ObjectId, object: &Lent) -> bool
    ensures { IsTrue result ↔ (object.now.id ≡ id.now) }
{
    object.id == *id
}

/// Whether one of these objects has this id.
fn has_id(objects: &[Lent], id: &ObjectId) -> bool
    ensures { IsTrue result ↔ Contains (ids (lent objects.now)) id.now }
{
    for object in objects {
        if is_id_of(id, object) {
            return true;
        }
    }
    false
}

impl<'a> PackWriter<'a> {
    /// A pack of no objects so far.
    pub fn new(alloc: Global) -> PackWriter<'a>
        ensures { result ≡ [] }
    {
        PackWriter {
            alloc,
            objects: Vec::new(alloc),
            total: 0,
        }
    }

    /// Whether an object of the pack has this id. It takes time in proportion to their count.
    pub fn has(&self, id: &ObjectId) -> bool
        ensures { IsTrue result ↔ Contains (ids self.now) id.now }
    {
        has_id(self.objects.as_slice(), id)
    }

    /// Adds an object with its id, which no object of the pack has. `Full` comes exactly where a limit of a pack would be passed:
    /// 10,000 objects, 16 MiB of one content and 32 MiB of all. After an error the writer is as before.
    pub fn add(&mut self, id: &ObjectId, bytes: &'a [u8]) -> Result<(), AddFault>
        requires hash { id.now.hash ≡ sha1 bytes.now }
        requires kind { id.now.kind ≢ History }
        requires new { ¬ Contains (ids self.old) id.now }
        ensures ok { OnOk result (self.new ≡ self.old ++ object id.now bytes.now ∷ []) }
        ensures full { (result ≡ Err IsFull) ↔ (has_room self.old bytes.now ≡ false) }
        ensures err { OnErr result (self.new ≡ self.old) }
    {
        if self.objects.len() >= COUNT_LIMIT as usize
            || bytes.len() > OBJECT_LIMIT
            || self.total + bytes.len() > TOTAL_LIMIT as usize
        {
            return Err(AddFault::Full);
        }
        self.objects.push(Lent { id: *id, bytes })?;
        self.total += bytes.len();
        Ok(())
    }

    /// How many bytes all contents have: at most 32 MiB.
    pub fn contents_size(&self) -> usize
        ensures size { result ≡ contents_size self.now }
        ensures limit { result ≤ TOTAL_LIMIT }
    {
        self.total
    }

    /// The header of the pack.
    pub fn header(&self) -> Result<Vec<u8>, NoMemory>
        ensures header { IfOk result (λ bytes. bytes.items ≡ header_bytes self.now) }
        ensures is_pack { IsPack self.now }
    {
        let objects = self.objects.as_slice();
        let mut out = Vec::from_slice(self.alloc, b"V2\nS")?;
        push_decimal(&mut out, self.total)?;
        out.extend_from_slice(b"\nN")?;
        push_decimal(&mut out, objects.len())?;
        out.extend_from_slice(b"\n--\n")?;
        push_lines(self.alloc, &mut out, objects)?;
        Ok(out)
    }

    /// Adds the contents. Behind the header they are the bytes of the pack, which are read back as its objects.
    pub fn append_contents(&self, out: &mut Vec<u8>) -> Result<(), NoMemory>
        ensures contents { OnOk result (out.new.items ≡ out.old.items ++ contents self.now) }
        ensures reads_back { OnOk result (out.old.items ≡ header_bytes self.now → reading out.new.items ≡ Ok self.now) }
    {
        push_contents(out, self.objects.as_slice())
    }

    /// The bytes of the pack, which are read back as its objects.
    pub fn finish(self) -> Result<Bytes, NoMemory>
        ensures pack { IfOk result (λ bytes. bytes ≡ pack_bytes self.entry) }
        ensures is_pack { IsPack self.entry }
        ensures reads_back { IfOk result (λ bytes. reading bytes ≡ Ok self.entry) }
    {
        let mut pack = self.header()?;
        pack.reserve(self.total)?;
        self.append_contents(&mut pack)?;
        Ok(Bytes::new(pack))
    }
}
