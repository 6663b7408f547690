//! The reader of a pack's header.
ghost use Rattle.std.specs.Prelude.{◌≡◌, ◌≢◌, ◌↔◌, ◌+◌, ◌≤◌, ◌<◌, ◌++◌, ◌∷◌, [], length, take, if◌then◌else◌, ◌==◌, IfOk, OnOk, IsTrue, Ok};
ghost use Rattle.cv_base.specs.declared.id.Kind.TheVariants.{History};
ghost use Rattle.cv_pack.specs.declared.field.Field.TheVariants as fields;
ghost use Rattle.cv_pack.specs.declared.field.Mark.TheVariants.{FormatLetter};
ghost use Rattle.cv_pack.specs.declared.header_reader.TheConstants.{HEADER_LIMIT};
ghost use Rattle.cv_pack.specs.declared.pack_fault.PackFault.TheVariants.{BadHeader};
ghost use Rattle.cv_pack.specs.Pack.{total_size};
ghost use Rattle.cv_pack.specs.Reading.{id_from};

use crate::digits::{ended, is_hash_digit, limited, with_digit};
use crate::entries::Entries;
use crate::entry::Entry;
use crate::field::{Field, Mark};
use crate::pack_fault::PackFault;
use cv_base::{DIGEST_DIGITS, Kind, OBJECT_LIMIT, ObjectId};
use hex::FromHex;
use std::alloc::Global;
use std::marker::Model;

/// The most bytes of a header.
pub const HEADER_LIMIT: u64 = 1_048_576;

/// The most bytes of all contents of a pack.
pub const TOTAL_LIMIT: u32 = 33_554_432;

/// The most objects of a pack.
pub const COUNT_LIMIT: u32 = 10_000;

/// The offset of the line of the total.
const TOTAL_LINE: u64 = 3;

/// A header as far as it was read.
#[derive(Drop)]
pub struct HeaderReader {
    /// What comes next.
    field: Field,
    /// The total that the header says.
    total: u32,
    /// The lines of objects that are still to come, after the one that was begun.
    left: u32,
    /// The lines that were read.
    entries: Entries,
    /// The digits of the hash that is being read.
    digits: Vec<u8>,
    /// The offset of the line that is being read.
    line: u64,
    /// The offset of what comes next.
    at: u64,
}

impl Model for HeaderReader {
    ghost use Rattle.cv_pack.specs.HeaderState.{Begun};

    ghost Value = { Begun };

    ghost use Rattle.cv_pack.specs.HeaderReaderInner.{begun_of, IsBegun};

    ghost view = { begun_of };

    ghost invariant = { IsBegun };
}

/// The sum of the sizes.
fn sum_of_sizes(entries: &[Entry]) -> u64
    requires { length entries.now ≤ HEADER_LIMIT }
    ensures { result ≡ total_size entries.now }
{
    let mut sum = 0;
    for entry in entries {
        sum += u64::from(entry.size);
    }
    sum
}

impl HeaderReader {
    ghost use Rattle.cv_pack.specs.HeaderStateInner.{Leads, LeadsAfterHash, Begins, Takes, TakesPart};

    /// Nothing was read.
    pub fn new(alloc: Global) -> HeaderReader
        ensures field { result.field ≡ fields.Mark FormatLetter }
        ensures entries { result.entries ≡ [] }
        ensures line { result.line ≡ 0 }
        ensures at { result.at ≡ 0 }
    {
        HeaderReader {
            field: Field::Mark(Mark::FormatLetter),
            total: 0,
            left: 0,
            entries: Entries::new(alloc),
            digits: Vec::new(alloc),
            line: 0,
            at: 0,
        }
    }

    /// Whether the header was read to its end.
    pub fn is_whole(&self) -> bool
        ensures whole { IsTrue result ↔ (self.now.field ≡ fields.Whole) }
    {
        matches!(self.field, Field::Whole)
    }

    /// The lines that were read, of which there is at most one a byte of a header.
    pub fn entries(&self) -> &[Entry]
        ensures entries { result.now ≡ self.now.entries }
        ensures few { length result.now ≤ HEADER_LIMIT }
    {
        self.entries.as_slice()
    }

    /// How many bytes were read.
    pub fn length(&self) -> u64
        ensures { result ≡ self.now.at }
    {
        self.at
    }

    /// Begins the line of the next object, if there is one.
    fn begin_line(&mut self) -> Result<Field, PackFault>
        ensures begins { Begins self.old self.new result }
        ensures line { self.new.line ≡ self.old.line }
        ensures at { self.new.at ≡ self.old.at }
    {
        if self.left > 0 {
            self.left -= 1;
            self.digits.clear();
            return Ok(Field::Mark(Mark::LineLetter));
        }
        if sum_of_sizes(self.entries.as_slice()) != u64::from(self.total) {
            return Err(PackFault::BadHeader(TOTAL_LINE));
        }
        Ok(Field::Whole)
    }

    /// Takes a byte that is to be this one, which leads to this field.
    fn take_fixed(&self, byte: u8, expected: u8, next: Field) -> Result<Field, PackFault>
        ensures { result ≡ (if byte == expected then Ok next else Err (BadHeader self.now.line)) }
    {
        if byte == expected {
            Ok(next)
        } else {
            Err(PackFault::BadHeader(self.line))
        }
    }

    /// Takes a byte in place of a digit of the total.
    fn take_in_total(&mut self, so_far: Option<u32>, byte: u8) -> Result<Field, PackFault>
        ensures leads { Leads self.old self.new (fields.Total so_far) byte result }
        ensures line { self.new.line ≡ self.old.line }
        ensures at { self.new.at ≡ self.old.at }
    {
        if byte == b'\n' {
            self.total = ended(self.line, so_far)?;
            return Ok(Field::Mark(Mark::CountLetter));
        }
        let total = limited(
            self.line,
            TOTAL_LIMIT,
            PackFault::TooLarge,
            with_digit(so_far, byte),
        )?;
        Ok(Field::Total(Some(total)))
    }

    /// Takes a byte in place of a digit of the count.
    fn take_in_count(&mut self, so_far: Option<u32>, byte: u8) -> Result<Field, PackFault>
        ensures leads { Leads self.old self.new (fields.Count so_far) byte result }
        ensures line { self.new.line ≡ self.old.line }
        ensures at { self.new.at ≡ self.old.at }
    {
        if byte == b'\n' {
            self.left = ended(self.line, so_far)?;
            return Ok(Field::Mark(Mark::FirstDash));
        }
        let count = limited(
            self.line,
            COUNT_LIMIT,
            PackFault::TooMany,
            with_digit(so_far, byte),
        )?;
        Ok(Field::Count(Some(count)))
    }

    /// Takes a byte of the hash, or the byte after its digits.
    fn take_in_hash(&mut self, byte: u8) -> Result<Field, PackFault>
        ensures leads { Leads self.old self.new fields.Hash byte result }
        ensures line { self.new.line ≡ self.old.line }
        ensures at { self.new.at ≡ self.old.at }
    {
        if self.digits.len() >= DIGEST_DIGITS {
            return self.take_after_hash(byte);
        }
        if !is_hash_digit(byte) {
            return Err(PackFault::BadHeader(self.line));
        }
        self.digits.push(byte)?;
        Ok(Field::Hash)
    }

    /// The id of the digits that were read and this kind, which no line before has.
    fn fresh_id(&self, kind: Kind) -> Result<ObjectId, PackFault>
        requires kind { kind ≢ History }
        ensures id { result ≡ id_from self.now.entries self.now.line kind self.now.digits }
        ensures of_kind { IfOk result (λ id. id.kind ≡ kind) }
    {
        let Ok(hash) = <[u8; 20] as FromHex>::from_hex(self.digits.as_slice()) else {
            return Err(PackFault::BadHeader(self.line));
        };
        let id = ObjectId { hash, kind };
        if self.entries.has(&id) {
            return Err(PackFault::Duplicate(self.entries.as_slice().len() as u32));
        }
        Ok(id)
    }

    /// Takes the byte after the digits of a hash.
    fn take_after_hash(&self, byte: u8) -> Result<Field, PackFault>
        ensures leads { LeadsAfterHash self.now byte result }
    {
        match byte {
            b' ' => Ok(Field::Size(self.fresh_id(Kind::Plain)?, None)),
            b'C' => Ok(Field::SizeBlank(self.fresh_id(Kind::Catalogue)?)),
            _ => Err(PackFault::BadHeader(self.line)),
        }
    }

    /// Takes a byte in place of a digit of the size.
    fn take_in_size(
        &mut self,
        id: ObjectId,
        so_far: Option<u32>,
        byte: u8,
    ) -> Result<Field, PackFault>
        requires more { length self.old.entries < self.old.at }
        ensures leads { Leads self.old self.new (fields.Size id so_far) byte result }
        ensures line { self.new.line ≡ self.old.line }
        ensures at { self.new.at ≡ self.old.at }
    {
        if byte == b'\n' {
            let size = ended(self.line, so_far)?;
            self.entries.push(Entry { id, size })?;
            return self.begin_line();
        }
        let size = limited(
            self.line,
            OBJECT_LIMIT as u32,
            PackFault::TooLarge,
            with_digit(so_far, byte),
        )?;
        Ok(Field::Size(id, Some(size)))
    }

    /// Takes a byte in place of the next field.
    fn take_field(&mut self, byte: u8) -> Result<Field, PackFault>
        requires unfinished { self.old.field ≢ fields.Whole }
        requires more { length self.old.entries < self.old.at }
        ensures leads { Leads self.old self.new self.old.field byte result }
        ensures line { self.new.line ≡ self.old.line }
        ensures at { self.new.at ≡ self.old.at }
    {
        match self.field {
            Field::Mark(mark) => self.take_fixed(byte, mark.byte(), mark.next()),
            Field::Total(so_far) => self.take_in_total(so_far, byte),
            Field::Count(so_far) => self.take_in_count(so_far, byte),
            Field::DashesEnd if byte == b'\n' => self.begin_line(),
            Field::Hash => self.take_in_hash(byte),
            Field::SizeBlank(id) => self.take_fixed(byte, b' ', Field::Size(id, None)),
            Field::Size(id, so_far) => self.take_in_size(id, so_far, byte),
            Field::DashesEnd | Field::Whole => Err(PackFault::BadHeader(self.line)),
        }
    }

    /// Takes the next byte. After an error nothing is said of what is left.
    fn take(&mut self, byte: u8) -> Result<(), PackFault>
        requires { self.old.field ≢ fields.Whole }
        ensures takes { Takes self.old self.new (byte ∷ []) result }
        ensures at { OnOk result (self.new.at ≡ self.old.at + 1) }
    {
        if self.at >= HEADER_LIMIT {
            return Err(PackFault::BadHeader(0));
        }
        self.at += 1;
        self.field = self.take_field(byte)?;
        if byte == b'\n' {
            self.line = self.at;
        }
        Ok(())
    }

    /// Takes the bytes of a piece that belong to the header, and says how many they are. After an
    /// error nothing is said of what is left.
    pub fn read(&mut self, piece: &[u8]) -> Result<usize, PackFault>
        ensures takes { TakesPart self.old self.new piece.now result }
        ensures at { IfOk result (λ used. self.new.at ≡ self.old.at + used) }
        ensures whole { self.old.field ≡ fields.Whole → (result ≡ Ok 0) × (self.new ≡ self.old) }
    {
        let mut used = 0;
        while used < piece.len() && !self.is_whole() {
            self.take(piece[used])?;
            used += 1;
        }
        Ok(used)
    }
}
