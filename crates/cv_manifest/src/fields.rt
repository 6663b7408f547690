//! The fields that were read.
ghost use Rattle.std.specs.Prelude.{◌≡◌, ◌∷◌, [], ℕ, List, IfOk, IfErr, OnOk, MatchResult};
ghost use Rattle.std.specs.List.{AllByRecursion};
ghost use Rattle.cv_manifest.specs.Lines.{ended, IsLine};
ghost use Rattle.cv_manifest.specs.PutInner.{put_into};

use crate::field::Field;
use crate::head::Head;
use crate::line::split_line;
use crate::manifest::Manifest;
use crate::manifest_fault::ManifestFault;
use crate::values::{read_hash, read_name, read_number, read_root_key};
use cv_base::{LAST_TIME, Name};
use std::alloc::Global;

/// The fields of a manifest that were read so far.
#[derive(Drop)]
pub struct Fields {
    root: Option<[u8; 20]>,
    size: Option<u64>,
    root_key: Option<()>,
    time_to_live: Option<u64>,
    revision: Option<u64>,
    name: Option<Name>,
    history: Option<[u8; 20]>,
    time: Option<u64>,
}

/// Puts what the line of this number gives into the place of its field.
fn put<T: Drop>(
    place: &mut Option<T>,
    value: Option<T>,
    field: Field,
    line: usize,
) -> Result<(), ManifestFault>
    ensures answer { result ≡ put_into place.old value field line }
    ensures put { OnOk result (place.new ≡ value) }
{
    if value.is_none() {
        return Err(ManifestFault::BadLine(line));
    }
    if place.is_some() {
        return Err(ManifestFault::Repeated(field.letter()));
    }
    *place = value;
    Ok(())
}

impl Fields {
    ghost use Rattle.cv_manifest.specs.FieldsInner.{texts, Takes, Refuses, TakesLine, RefusesLine, HaveFields, ShowFault, LacksField};
    ghost use Rattle.cv_manifest.specs.Manifest.{value_of, InRange};

    /// No fields.
    fn new() -> Fields
        ensures { (field : _) → texts result field ≡ [] }
    {
        Fields {
            root: None,
            size: None,
            root_key: None,
            time_to_live: None,
            revision: None,
            name: None,
            history: None,
            time: None,
        }
    }

    /// Takes the value that the line of this number gives a field.
    fn take(
        &mut self,
        alloc: Global,
        field: Field,
        value: &[u8],
        line: usize,
    ) -> Result<(), ManifestFault>
        ensures taken { OnOk result (Takes self.old self.new field value.now) }
        ensures refused { IfErr result (λ fault. Refuses self.old field value.now line fault) }
    {
        match field {
            Field::Root => put(&mut self.root, read_hash(value), field, line),
            Field::Size => put(&mut self.size, read_number(value, 0, u64::MAX), field, line),
            Field::RootKey => put(&mut self.root_key, read_root_key(value), field, line),
            Field::TimeToLive => put(
                &mut self.time_to_live,
                read_number(value, 0, u64::MAX),
                field,
                line,
            ),
            Field::Revision => put(
                &mut self.revision,
                read_number(value, 1, u64::MAX),
                field,
                line,
            ),
            Field::Name => {
                let name = read_name(alloc, value)?;
                put(&mut self.name, name, field, line)
            }
            Field::History => put(&mut self.history, read_hash(value), field, line),
            Field::Time => put(
                &mut self.time,
                read_number(value, 0, LAST_TIME),
                field,
                line,
            ),
        }
    }

    /// Takes the line of this number.
    fn take_line(&mut self, alloc: Global, line: &[u8], number: usize) -> Result<(), ManifestFault>
        ensures taken { OnOk result (TakesLine self.old self.new line.now) }
        ensures refused { IfErr result (λ fault. RefusesLine self.old line.now number fault) }
    {
        let Some((letter, value)) = line.split_first() else {
            return Err(ManifestFault::BadLine(number));
        };
        match Field::of_letter(*letter) {
            Some(field) => self.take(alloc, field, value, number),
            None => Ok(()),
        }
    }

    /// The fields of lines, each of which ends with a newline.
    pub fn read(alloc: Global, lines: &[u8]) -> Result<Fields, ManifestFault>
        ensures { (list : List (List ℕ)) → AllByRecursion IsLine list → lines.now ≡ ended list
            → MatchResult result (λ fields. HaveFields list fields) (λ fault. ShowFault list fault) }
    {
        let mut fields = Fields::new();
        let mut rest = lines;
        let mut number = 0;
        while let Some((line, after)) = split_line(rest) {
            number += 1;
            fields.take_line(alloc, line, number)?;
            rest = after;
        }
        Ok(fields)
    }

    /// The manifest of these fields.
    pub fn into_manifest(self) -> Result<Manifest, ManifestFault>
        ensures value { IfOk result (λ m. (field : _) → texts self field ≡ value_of m field ∷ []) }
        ensures in_range { IfOk result (λ m. InRange m) }
        ensures missing { IfErr result (λ fault. LacksField self fault) }
    {
        let Fields {
            root,
            size,
            root_key,
            time_to_live,
            revision,
            name,
            history,
            time,
        } = self;
        let Some(root) = root else {
            return Err(ManifestFault::Missing(Field::Root.letter()));
        };
        let Some(size) = size else {
            return Err(ManifestFault::Missing(Field::Size.letter()));
        };
        let Some(()) = root_key else {
            return Err(ManifestFault::Missing(Field::RootKey.letter()));
        };
        let Some(ttl) = time_to_live else {
            return Err(ManifestFault::Missing(Field::TimeToLive.letter()));
        };
        let Some(revision) = revision else {
            return Err(ManifestFault::Missing(Field::Revision.letter()));
        };
        let Some(name) = name else {
            return Err(ManifestFault::Missing(Field::Name.letter()));
        };
        let Some(history) = history else {
            return Err(ManifestFault::Missing(Field::History.letter()));
        };
        let Some(time) = time else {
            return Err(ManifestFault::Missing(Field::Time.letter()));
        };
        let head = Head {
            revision,
            root,
            size,
            history,
            time,
        };
        Ok(Manifest { name, ttl, head })
    }
}
