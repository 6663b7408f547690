//! Catalogues.
ghost use Rattle.std.specs.Prelude.{◌≡◌, ◌≢◌, ◌++◌, true, false, IfOk, IfErr, IfSome, OnOk, Ok, Err, None, MatchOption, Contains, filter, map};
ghost use Rattle.cv_base.specs.Marker.{marker, ends_in};
ghost use Rattle.cv_base.specs.Digest.{IsDigest};
ghost use Rattle.cv_base.specs.Path.{covers};
ghost use Rattle.cv_base.specs.Unless.{IsUnless};
ghost use Rattle.cv_rows.specs.declared.row_fault.RowFault.TheVariants as row_fault;

use crate::children::{children_of, rows_below};
use crate::covered::{copy_nested, copy_rows, covered_keys, drop_nested, drop_rows};
use crate::judging::{extend, judge};
use crate::nested::Nested;
use crate::nested_list::{nested_position, position_above};
use crate::order::{nested_by_text, rows_by_key};
use crate::places::{path_at, places_of, position, root_position, stands_at};
use crate::renewing::renew_entry;
use crate::row::Row;
use crate::row_fault::RowFault;
use crate::with_fault::WithFault;
use crate::{rules, write};
use cv_base::{NoMemory, PathKey, RepoPath};
use std::alloc::Global;
use std::marker::Model;

/// The catalogue of the cut at a path: a row for each path of its region, and an entry for each
/// catalogue nested in it. Rows are in ascending order of key, nested entries in ascending order of the
/// texts of their paths.
#[derive(Debug, Drop)]
pub struct Catalogue {
    at: RepoPath,
    rows: Vec<Row>,
    nested: Vec<Nested>,
}

impl Model for Catalogue {
    ghost use Rattle.cv_rows.specs.Catalogue.{Contents, IsCatalogue};

    ghost Value = { Contents };

    ghost view = { λ c. record { at = c.at; rows = c.rows.items; nested = c.nested.items } };

    ghost invariant = { λ c. IsCatalogue (record { at = c.at; rows = c.rows.items; nested = c.nested.items }) };
}

impl Catalogue {
    ghost use Rattle.cv_rows.specs.Catalogue.{Contents, IsCatalogue, IsRegion, catalogue_bytes, is_below};
    ghost use Rattle.cv_rows.specs.Faults.{IsFirstFault};
    ghost use Rattle.cv_rows.specs.Made.{AreParts, AreApart, IsTwice, PassesLimit, keys_of, texts_of, in_order};
    ghost use Rattle.cv_rows.specs.Row.{IsRow};
    ghost use Rattle.cv_rows.specs.Nested.{IsNested};
    ghost use Rattle.std.specs.List.{AllByRecursion};
    ghost use Rattle.cv_rows.specs.Listing.{IsListing};
    ghost use Rattle.cv_rows.specs.Places.{IsRoot, StandsAt, StandEach};
    ghost use Rattle.cv_rows.specs.Renewed.{renewed};
    ghost use Rattle.cv_rows.specs.Toward.{IsAbove};
    ghost use Rattle.cv_rows.specs.Within.{IsWithin};
    ghost use Rattle.cv_rows.specs.Without.{IsWithout};
    ghost use Rattle.cv_rows.specs.declared.row.Row.{Row as TheRow};
    ghost use Rattle.cv_rows.specs.declared.nested.Nested.{Nested as TheNested};
    ghost use Rattle.cv_rows.specs.declared.with_fault.WithFault.TheVariants as fault;
    ghost use Rattle.cv_base.specs.declared.path_key.PathKey.{PathKey as ThePathKey};

    /// The catalogue at a path whose row file these bytes are. Else the first fault, in this order: too
    /// many bytes or rows, the format's name, the fields from the first byte on, bytes that follow,
    /// the order, orphans, keys, markers, the list of nested entries.
    pub fn decode(alloc: Global, bytes: &[u8], at: &RepoPath) -> Result<Catalogue, RowFault>
        ensures found { IfOk result (λ c. (c.at ≡ at.now) × IsCatalogue c × (bytes.now ≡ catalogue_bytes c)) }

        // Each row file of a catalogue there is read as that catalogue.
        ensures only { (c : Contents) → IsCatalogue c → c.at ≡ at.now → bytes.now ≡ catalogue_bytes c
            → IsUnless row_fault.NoMemory result (Ok c) }
        ensures fault { IfErr result (IsFirstFault bytes.now at.now) }
    {
        match rules::read(alloc, bytes, at) {
            Ok((rows, nested)) => Ok(Catalogue {
                at: at.copy(alloc)?,
                rows,
                nested,
            }),
            Err(fault) => Err(fault),
        }
    }

    /// The catalogue of the cut at a path, of all its rows, the root row among them, and all its nested entries. Both may
    /// stand in any order. Collision names a key that two rows have. Full says that no two have one, but that there are more
    /// rows or bytes than a row file may have.
    pub fn of(
        alloc: Global,
        at: &RepoPath,
        rows: Vec<Row>,
        nested: Vec<Nested>,
    ) -> Result<Catalogue, WithFault>
        requires { AreParts at.now rows.items nested.items }
        ensures rules { IfOk result IsCatalogue }
        ensures made { IfOk result (λ c. c ≡ in_order at.now rows.items nested.items) }
        ensures apart { IfOk result (λ c. AreApart (keys_of rows.items)) }
        ensures fits { IfOk result (λ c. PassesLimit rows.items nested.items → ⊥) }
        ensures collision { (key : ThePathKey) → result ≡ Err (fault.Collision key) → IsTwice (keys_of rows.items) key.0 }
        ensures full { result ≡ Err fault.Full → AreApart (keys_of rows.items) × PassesLimit rows.items nested.items }
    {
        let at = at.copy(alloc)?;
        match judge(alloc, &rows, &nested) {
            Ok(()) => Ok(Catalogue {
                at,
                rows: rows_by_key(rows),
                nested: nested_by_text(nested),
            }),
            Err(fault) => Err(fault),
        }
    }

    /// The catalogue with more rows and nested entries, in any order. The faults are those of `of`, for all rows and nested
    /// entries together. After one the catalogue comes back as it was.
    pub fn with(
        self,
        alloc: Global,
        rows: Vec<Row>,
        nested: Vec<Nested>,
    ) -> Result<Catalogue, (Catalogue, WithFault)>
        requires { AreParts self.at (self.rows ++ rows.items) (self.nested ++ nested.items) }
        ensures rules { IfOk result IsCatalogue }
        ensures made { IfOk result (λ c. c ≡ in_order self.at (self.rows ++ rows.items) (self.nested ++ nested.items)) }
        ensures apart { IfOk result (λ c. AreApart (keys_of (self.rows ++ rows.items))) }
        ensures fits { IfOk result (λ c. PassesLimit (self.rows ++ rows.items) (self.nested ++ nested.items) → ⊥) }
        ensures unchanged { IfErr result (λ back. back.0 ≡ self) }
        ensures collision { (key : ThePathKey) → IfErr result (λ back. back.1 ≡ fault.Collision key → IsTwice (keys_of (self.rows ++ rows.items)) key.0) }
        ensures full { IfErr result (λ back. back.1 ≡ fault.Full → AreApart (keys_of (self.rows ++ rows.items)) × PassesLimit (self.rows ++ rows.items) (self.nested ++ nested.items)) }
    {
        let Catalogue {
            at,
            rows: mut all_rows,
            nested: mut all_nested,
        } = self;
        let row_count = all_rows.len();
        let nested_count = all_nested.len();
        match extend(alloc, &mut all_rows, &mut all_nested, rows, nested) {
            Ok(()) => Ok(Catalogue {
                at,
                rows: rows_by_key(all_rows),
                nested: nested_by_text(all_nested),
            }),
            Err(fault) => {
                all_rows.truncate(row_count);
                all_nested.truncate(nested_count);
                let catalogue = Catalogue {
                    at,
                    rows: all_rows,
                    nested: all_nested,
                };
                Err((catalogue, fault))
            }
        }
    }

    /// The catalogue with more rows and nested entries, in any order, of which it isn't known that all together keep the rules
    /// of a catalogue: they are checked, and there is none just where they don't. The faults are those of `of`.
    pub fn with_checked(
        self,
        alloc: Global,
        rows: Vec<Row>,
        nested: Vec<Nested>,
    ) -> Result<Option<Catalogue>, WithFault>
        requires spelled { AllByRecursion IsRow rows.items }
        requires nested_spelled { AllByRecursion IsNested nested.items }
        requires texts { AreApart (texts_of (self.nested ++ nested.items)) }
        ensures rules { IfOk result (λ found. IfSome found IsCatalogue) }
        ensures none { IfOk result (λ found. found ≡ None → IsRegion self.at (self.rows ++ rows.items) (self.nested ++ nested.items) → ⊥) }
        ensures made { IfOk result (λ found. IfSome found (λ c. c ≡ in_order self.at (self.rows ++ rows.items) (self.nested ++ nested.items))) }
        ensures apart { OnOk result (AreApart (keys_of (self.rows ++ rows.items))) }
        ensures fits { OnOk result (PassesLimit (self.rows ++ rows.items) (self.nested ++ nested.items) → ⊥) }
        ensures collision { (key : ThePathKey) → result ≡ Err (fault.Collision key) → IsTwice (keys_of (self.rows ++ rows.items)) key.0 }
        ensures full { result ≡ Err fault.Full → AreApart (keys_of (self.rows ++ rows.items)) × PassesLimit (self.rows ++ rows.items) (self.nested ++ nested.items) }
    {
        let Catalogue {
            at,
            rows: mut all_rows,
            nested: mut all_nested,
        } = self;
        extend(alloc, &mut all_rows, &mut all_nested, rows, nested)?;
        let rows = rows_by_key(all_rows);
        let nested = nested_by_text(all_nested);
        match rules::check(alloc, &at, &rows, &nested) {
            Ok(()) => Ok(Some(Catalogue { at, rows, nested })),
            Err(fault) => {
                fault.unless_memory()?;
                Ok(None)
            }
        }
    }

    /// The catalogue without the rows that stand at or below a path, and without the nested entries there. The path lies below
    /// the catalogue's own place, and doesn't end in the marker's name. Where there is no memory the catalogue comes back as
    /// it was.
    pub fn without(self, alloc: Global, path: &RepoPath) -> Result<Catalogue, (Catalogue, NoMemory)>
        requires below { covers self.at path.now ≡ true }
        requires apart { path.now ≢ self.at }
        requires unmarked { ends_in marker path.now ≡ false }
        ensures rules { IfOk result IsCatalogue }
        ensures left { IfOk result (IsWithout self path.now) }
        ensures unchanged { IfErr result (λ back. back.0 ≡ self) }
    {
        match covered_keys(alloc, &self.at, &self.rows, path) {
            Ok(covered) => {
                let Catalogue {
                    at,
                    mut rows,
                    mut nested,
                } = self;
                drop_rows(&mut rows, &covered);
                drop_nested(&mut nested, path);
                Ok(Catalogue { at, rows, nested })
            }
            Err(NoMemory) => Err((self, NoMemory)),
        }
    }

    /// Equal rows of those that stand at or below a path, and equal nested entries of those there.
    pub fn within(
        &self,
        alloc: Global,
        path: &RepoPath,
    ) -> Result<(Vec<Row>, Vec<Nested>), NoMemory>
        ensures { IfOk result (λ found. IsWithin self.now path.now found.0.items found.1.items) }
    {
        let covered = covered_keys(alloc, &self.at, &self.rows, path)?;
        let rows = copy_rows(alloc, &self.rows, &covered)?;
        let nested = copy_nested(alloc, &self.nested, path)?;
        Ok((rows, nested))
    }

    /// The path of the catalogue's cut.
    pub fn at(&self) -> &RepoPath
        ensures { result.now ≡ self.now.at }
    {
        &self.at
    }

    /// The root row: that of the cut itself.
    pub fn root(&self) -> &Row
        ensures { Contains self.now.rows result.now × IsRoot self.now.at result.now }
    {
        match root_position(&self.at, &self.rows) {
            Some(row) => &self.rows[row],
            None => unreachable!("a catalogue has a root row"),
        }
    }

    /// The path of each row, in the order of the rows.
    pub fn places(&self, alloc: Global) -> Result<Vec<RepoPath>, NoMemory>
        ensures { IfOk result (λ paths. StandEach self.now.at self.now.rows self.now.rows paths.items) }
    {
        places_of(alloc, &self.at, &self.rows)
    }

    /// Equal rows of those that stand directly in the directory at a path, in ascending order of key. The root row isn't among
    /// them, since its directory is that of another catalogue. Where no row stands at the path there are none.
    pub fn rows_in(&self, alloc: Global, path: &RepoPath) -> Result<Vec<Row>, NoMemory>
        ensures { IfOk result (λ rows. IsListing self.now path.now rows.items) }
    {
        match self.row_at(path) {
            Some(directory) => { rows_below(alloc, &self.rows, &directory.key.0, &self.at.key().0) }
            None => Ok(Vec::new(alloc)),
        }
    }

    /// The path at which a row of the catalogue stands.
    pub fn path_of(&self, alloc: Global, row: &Row) -> Result<RepoPath, NoMemory>
        requires { Contains self.now.rows row.now }
        ensures { IfOk result (StandsAt self.now.at self.now.rows row.now) }
    {
        let Some(place) = position(&self.rows, &row.key.0) else {
            unreachable!("the row is there");
        };
        path_at(alloc, &self.at, &self.rows, place)
    }

    /// Gives the nested entry of a path another hash and size. The catalogue has as many bytes as before.
    pub fn renew(&mut self, path: &RepoPath, hash: [u8; 20], size: u64)
        requires { IsDigest hash }
        ensures renewed { self.new ≡ record self.old { nested = map (renewed path.now hash size) self.old.nested } }
        ensures rules { IsCatalogue self.new }
    {
        renew_entry(&mut self.nested, path, hash, size);
    }

    /// The row with this key.
    pub fn find(&self, key: PathKey) -> Option<&Row>
        ensures { MatchOption result
            ((r : TheRow) → Contains self.now.rows r → r.key.0 ≢ key.0)
            (λ row. Contains self.now.rows row.now × (row.now.key.0 ≡ key.0)) }
    {
        match position(&self.rows, &key.0) {
            Some(row) => Some(&self.rows[row]),
            None => None,
        }
    }

    /// The row that stands at a path. It takes no memory.
    pub fn row_at(&self, path: &RepoPath) -> Option<&Row>
        ensures rules { IsCatalogue self.now }
        ensures row { MatchOption result
            ((r : TheRow) → StandsAt self.now.at self.now.rows r path.now → ⊥)
            (λ row. StandsAt self.now.at self.now.rows row.now path.now) }
    {
        let Some(root) = root_position(&self.at, &self.rows) else {
            return None;
        };
        let Some(row) = position(&self.rows, &path.key().0) else {
            return None;
        };
        if stands_at(&self.at, &self.rows, root, row, path.names()) {
            Some(&self.rows[row])
        } else {
            None
        }
    }

    /// The rows that have this key as their parent key, but not the row of the key itself, in ascending
    /// order of key.
    pub fn children(&self, alloc: Global, key: PathKey) -> Result<Vec<Row>, NoMemory>
        ensures { IfOk result (λ rows. rows.items ≡ filter (λ r. is_below r key.0) self.now.rows) }
    {
        children_of(alloc, &self.rows, &key.0)
    }

    /// The rows, in ascending order of key.
    pub fn rows(&self) -> &[Row]
        ensures rows { result.now ≡ self.now.rows }
        ensures rules { IsCatalogue self.now }
    {
        &self.rows
    }

    /// The nested entries, in ascending order of the texts of their paths.
    pub fn nested(&self) -> &[Nested]
        ensures { result.now ≡ self.now.nested }
    {
        &self.nested
    }

    /// The nested entry of a path.
    pub fn entry_at(&self, path: &RepoPath) -> Option<&Nested>
        ensures rules { IsCatalogue self.now }
        ensures entry { MatchOption result
            ((n : TheNested) → Contains self.now.nested n → n.path ≢ path.now)
            (λ entry. Contains self.now.nested entry.now × (entry.now.path ≡ path.now)) }
    {
        match nested_position(&self.nested, path) {
            Some(entry) => Some(&self.nested[entry]),
            None => None,
        }
    }

    /// The nested entry whose path is properly above this one: that of the next cut on the way to the path.
    pub fn toward(&self, path: &RepoPath) -> Option<&Nested>
        ensures rules { IsCatalogue self.now }
        ensures entry { MatchOption result
            ((n : TheNested) → Contains self.now.nested n → IsAbove n.path path.now → ⊥)
            (λ entry. Contains self.now.nested entry.now × IsAbove entry.now.path path.now) }
    {
        match position_above(&self.nested, path) {
            Some(entry) => Some(&self.nested[entry]),
            None => None,
        }
    }

    /// The bytes of the catalogue's row file.
    pub fn encode(&self, alloc: Global) -> Result<Vec<u8>, NoMemory>
        ensures bytes { IfOk result (λ bytes. bytes.items ≡ catalogue_bytes self.now) }
        ensures rules { IsCatalogue self.now }
    {
        write::catalogue(alloc, &self.rows, &self.nested)
    }
}
