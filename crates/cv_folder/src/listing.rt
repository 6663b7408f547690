//! The names below a folder.
ghost use Rattle.std.specs.Prelude.{◌≡◌, ◌==◌, ◌↔◌, ◌⊎◌, ◌++◌, ◌∷◌, [], ℕ, List, IfOk, IfErr, IfSome, IsOk, IsSome, Err, string_bytes};
ghost use Rattle.std.specs.List.{All, Contains, starts_with};
ghost use Rattle.std.specs.List.Sorted.{IsStrictlySortedBy};
ghost use Rattle.cv_base.specs.Path.{same_name, with_slash};
ghost use Rattle.cv_base.specs.BytesOrder.{bytes_cmp};
ghost use Rattle.cv_folder.specs.Listed.{AllBegin, FailsListing, IsListed, IsListing, ListsFiles};
ghost use Rattle.cv_folder.specs.ListedInner.{AddsFolder, AddsName, AddsSeen, GoesOrEnds, ListsOn, StandsHere};
ghost use Rattle.cv_system.specs.Calls.{IsWant, cause_of};
ghost use Rattle.cv_system.specs.Names.{stands_at};
ghost use Rattle.cv_system.specs.Passed.{HidesNoName};
ghost use Rattle.cv_system.specs.Steps.{Makes};

use crate::noting::{no_memory, own_text};
use cv_base::Text;
use cv_system::looks::{hides_no_name, seen};
use cv_system::{NAMES_ROOM, Seen, System, cut_name, has_no_slash, is_name, way_at, way_part};
use std::alloc::Global;
use std::cmp::Ordering;
use std::io;
use std::io::ErrorKind;

/// Whether a name begins with a prefix.
fn begins(name: &str, prefix: &str) -> bool
    ensures { result ≡ starts_with (λ a b. a == b) name.now prefix.now }
{
    name.as_bytes().starts_with(prefix.as_bytes())
}

/// How two texts are ordered by their bytes.
fn text_order(one: &Text, other: &Text) -> Ordering
    ensures { result ≡ bytes_cmp one.now other.now }
{
    one.as_str().cmp(other.as_str())
}

/// Whether two texts have the same bytes.
fn is_same_text(one: &mut Text, other: &mut Text) -> bool
    ensures same { result ≡ same_name one.old other.old }
    ensures one { one.new ≡ one.old }
    ensures other { other.new ≡ other.old }
{
    matches!(text_order(one, other), Ordering::Equal)
}

/// These texts in ascending order of their bytes, each once.
fn in_order(found: Vec<Text>) -> Vec<Text>
    ensures ascending { IsStrictlySortedBy bytes_cmp result.items }
    ensures same { (text : List ℕ) → Contains result.items text ↔ Contains found.items text }
{
    let mut texts = found;
    texts.sort_unstable_by(text_order);
    texts.dedup_by(is_same_text);
    texts
}

/// One text and another behind it.
fn joined(alloc: Global, one: &str, other: &str) -> io::Result<String>
    ensures text { IfOk result (λ text. string_bytes text ≡ one.now ++ other.now) }
    ensures memory { IfErr result (λ error. IsWant (cause_of error)) }
{
    let mut text = own_text(alloc, one)?;
    match text.push_str(other) {
        Ok(()) => Ok(text),
        Err(_) => Err(no_memory()),
    }
}

/// The text that stands at this place below the vault's folder, if one does.
fn text_at(alloc: Global, place: &str) -> io::Result<Option<String>>
    ensures text { IfOk result
        (λ found. IfSome found (λ text. stands_at (string_bytes text) ≡ place.now)) }
    ensures memory { IfErr result (λ error. IsWant (cause_of error)) }
{
    if let Some(part) = way_at(place) {
        return Ok(Some(joined(alloc, "txn/", part)?));
    }
    match way_part(place) {
        Some(_) => Ok(None),
        None => Ok(Some(own_text(alloc, place)?)),
    }
}

/// The name that stands at this place below the vault's folder, if one does that begins with the prefix.
fn name_at(alloc: Global, place: &str, prefix: &str) -> io::Result<Option<String>>
    ensures name { IfOk result
        (λ found. IfSome found (λ name. StandsHere (string_bytes name) place.now)) }
    ensures memory { IfErr result (λ error. IsWant (cause_of error)) }
{
    match text_at(alloc, place)? {
        Some(name) if is_name(name.as_str()) && begins(name.as_str(), prefix) => Ok(Some(name)),
        _ => Ok(None),
    }
}

/// What the names below this place begin with, if names may stand there that begin with the prefix.
fn front_at(alloc: Global, place: &str, prefix: &str) -> io::Result<Option<String>>
    ensures front { IfOk result
        (λ found. IfSome found (λ front. string_bytes front ≡ place.now ++ 47 ∷ [])) }
    ensures memory { IfErr result (λ error. IsWant (cause_of error)) }
{
    let front = joined(alloc, place, "/")?;
    if !is_name(place) || !(begins(place, prefix) || begins(prefix, front.as_str())) {
        return Ok(None);
    }
    Ok(Some(front))
}

/// The room for the names of a folder.
fn names_room(alloc: Global) -> io::Result<Vec<u8>>
    ensures { IfErr result (λ error. IsWant (cause_of error)) }
{
    match vec![in alloc; 0u8; NAMES_ROOM] {
        Ok(names) => Ok(names),
        Err(_) => Err(no_memory()),
    }
}

/// How what was done ends where no name of the vault is behind the error that ended it: well.
fn passed_over(done: io::Result<()>) -> io::Result<()>
    ensures ok { IsOk done → IsOk result }
    ensures passed { IfErr done (λ error. IsOk result ↔ HidesNoName (cause_of error)) }
    ensures fails { IfErr result (λ error. done ≡ Err error) }
{
    match done {
        Err(error) if hides_no_name(&error) => Ok(()),
        done => done,
    }
}

/// A listing as it goes on.
#[derive(Drop)]
struct Listing {
    alloc: Global,
    /// The names that were found, each of which begins with the prefix.
    found: Vec<Text>,
    /// The folders that may hold others, as their names below the root with a slash behind them.
    todo: Vec<String>,
}

/// The names below a root that begin with the prefix, in ascending order of bytes, each once.
pub fn list_files<S: System>(
    system: &mut S,
    alloc: Global,
    root: &str,
    prefix: &str,
) -> io::Result<Vec<Text>>
    ensures listed { IfOk result (λ names. IsListed prefix.now names.items) }
    ensures calls { Makes (IsListing (with_slash root.now)) (S.log system.old) (S.log system.new) }
    ensures saw { IfOk result (λ names. ListsFiles root.now names.items (S.log system.old)
        (S.log system.new)) }
    ensures why { IfErr result (λ error. FailsListing (cause_of error) (S.log system.old)
        (S.log system.new)) }
{
    let top = joined(alloc, root, "/")?;
    let mut listing = Listing::new(alloc)?;
    // Each turn takes one folder of the disk; the bound is never met.
    for _ in 0..u64::MAX {
        let Some(folder) = listing.todo.pop() else {
            return Ok(in_order(listing.found));
        };
        passed_over(listing.list_folder(system, top.as_str(), folder.as_str(), prefix))?;
    }
    Err(io::Error::from(ErrorKind::TimedOut))
}

impl Listing {
    /// A listing that begins with the folder at the front.
    fn new(alloc: Global) -> io::Result<Listing>
        ensures found { IfOk result (λ listing. listing.found.items ≡ []) }
        ensures todo { IfOk result (λ listing. All (λ way. string_bytes way ≡ [])
            listing.todo.items) }
        ensures memory { IfErr result (λ error. IsWant (cause_of error)) }
    {
        let mut todo = Vec::new(alloc);
        let found = Vec::new(alloc);
        match todo.push(String::new(alloc)) {
            Ok(()) => Ok(Listing { alloc, found, todo }),
            Err(_) => Err(no_memory()),
        }
    }

    /// Adds a name, if there is one that begins with the prefix.
    #[tactic(auto, using(crate::proofs::Listed::one_more))]
    fn add(&mut self, name: Option<String>, prefix: &str) -> io::Result<()>
        ensures begin { AllBegin prefix.now self.old.found.items
            → AllBegin prefix.now self.new.found.items }
        ensures added { AddsName name self.old.found.items self.new.found.items }
        ensures todo { self.new.todo.items ≡ self.old.todo.items }
        ensures memory { IfErr result (λ error. IsWant (cause_of error)) }
    {
        let Some(name) = name else {
            return Ok(());
        };
        if !begins(name.as_str(), prefix) {
            return Ok(());
        }
        match self.found.push(Text::new(name)) {
            Ok(()) => Ok(()),
            Err(_) => Err(no_memory()),
        }
    }

    /// Adds a folder that may hold others, by what their names begin with.
    fn add_folder(&mut self, below: Option<String>) -> io::Result<()>
        ensures added { AddsFolder below self.old.todo.items self.new.todo.items }
        ensures found { self.new.found.items ≡ self.old.found.items }
        ensures memory { IfErr result (λ error. IsWant (cause_of error)) }
    {
        let Some(below) = below else {
            return Ok(());
        };
        match self.todo.push(below) {
            Ok(()) => Ok(()),
            Err(_) => Err(no_memory()),
        }
    }

    /// Adds what was seen at a place: a file by the name that stands there, or a folder that may hold others by what their names
    /// begin with.
    fn add_found(
        &mut self,
        found: Option<Seen>,
        name: Option<String>,
        below: Option<String>,
        prefix: &str,
    ) -> io::Result<()>
        ensures begin { AllBegin prefix.now self.old.found.items
            → AllBegin prefix.now self.new.found.items }
        ensures added { AddsSeen found name below self.old.found.items
            self.new.found.items self.old.todo.items self.new.todo.items }
        ensures memory { IfErr result (λ error. IsWant (cause_of error)) }
    {
        let Some(found) = found else {
            return Ok(());
        };
        if found.is_folder() {
            return self.add_folder(below);
        }
        if found.is_file() {
            return self.add(name, prefix);
        }
        Ok(())
    }

    /// Adds what stands in a folder under this name: a file whose name begins with the prefix, or a folder that may hold others.
    /// No text that isn't UTF-8 is a name of the vault.
    fn list_entry<S: System>(
        &mut self,
        system: &mut S,
        front: &str,
        folder: &str,
        bytes: &[u8],
        prefix: &str,
    ) -> io::Result<()>
        ensures begin { AllBegin prefix.now self.old.found.items
            → AllBegin prefix.now self.new.found.items }
        ensures lists { ListsOn front.now folder.now self.old self.new (S.log system.old)
            (S.log system.new) }
        ensures ends { GoesOrEnds result (S.log system.old) (S.log system.new) }
    {
        let Ok(last) = str::from_utf8(bytes) else {
            return Ok(());
        };
        if !has_no_slash(last) {
            return Ok(());
        }
        let place = joined(self.alloc, folder, last)?;
        let name = name_at(self.alloc, place.as_str(), prefix)?;
        let below = front_at(self.alloc, place.as_str(), prefix)?;
        if name.is_none() && below.is_none() {
            return Ok(());
        }
        let path = joined(self.alloc, front, place.as_str())?;
        let found = seen(system, path.as_str())?;
        self.add_found(found, name, below, prefix)
    }

    /// Adds what stands in a folder under each of these names, between which NULs stand.
    fn list_names<S: System>(
        &mut self,
        system: &mut S,
        front: &str,
        folder: &str,
        names: &[u8],
        prefix: &str,
    ) -> io::Result<()>
        ensures begin { AllBegin prefix.now self.old.found.items
            → AllBegin prefix.now self.new.found.items }
        ensures lists { ListsOn front.now folder.now self.old self.new (S.log system.old)
            (S.log system.new) }
        ensures ends { GoesOrEnds result (S.log system.old) (S.log system.new) }
    {
        let mut rest = names;
        while let Some((name, others)) = cut_name(rest) {
            passed_over(self.list_entry(system, front, folder, name, prefix))?;
            rest = others;
        }
        passed_over(self.list_entry(system, front, folder, rest, prefix))
    }

    /// Adds the files of a folder that is open whose names begin with the prefix, and the folders that may hold others.
    fn list_open<S: System>(
        &mut self,
        system: &mut S,
        front: &str,
        folder: &str,
        entered: S::Names,
        prefix: &str,
    ) -> io::Result<()>
        requires { IsSome (S.log system.old) → S.folder entered ≡ front.now ++ folder.now }
        ensures begin { AllBegin prefix.now self.old.found.items
            → AllBegin prefix.now self.new.found.items }
        ensures lists { ListsOn front.now folder.now self.old self.new (S.log system.old)
            (S.log system.new) }
        ensures ends { GoesOrEnds result (S.log system.old) (S.log system.new) }
    {
        let mut entered = entered;
        let mut names = names_room(self.alloc)?;
        // Each turn but the last takes names of the disk; the bound is never met.
        for _ in 0..u64::MAX {
            let count = system.read_names(&mut entered, &mut names)?;
            if count == 0 {
                return Ok(());
            }
            self.list_names(system, front, folder, &names[..count], prefix)?;
        }
        Err(io::Error::from(ErrorKind::TimedOut))
    }

    /// Adds what stands in a folder whose name begins with the prefix, and the folders that may hold others.
    fn list_folder<S: System>(
        &mut self,
        system: &mut S,
        front: &str,
        folder: &str,
        prefix: &str,
    ) -> io::Result<()>
        ensures begin { AllBegin prefix.now self.old.found.items
            → AllBegin prefix.now self.new.found.items }
        ensures lists { ListsOn front.now folder.now self.old self.new (S.log system.old)
            (S.log system.new) }
        ensures ends { GoesOrEnds result (S.log system.old) (S.log system.new) }
    {
        let at = joined(self.alloc, front, folder)?;
        let entered = system.open_names(at.as_str())?;
        self.list_open(system, front, folder, entered, prefix)
    }
}
