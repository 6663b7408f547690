//! A file that gets its name.
ghost use Rattle.std.specs.Prelude.{◌≡◌, [], ◌∷◌, IfErr, IfOk, IsSome, if◌then◌else◌, is_ok};
ghost use Rattle.cv_system.specs.Calls.{Created, Removed, cause_of};
ghost use Rattle.cv_system.specs.Names.{is_way};
ghost use Rattle.cv_folder.specs.FolderVaultInner.{FailsOrRemoves, LooksForOther};
ghost use Rattle.cv_system.specs.Steps.{EndsFailed, Tries};
ghost use Rattle.cv_folder.specs.Writes.{MovesFile, Puts, TriesAnew, named_by, put};

use cv_system::looks::seen;
use cv_system::{Seen, System, is_way};
use std::io;
use std::io::ErrorKind;

/// A new file in place of what an earlier write left at this path.
fn create_again<S: System>(system: &mut S, path: &str) -> io::Result<S::File>
    ensures calls { Tries (Removed path.now ∷ Created path.now ∷ []) (is_ok result)
        (S.log system.old) (S.log system.new) }
    ensures place { IfOk result (λ file. IsSome (S.log system.new) → S.place file ≡ path.now) }
    ensures fails { IfErr result (λ error. EndsFailed (cause_of error) (S.log system.old)
        (S.log system.new)) }
{
    system.remove_file(path)?;
    system.create_new(path)
}

/// A new file, which nobody else has. What an earlier write left at its path goes.
fn create_anew<S: System>(system: &mut S, path: &str) -> io::Result<S::File>
    ensures calls { TriesAnew path.now [] (is_ok result) (S.log system.old) (S.log system.new) }
    ensures place { IfOk result (λ file. IsSome (S.log system.new) → S.place file ≡ path.now) }
    ensures fails { IfErr result (λ error. EndsFailed (cause_of error) (S.log system.old)
        (S.log system.new)) }
{
    match system.create_new(path) {
        Err(error) if error.kind() == ErrorKind::AlreadyExists => create_again(system, path),
        made => made,
    }
}

/// Where the file of a name is made: a way at its own path, and any other beside it.
pub fn made_at<'a>(name: &str, next: &'a str, path: &'a str) -> &'a str
    ensures { result.now ≡ (if is_way name.now then path.now else next.now) }
{
    if is_way(name) { path } else { next }
}

/// Gives a name the file that was written for it. Of a way, which stands at its path, it begins the sync; any other it makes
/// durable first.
fn give_name<S: System>(
    system: &mut S,
    file: S::File,
    name: &str,
    at: &str,
    path: &str,
) -> io::Result<()>
    requires { IsSome (S.log system.old) → S.place file ≡ at.now }
    ensures tries { Tries (named_by name.now at.now path.now) (is_ok result)
        (S.log system.old) (S.log system.new) }
    ensures fails { IfErr result (λ error. EndsFailed (cause_of error) (S.log system.old)
        (S.log system.new)) }
{
    if is_way(name) {
        return system.begin_sync(file);
    }
    system.sync(&file)?;
    system.rename(at, path)
}

/// Writes these bytes to the new file at a path, and gives it to the name whose path is the other.
fn fill<S: System>(
    system: &mut S,
    file: S::File,
    at: &str,
    name: &str,
    path: &str,
    bytes: &[u8],
) -> io::Result<()>
    requires { IsSome (S.log system.old) → S.place file ≡ at.now }
    ensures tries { Tries (put name.now at.now path.now bytes.now) (is_ok result)
        (S.log system.old) (S.log system.new) }
    ensures fails { IfErr result (λ error. EndsFailed (cause_of error) (S.log system.old)
        (S.log system.new)) }
{
    let mut file = file;
    system.write_all(&mut file, bytes)?;
    give_name(system, file, name, at, path)
}

/// Makes a new file with these bytes at a path, and gives it to the name whose path is the other. Where that fails the file that
/// was made goes; where none could be made nothing more is called.
pub fn put_file<S: System>(
    system: &mut S,
    at: &str,
    name: &str,
    path: &str,
    bytes: &[u8],
) -> io::Result<()>
    ensures puts { Puts name.now at.now path.now bytes.now (is_ok result)
        (S.log system.old) (S.log system.new) }
    ensures fails { IfErr result (λ error. FailsOrRemoves at.now (cause_of error)
        (S.log system.old) (S.log system.new)) }
{
    let file = create_anew(system, at)?;
    match fill(system, file, at, name, path, bytes) {
        Ok(()) => Ok(()),
        Err(error) => {
            let _ = system.remove_file(at);
            Err(error)
        }
    }
}

/// Whether a path is another name of a file that was found.
fn is_other_name<S: System>(system: &mut S, found: &Seen, path: &str) -> io::Result<bool>
    ensures { LooksForOther found.now path.now result (S.log system.old) (S.log system.new) }
{
    if found.links <= 1 {
        return Ok(false);
    }
    match seen(system, path)? {
        Some(other) => Ok(found.is_same(&other)),
        None => Ok(false),
    }
}

/// Gives a file another name. Of two names of one file the system's own rename leaves both.
pub fn move_file<S: System>(system: &mut S, from: &str, found: &Seen, to: &str) -> io::Result<()>
    ensures moves { MovesFile from.now to.now found.now (is_ok result) (S.log system.old)
        (S.log system.new) }
    ensures fails { IfErr result (λ error. EndsFailed (cause_of error) (S.log system.old)
        (S.log system.new)) }
{
    if is_other_name(system, found, to)? {
        system.remove_file(from)
    } else {
        system.rename(from, to)
    }
}
