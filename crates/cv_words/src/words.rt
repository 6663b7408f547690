//! The words of the command line.
ghost use Rattle.std.specs.Prelude.{◌≡◌, ◌∷◌, [], map, string_bytes, IfOk, Err, IsTrue};
ghost use Rattle.cv_base.specs.Name.{is_name};
ghost use Rattle.cv_base.specs.Path.{Path, IsPath};
ghost use Rattle.cv_base.specs.PathText.{Spells};
ghost use Rattle.cv_client.specs.Url.{IsUrl};
ghost use Rattle.cv_client.specs.declared.url.Url.{Url};
ghost use Rattle.cv_words.specs.Words.{IsPlace, Means, Asks, IsCommand};
ghost use Rattle.cv_words.specs.declared.words.Command.{Command};
ghost use Rattle.cv_words.specs.declared.words.WordsFault.TheVariants as faults;
ghost use Rattle.cv_words.specs.declared.words.WordsFault.TheVariants.{Usage};

use crate::program::{match_words, read_given};
use cv_base::{Name, NoMemory, RepoPath, Text, ends_in_marker};
use cv_client::Url;
use cv_resolver::Question;
use std::alloc::{AllocError, AllocFailed, Global};

/// What the words ask for.
#[derive(Debug, Drop)]
pub enum Command {
    /// Make the first revision of the repository of this name.
    Init(Name),
    /// Answer the requests on standard input, as the repository of this name.
    Stdio(Name),
    /// Print the answer to this question, of the repository that is served under this URL.
    Look(Url, Question),
    /// Answer the lines on standard input, of the repository that is served under this URL.
    Shell(Url),
    /// Publish at this path the changes in the folder of this name, in the repository that is served under this URL.
    Publish(Url, RepoPath, Text),
}

/// Why there is no command.
#[derive(Clone, Copy, Debug, PartialEq, Eq)]
pub enum WordsFault {
    /// The words aren't in the grammar.
    Usage,
    /// There was no memory.
    NoMemory,
}

impl From<AllocError> for WordsFault {
    ghost from_gives = { λ _ e. e ≡ faults.NoMemory };

    fn from(_error: AllocError) -> WordsFault {
        WordsFault::NoMemory
    }
}

impl<T: Drop> From<AllocFailed<T>> for WordsFault {
    ghost from_gives = { λ _ e. e ≡ faults.NoMemory };

    fn from(_error: AllocFailed<T>) -> WordsFault {
        WordsFault::NoMemory
    }
}

impl From<NoMemory> for WordsFault {
    ghost from_gives = { λ _ e. e ≡ faults.NoMemory };

    fn from(_fault: NoMemory) -> WordsFault {
        WordsFault::NoMemory
    }
}

/// Reads the name of a repository.
fn read_name(alloc: Global, word: &str) -> Result<Name, WordsFault>
    ensures name { IfOk result (λ name. (name ≡ word.now) × IsTrue (is_name name)) }
    ensures usage { result ≡ Err Usage → IsTrue (is_name word.now) → ⊥ }
{
    Name::read(alloc, word)?.ok_or(WordsFault::Usage)
}

/// Reads the URL under which a repository is served.
fn read_url(alloc: Global, word: &str) -> Result<Url, WordsFault>
    ensures url { IfOk result (IsUrl word.now) }
    ensures usage { result ≡ Err Usage → (url : Url) → IsUrl word.now url → ⊥ }
{
    Url::read(alloc, word)?.ok_or(WordsFault::Usage)
}

/// Reads a path of a repository.
fn read_path(alloc: Global, word: &str) -> Result<RepoPath, WordsFault>
    ensures path { IfOk result (λ path. IsPath path × Spells word.now path) }
    ensures only { IfOk result (λ path. (p : Path) → IsPath p → Spells word.now p → path ≡ p) }
    ensures usage { result ≡ Err Usage → (path : Path) → IsPath path → Spells word.now path → ⊥ }
{
    match RepoPath::read(alloc, word) {
        Ok(path) => Ok(path),
        Err(fault) => {
            fault.unless_memory()?;
            Err(WordsFault::Usage)
        }
    }
}

/// Reads a command of one value: `init` or `stdio`, and the name of a repository; or `shell`, and a URL.
fn read_one(alloc: Global, verb: &str, value: &str) -> Result<Command, WordsFault>
    ensures command { IfOk result (Means verb.now (value.now ∷ [])) }
    ensures usage { result ≡ Err Usage → (command : Command) → Means verb.now (value.now ∷ []) command → ⊥ }
{
    match verb {
        "init" => Ok(Command::Init(read_name(alloc, value)?)),
        "stdio" => Ok(Command::Stdio(read_name(alloc, value)?)),
        "shell" => Ok(Command::Shell(read_url(alloc, value)?)),
        _ => Err(WordsFault::Usage),
    }
}

/// Where a client looks.
struct Place {
    url: Url,
    path: RepoPath,
}

/// Reads a URL and a path.
fn read_place(alloc: Global, url: &str, path: &str) -> Result<Place, WordsFault>
    ensures place { IfOk result (λ place. IsPlace url.now path.now place.url place.path) }
    ensures only { IfOk result (λ place. (u : Url) (p : Path) → IsPlace url.now path.now u p → place.path ≡ p) }
    ensures usage { result ≡ Err Usage → (u : Url) (p : Path) → IsPlace url.now path.now u p → ⊥ }
{
    Ok(Place {
        url: read_url(alloc, url)?,
        path: read_path(alloc, path)?,
    })
}

/// Reads `ls`, `stat` or `cat`, a URL and a path.
fn read_look(alloc: Global, verb: &str, url: &str, path: &str) -> Result<Command, WordsFault>
    ensures command { IfOk result (Means verb.now (url.now ∷ path.now ∷ [])) }
    ensures usage { result ≡ Err Usage → (command : Command) → Means verb.now (url.now ∷ path.now ∷ []) command → ⊥ }
{
    match verb {
        "ls" => {
            let Place { url, path } = read_place(alloc, url, path)?;
            Ok(Command::Look(url, Question::List(path)))
        }
        "stat" => {
            let Place { url, path } = read_place(alloc, url, path)?;
            Ok(Command::Look(url, Question::Stat(path)))
        }
        "cat" => {
            let Place { url, path } = read_place(alloc, url, path)?;
            Ok(Command::Look(url, Question::Read(path)))
        }
        _ => Err(WordsFault::Usage),
    }
}

/// Reads `publish`, a URL, a path and the name of a folder. A path whose last name is that of a catalogue's marker is refused.
fn read_publish(
    alloc: Global,
    verb: &str,
    url: &str,
    path: &str,
    folder: &str,
) -> Result<Command, WordsFault>
    ensures command { IfOk result (Means verb.now (url.now ∷ path.now ∷ folder.now ∷ [])) }
    ensures usage { result ≡ Err Usage → (command : Command) → Means verb.now (url.now ∷ path.now ∷ folder.now ∷ []) command → ⊥ }
{
    match verb {
        "publish" => {
            let Place { url, path } = read_place(alloc, url, path)?;
            if ends_in_marker(&path) {
                return Err(WordsFault::Usage);
            }
            let folder = Text::from_str(alloc, folder)?;
            Ok(Command::Publish(url, path, folder))
        }
        _ => Err(WordsFault::Usage),
    }
}

/// Reads a command by its word and its values.
fn read_command(alloc: Global, verb: &str, values: &[&str]) -> Result<Command, WordsFault>
    ensures command { IfOk result (Means verb.now (map (λ value. value.now) values.now)) }
    ensures usage { result ≡ Err Usage → (command : Command) → Means verb.now (map (λ value. value.now) values.now) command → ⊥ }
{
    match values {
        [value] => read_one(alloc, verb, value),
        [url, path] => read_look(alloc, verb, url, path),
        [url, path, folder] => read_publish(alloc, verb, url, path, folder),
        _ => Err(WordsFault::Usage),
    }
}

/// Reads the words after the program's name: `init` or `stdio`, and the name of a repository; `ls`, `stat` or `cat`, a URL
/// and a path; `shell`, and a URL; or `publish`, a URL, a path and the name of a folder. There is no option, so that a word
/// which begins with `-` and goes on is refused. Behind the first word `--` each is a value.
pub fn read_words(alloc: Global, words: &[String]) -> Result<Command, WordsFault>
    ensures command { IfOk result (λ command. Asks (map string_bytes words.now) command) }
    ensures usage { result ≡ Err Usage → IsCommand (map string_bytes words.now) → ⊥ }
{
    let matches = match_words(alloc, words)?;
    let given = read_given(alloc, &matches)?;
    read_command(alloc, given.verb, &given.values)
}
