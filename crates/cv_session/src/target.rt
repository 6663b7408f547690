//! The targets of requests.
ghost use Rattle.std.specs.Prelude.{◌≡◌, ◌≢◌, ◌++◌, ℕ, List, MatchOption};
ghost use Rattle.cv_http.specs.Requests.{file_target};
ghost use Rattle.cv_session.specs.Targets.{Names, NamesNothing};

use cv_base::ObjectId;
use cv_manifest::MANIFEST_NAME;

/// What a repository serves under a target.
#[derive(Clone, Copy, Debug, PartialEq, Eq)]
pub(crate) enum Resource {
    /// The signed manifest.
    Manifest,
    /// An object, under the name of its file.
    Object(ObjectId),
}

/// What follows a prefix.
fn strip<'a>(text: &'a [u8], prefix: &[u8]) -> Option<&'a [u8]>
    ensures { MatchOption result ((rest : List ℕ) → text.now ≢ prefix.now ++ rest) (λ rest. text.now ≡ prefix.now ++ rest.now) }
{
    text.strip_prefix(prefix)
}

/// The file that a target names below the repository.
fn file_below<'a>(repository: &str, target: &'a [u8]) -> Option<&'a [u8]>
    ensures { MatchOption result ((file : List ℕ) → target.now ≢ file_target repository.now file) (λ file. target.now ≡ file_target repository.now file.now) }
{
    let rest = strip(target, b"/cvmfs/".as_slice())?;
    let rest = strip(rest, repository.as_bytes())?;
    strip(rest, b"/".as_slice())
}

/// What a target names. None where this repository has no such resource.
pub(crate) fn read_target(repository: &str, target: &[u8]) -> Option<Resource>
    ensures { MatchOption result (NamesNothing repository.now target.now) (Names repository.now target.now) }
{
    let file = file_below(repository, target)?;
    if file == MANIFEST_NAME.as_bytes() {
        return Some(Resource::Manifest);
    }
    let id = ObjectId::read_file_name(file)?;
    Some(Resource::Object(id))
}
