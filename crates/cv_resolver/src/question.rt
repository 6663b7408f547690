//! What a client asks.
ghost use Rattle.std.specs.Prelude.{◌≡◌};

use cv_base::RepoPath;

/// A question about one path.
#[derive(Debug, Drop)]
pub enum Question {
    /// The names in a directory.
    List(RepoPath),
    /// One entry. A link at the path itself isn't followed.
    Stat(RepoPath),
    /// The content of a file.
    Read(RepoPath),
}

impl Question {
    ghost use Rattle.cv_resolver.specs.Asking.{path_of_question, is_stat};

    /// The path that is asked for.
    pub(crate) fn path(&self) -> &RepoPath
        ensures { result.now ≡ path_of_question self.now }
    {
        match self {
            Question::List(path) => path,
            Question::Stat(path) => path,
            Question::Read(path) => path,
        }
    }

    /// Whether a link at the path itself isn't followed.
    pub(crate) fn is_stat(&self) -> bool
        ensures { result ≡ is_stat self.now }
    {
        matches!(self, Question::Stat(_))
    }
}
