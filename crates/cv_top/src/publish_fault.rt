//! Why a publisher publishes nothing.
ghost use Rattle.std.specs.Prelude.{◌≡◌};
ghost use Rattle.cv_top.specs.Status.{changes_text_of, refused_text_of, refusal_text_of};

use cv_answers::Refusal;

/// What is wrong with the changes of a folder.
#[derive(Clone, Copy, Debug, PartialEq, Eq)]
pub enum ChangesFault {
    /// No directory, file or link.
    Special,
    /// A directory in which a name or a link's target stands that a repository can't have.
    BadName,
    /// A file that is too large, or with which the files are too large together.
    TooLarge,
    /// A whiteout that takes nothing away.
    BadWhiteout,
    /// A path whose key is that of another of its catalogue.
    PathCollision,
    /// A directory whose catalogue would pass its limits.
    CatalogueFull,
}

impl ChangesFault {
    /// What the line on standard error says before the path.
    pub(crate) fn text(self) -> &'static str
        ensures { result.now ≡ changes_text_of self }
    {
        match self {
            ChangesFault::Special => "changes: special ",
            ChangesFault::BadName => "changes: bad name ",
            ChangesFault::TooLarge => "changes: too large ",
            ChangesFault::BadWhiteout => "changes: bad whiteout ",
            ChangesFault::PathCollision => "changes: path collision ",
            ChangesFault::CatalogueFull => "changes: catalogue full ",
        }
    }
}

/// Why the gateway refused.
#[derive(Debug, Drop)]
pub enum RefusedFor {
    /// A live lease overlaps the path.
    PathBusy,
    /// For what this refusal says.
    Said(Refusal),
}

/// The reason of a refusal, as the gateway's answers have it.
fn refusal_text(refusal: &Refusal) -> &'static str
    ensures { result.now ≡ refusal_text_of refusal.now }
{
    match refusal {
        Refusal::Plain(reason) => reason.as_str(),
        Refusal::MissingMember(_) => "missing_member",
        Refusal::WrongType(_) => "wrong_type",
        Refusal::BadValue(_) => "bad_value",
        Refusal::Collision(_) => "collision",
        Refusal::StaleBase { .. } => "stale_base",
        Refusal::MissingObject(_) => "missing_object",
        Refusal::BadCatalogue(_) => "bad_catalogue",
        Refusal::PathCollision { .. } => "path_collision",
        Refusal::CatalogueFull(_) => "catalogue_full",
        Refusal::TagTaken { .. } => "tag_taken",
        Refusal::Damaged { .. } => "damaged",
    }
}

impl RefusedFor {
    /// What the line on standard error says.
    pub(crate) fn text(&self) -> &'static str
        ensures { result.now ≡ refused_text_of self.now }
    {
        match self {
            RefusedFor::PathBusy => "path_busy",
            RefusedFor::Said(refusal) => refusal_text(refusal),
        }
    }
}
