//! The walk of a folder of changes.
ghost use Rattle.std.specs.Prelude.{◌≡◌, ◌+◌, ◌++◌, true, length, IfOk, IsErrOf};
ghost use Rattle.std.specs.List.{list_all};
ghost use Rattle.cv_base.specs.Counts.{HasCause};
ghost use Rattle.cv_base.specs.Path.{Path, text_of};
ghost use Rattle.cv_base.specs.Told.{WhereTold};
ghost use Rattle.cv_base.specs.BytesOrder.{bytes_cmp};
ghost use Rattle.cv_base.specs.declared.repo_path.TheConstants.{NAMES_LIMIT};
ghost use Rattle.cv_ports.specs.Folder.{IsOrdered};
ghost use Rattle.cv_tree.specs.Changes.{FitsUnder};
ghost use Rattle.cv_overlay.specs.Changes.{AreContents};
ghost use Rattle.cv_overlay.specs.EventsInner.{visits_deep};
ghost use Rattle.cv_overlay.specs.FoundInner.{run, Ends};
ghost use Rattle.cv_overlay.specs.Walk.{Reads, has_no_slash, walk_cmp};
ghost use Rattle.cv_overlay.specs.declared.read_fault.ReadFault.TheVariants as faults;

use crate::changes::Changes;
use crate::event::{Event, in_order};
use crate::found::Found;
use crate::read_fault::ReadFault;
use crate::visiting::{below, takes, visit};
use cv_base::{NAMES_LIMIT, RepoPath};
use cv_ports::Folder;
use std::alloc::Global;

/// Walks what stands below a directory of the folder. The path at which it will be published can take so many names more.
fn walk<F: Folder>(
    alloc: Global,
    folder: &mut F,
    published: &RepoPath,
    above: &RepoPath,
    left: usize,
    found: Found,
) -> Result<Found, ReadFault>
    requires { left + length published.now ≡ NAMES_LIMIT }
    ensures told { WhereTold (F.folder folder.old) (λ holds. (at : Path) → published.now ≡ at ++ above.now → Ends result (run holds at (visits_deep (left + 1) holds at above.now) found)) }
    ensures ordered { WhereTold (F.folder folder.old) IsOrdered }
    ensures unchanged { F.folder folder.new ≡ F.folder folder.old }
    ensures stays { F.named folder.new ≡ F.named folder.old }
    ensures lasts { F.holds folder.new ≡ F.holds folder.old }
    ensures cause { HasCause (F.faults folder.old) (F.faults folder.new) (IsErrOf result faults.Failed) }
    ensures fits { (at : Path) → published.now ≡ at ++ above.now → FitsUnder at found.nodes → IfOk result (λ new. FitsUnder at new.nodes) }
{
    let items = folder.list(alloc, above)?;
    let mut events = in_order(alloc, items.into_vec())?;
    let mut found = found;
    'events: while let Some(event) = events.pop_front() {
        match event {
            Event::Item(item) => {
                found = visit(alloc, folder, published, above, item, found)?;
            }
            Event::Below(name) => {
                if !takes(published, name.as_str()) {
                    continue;
                }
                let next = below(alloc, published, name.as_str())?;
                let deeper = below(alloc, above, name.as_str())?;
                found = walk(alloc, folder, &next, &deeper, left - 1, found)?;
            }
        }
    }
    Ok(found)
}

/// The changes that a folder is, where they will be published at a path.
///
/// The folder is walked in the order of the bytes of its paths. Whiteout files are read as others are, and their contents
/// aren't kept.
///
/// # Errors
///
/// The first fault of the walk where the folder tells what it holds: `BadName` for a name that no path has, a link's text
/// that is no target, or a path that, put behind the published one, passes a limit of a path; `Special` for an item that is
/// no directory, file or link; `TooLarge` for a file above 16 MiB, or one with which the files up to it pass 1 GiB.
/// `Failed`, whose cause is the folder; `NoMemory`.
#[tactic(auto, using(crate::proofs::WalkTexts::walk_texts))]
pub fn read_folder<F: Folder>(
    alloc: Global,
    folder: &mut F,
    at: &RepoPath,
) -> Result<Changes, ReadFault>
    ensures told { WhereTold (F.folder folder.old) (Reads at.now result) }
    ensures unchanged { F.folder folder.new ≡ F.folder folder.old }
    ensures stays { F.named folder.new ≡ F.named folder.old }
    ensures lasts { F.holds folder.new ≡ F.holds folder.old }
    ensures cause { HasCause (F.faults folder.old) (F.faults folder.new) (IsErrOf result faults.Failed) }

    // The walk goes by the bytes of the paths' texts, also where names are bad, as long as none has a slash.
    ensures order { (p q : Path) → list_all has_no_slash p ≡ true → list_all has_no_slash q ≡ true
        → walk_cmp p q ≡ bytes_cmp (text_of p) (text_of q) }

    // Each path of the changes, those of whiteouts too, keeps the limits of a path behind the published one.
    ensures limits { IfOk result (λ changes. FitsUnder at.now changes.nodes) }

    // The contents of all files that aren't whiteouts, each once.
    ensures contents { IfOk result (λ changes. AreContents changes.nodes changes.objects) }
{
    let start = Found::new(alloc)?;
    let left = NAMES_LIMIT - at.names().len();
    let found = walk(alloc, folder, at, &RepoPath::root(alloc), left, start)?;
    Ok(found.into_changes())
}
