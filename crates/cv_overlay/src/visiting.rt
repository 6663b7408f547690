//! Visits to the items of a folder.
ghost use Rattle.std.specs.Prelude.{◌≡◌, ◌++◌, ◌∷◌, ◌%◌, [], true, false, IfOk, IsErrOf, MatchOption};
ghost use Rattle.cv_base.specs.declared.limits.TheConstants.{MODE_LIMIT};
ghost use Rattle.cv_base.specs.Counts.{HasCause};
ghost use Rattle.cv_base.specs.Path.{Path, IsPath};
ghost use Rattle.cv_base.specs.Told.{WhereTold};
ghost use Rattle.cv_ports.specs.declared.folder.FoundKind.TheVariants as kind;
ghost use Rattle.cv_base.specs.Attr.{IsAttr};
ghost use Rattle.cv_tree.specs.Node.{IsLinkTarget};
ghost use Rattle.cv_overlay.specs.Walk.{takes, has_target, is_large};
ghost use Rattle.cv_overlay.specs.FoundInner.{step, file_step, Ends, IsWithin};
ghost use Rattle.cv_overlay.specs.declared.read_fault.ReadFault.TheVariants as faults;

use crate::bounds::SUM_LIMIT;
use crate::found::Found;
use crate::read_fault::ReadFault;
use cv_base::{
    Attr, MODE_LIMIT, NAMES_LIMIT, NoMemory, OBJECT_LIMIT, PATH_LIMIT, RepoPath, Target, Text,
    is_path_name,
};
use cv_ports::{Folder, FolderItem, FoundKind};
use cv_tree::Node;
use std::alloc::Global;

/// Whether a path takes one more name.
#[tactic(auto, using(crate::proofs::Limits::takes_is))]
pub(crate) fn takes(path: &RepoPath, name: &str) -> bool
    ensures value { result ≡ takes path.now name.now }
    ensures limits { IsPath path.now }
{
    let depth = path.names().len();
    let size = path.text_len();
    depth < NAMES_LIMIT && size + 1 + name.len() <= PATH_LIMIT && is_path_name(name)
}

/// A path with one more name, which it takes.
pub(crate) fn below(alloc: Global, path: &RepoPath, name: &str) -> Result<RepoPath, NoMemory>
    ensures { IfOk result (λ longer. longer ≡ path.now ++ name.now ∷ []) }
{
    match path.join(alloc, name) {
        Ok(longer) => Ok(longer),
        Err(_) => Err(NoMemory),
    }
}

/// The attributes of an item of this mode and time: its twelve permission bits, and no owner.
fn attr(mode: u32, mtime: u64) -> Attr
    ensures value { result ≡ record { mode = mode % MODE_LIMIT; mtime = mtime; uid = 0; gid = 0 } }
    ensures limits { IsAttr result }
{
    Attr {
        mode: mode % MODE_LIMIT,
        mtime,
        uid: 0,
        gid: 0,
    }
}

/// The target that a text is, if a link may have it.
fn target_of(alloc: Global, text: &Text) -> Result<Option<Target>, NoMemory>
    ensures { IfOk result (λ found. MatchOption found (has_target (kind.Link text.now) ≡ false)
        (λ target. (target ≡ text.now) × IsLinkTarget target)) }
{
    if text.as_str().is_empty() {
        return Ok(None);
    }
    Target::read(alloc, text.as_str())
}

/// Whether a file has more bytes than it may, or all files up to it have.
fn is_large(size: u64, sum: u64) -> bool
    ensures { result ≡ is_large size sum }
{
    size > OBJECT_LIMIT as u64 || sum > SUM_LIMIT
}

/// A file: it is read, and added where it isn't too large.
fn visit_file<F: Folder>(
    alloc: Global,
    folder: &mut F,
    path: RepoPath,
    attr: Attr,
    found: Found,
) -> Result<Found, ReadFault>
    requires { IsAttr attr }
    ensures told { WhereTold (F.folder folder.old) (λ holds. Ends result (file_step path attr (holds.content path) found)) }
    ensures unchanged { F.folder folder.new ≡ F.folder folder.old }
    ensures stays { F.named folder.new ≡ F.named folder.old }
    ensures lasts { F.holds folder.new ≡ F.holds folder.old }
    ensures cause { HasCause (F.faults folder.old) (F.faults folder.new) (IsErrOf result faults.Failed) }
    ensures within { IsWithin path found result }
{
    let object = folder.read(alloc, &path)?;
    let size = object.bytes.as_slice().len() as u64;
    if is_large(size, found.sum() + size) {
        return Err(ReadFault::TooLarge(path));
    }
    let found = found.with_file(&path, attr, object)?;
    Ok(found)
}

/// An item of the directory at a path, which will be published at another: its fault, or what was found with it.
pub(crate) fn visit<F: Folder>(
    alloc: Global,
    folder: &mut F,
    published: &RepoPath,
    above: &RepoPath,
    item: FolderItem,
    found: Found,
) -> Result<Found, ReadFault>
    ensures told { WhereTold (F.folder folder.old) (λ holds. (at : Path) → published.now ≡ at ++ above.now → Ends result (step holds at (record { above = above.now; item = item }) found)) }
    ensures unchanged { F.folder folder.new ≡ F.folder folder.old }
    ensures stays { F.named folder.new ≡ F.named folder.old }
    ensures lasts { F.holds folder.new ≡ F.holds folder.old }
    ensures cause { HasCause (F.faults folder.old) (F.faults folder.new) (IsErrOf result faults.Failed) }
    ensures within { IsWithin (above.now ++ item.name ∷ []) found result }
    ensures taken { IfOk result (λ _. (takes published.now item.name ≡ true) × IsPath published.now) }
{
    let FolderItem {
        name,
        kind,
        mode,
        mtime,
    } = item;
    if !takes(published, name.as_str()) {
        return Err(ReadFault::BadName(above.copy(alloc)?));
    }
    let path = below(alloc, above, name.as_str())?;
    let attr = attr(mode, mtime);
    match kind {
        FoundKind::Dir => Ok(found.with_node(&path, Node::Dir(attr))?),
        FoundKind::File => visit_file(alloc, folder, path, attr, found),
        FoundKind::Link(text) => match target_of(alloc, &text)? {
            Some(target) => Ok(found.with_node(&path, Node::Link(attr, target))?),
            None => Err(ReadFault::BadName(above.copy(alloc)?)),
        },
        FoundKind::Special => Err(ReadFault::Special(path)),
    }
}
