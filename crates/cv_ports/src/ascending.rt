//! The order of a folder's items.
ghost use Rattle.std.specs.Prelude.{◌≡◌, IsTrue};
ghost use Rattle.cv_ports.specs.Folder.{Ascend, ascends};

use crate::folder::FolderItem;

/// Whether the names of these items ascend by their bytes.
#[tactic(auto, using(crate::proofs::Folders::passed, crate::proofs::Folders::next_tested, crate::proofs::Folders::all_tested))]
pub fn ascend(items: &[FolderItem]) -> bool
    ensures value { result ≡ ascends items.now }
    ensures order { IsTrue result → Ascend items.now }
{
    for i in 1..items.len() {
        if items[i - 1].name.as_str() >= items[i].name.as_str() {
            return false;
        }
    }
    true
}
