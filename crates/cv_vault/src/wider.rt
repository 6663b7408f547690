//! What else may be left out of account.
ghost use Rattle.std.specs.Prelude.{ℕ, List, Some};
ghost use Rattle.std.specs.declared.result.Result.{Result};
ghost use Rattle.cv_vault.specs.Names.{Name};
ghost use Rattle.cv_vault.specs.Disk.{Disk};
ghost use Rattle.cv_vault.specs.Walks.{LeavesOutMore, Nothing, ComesTo};
ghost use Rattle.cv_vault.specs.Replace.{PutOnWay, MovedIn, Replaced};
ghost use Rattle.cv_vault.specs.declared.vault.VaultFault.{VaultFault};

use crate::vault::Vault;

/// What `put_on_way`, `move_in` and `replace` say of the names that aren't under `txn/` they say for any choice of names that
/// are left out of account, if those under `txn/` are among them.
pub fn more_names_may_be_left_out<V: Vault>()
    ensures put { (d : Disk) (way : Name) (bytes : List ℕ) (answer : Result (Unit {0}) VaultFault)
        → LeavesOutMore V.disk V.count V.left Nothing (PutOnWay d way bytes answer) d }
    ensures moved { (d : Disk) (name : Name) (bytes : List ℕ) (answer : Result (Unit {0}) VaultFault)
        → LeavesOutMore V.disk V.count V.left (ComesTo name (Some bytes)) (MovedIn d name bytes answer) d }
    ensures replaced { (d : Disk) (name : Name) (bytes : List ℕ) (answer : Result (Unit {0}) VaultFault)
        → LeavesOutMore V.disk V.count V.left (ComesTo name (Some bytes)) (Replaced d name bytes answer) d }
{}
