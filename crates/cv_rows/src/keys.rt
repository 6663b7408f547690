//! Sets of keys.
ghost use Rattle.std.specs.Prelude.{◌≡◌, ◌||◌, ℕ, List, bytes_eq, not, IfOk, OnOk};
ghost use Rattle.std.specs.BTreeSet.{contains};
ghost use Rattle.cv_base.specs.BytesOrder.{bytes_cmp};

use cv_base::NoMemory;
use std::collections::BTreeSet;

/// Adds a key, and says whether it wasn't there.
pub fn add(keys: &mut BTreeSet<[u8; 16]>, key: [u8; 16]) -> Result<bool, NoMemory>
    ensures added { OnOk result ((k : List ℕ) → contains bytes_cmp keys.new k ≡ (contains bytes_cmp keys.old k || bytes_eq key k)) }
    ensures is_new { IfOk result (λ is_new. is_new ≡ not (contains bytes_cmp keys.old key)) }
{
    Ok(keys.insert(key)?)
}
