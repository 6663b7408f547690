//! A repository is made: its first revision.
ghost use Rattle.std.specs.Prelude.{◌≡◌, None, IsErrOf};
ghost use Rattle.cv_base.specs.Counts.{HasCause};
ghost use Rattle.cv_base.specs.Told.{WhereTold};
ghost use Rattle.cv_base.specs.Moment.{IsMoment};
ghost use Rattle.cv_vault.specs.Moments.{OnlyReads};
ghost use Rattle.cv_vault.specs.declared.vault.VaultFault.TheVariants as vault_fault;
ghost use Rattle.cv_swap.specs.First.{first_revision};
ghost use Rattle.cv_swap.specs.Init.{MakesFirst, WritesHead};
ghost use Rattle.cv_swap.specs.InitInner.{HasHead};
ghost use Rattle.cv_swap.specs.Stands.{head_of, head_text};
ghost use Rattle.cv_swap.specs.declared.init_fault.InitFault.TheVariants as fault;

use crate::first::first_parts;
use crate::init_fault::InitFault;
use crate::publishing::init_on;
use cv_base::Name;
use cv_manifest::MANIFEST_NAME;
use cv_objects::Objects;
use cv_seal::Signer;
use cv_vault::{Vault, VaultFault};
use std::alloc::Global;

/// Whether there is a manifest.
fn has_head<V: Vault + Drop>(objects: &mut Objects<V>) -> Result<bool, VaultFault>
    ensures told { WhereTold (V.disk objects.old.vault) (HasHead result) }
    ensures reads { OnlyReads V.disk V.count V.left objects.old.vault objects.new.vault }
    ensures cause { HasCause (V.faults objects.old.vault) (V.faults objects.new.vault) (IsErrOf result vault_fault.Failed) }
{
    Ok(objects.measure_file(MANIFEST_NAME)?.is_some())
}

/// Makes the first revision of a repository in a vault without one.
pub fn init_in<V: Vault + Drop, S: Signer>(
    objects: &mut Objects<V>,
    alloc: Global,
    name: &Name,
    signer: &S,
    now: u64,
) -> Result<(), InitFault>
    requires { IsMoment now }
    ensures makes { WhereTold (V.disk objects.old.vault) (λ d. MakesFirst V.disk V.count V.left name.now (S.is_seal signer.now) now d result objects.old.vault objects.new.vault) }
    ensures text { WhereTold (V.disk objects.old.vault) (λ d.
        WritesHead V.disk V.count V.left (head_text (S.seal_of signer.now) name.now (head_of (first_revision now))) d objects.old.vault objects.new.vault) }
    ensures silent { V.disk objects.old.vault ≡ None → V.disk objects.new.vault ≡ None }
    ensures cause { HasCause (V.faults objects.old.vault) (V.faults objects.new.vault) (IsErrOf result fault.Failed) }
{
    if has_head(objects)? {
        return Err(InitFault::Exists);
    }
    let parts = first_parts(alloc, name, signer, now)?;
    init_on(
        objects,
        alloc,
        parts.batch.as_slice(),
        parts.manifest.as_slice(),
    )?;
    Ok(())
}
