//! The list of live leases.
ghost use Rattle.std.specs.Prelude.{◌≡◌, ◌<◌, ◌++◌, ◌∷◌, [], map, IfOk, OnOk};
ghost use Rattle.cv_gate.specs.Lines.{lines_of};

use cv_base::{NoMemory, Steps};
use cv_gate::LeaseLine;
use cv_leases::{Lease, LeaseTable};
use std::alloc::Global;
use std::marker::Brand;
use std::sync::ledger::{Blank, Ledger};

/// The leases of a table that are live at a moment, in the order of grant.
pub fn list_leases(
    alloc: Global,
    leases: &LeaseTable,
    moment: u64,
) -> Result<Vec<LeaseLine>, NoMemory>
    ensures { IfOk result (λ lines. lines.items ≡ lines_of moment leases.now) }
{
    let all = all_leases::<Brand>(alloc, leases, Blank::new(1))?;
    let mut lines = Vec::new(alloc);
    for lease in &all {
        push_live(alloc, &mut lines, lease, moment)?;
    }
    Ok(lines)
}

/// All leases of a table, in the order of grant.
fn all_leases<L: Ledger>(
    alloc: Global,
    leases: &LeaseTable,
    blank: Blank,
) -> Result<Vec<&Lease>, NoMemory>
    requires { (blank.name ≡ L.name) × (blank.parts ≡ L.parts) × (0 < blank.parts) }
    ensures { IfOk result (λ all. map (λ lease. lease.now) all.items ≡ leases.now) }
{
    let mut steps: Steps<L> = Steps::new(blank);
    leases.leases(alloc, &mut steps)
}

/// Puts the line of a lease behind the others, if it is live at the moment.
fn push_live(
    alloc: Global,
    lines: &mut Vec<LeaseLine>,
    lease: &Lease,
    moment: u64,
) -> Result<(), NoMemory>
    ensures { OnOk result (lines.new.items ≡ lines.old.items ++ lines_of moment (lease.now ∷ [])) }
{
    if lease.deadline <= moment {
        return Ok(());
    }
    let line = LeaseLine {
        key: lease.key.copy(alloc)?,
        path: lease.path.copy(alloc)?,
        remaining: lease.deadline.saturating_sub(moment),
    };
    lines.push(line)?;
    Ok(())
}
