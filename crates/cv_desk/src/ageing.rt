//! Leases whose deadline has come.
ghost use Rattle.std.specs.Prelude.{◌≡◌, ◌<◌};
ghost use Rattle.cv_leases.specs.Leases.{unexpired};

use cv_base::Steps;
use cv_leases::LeaseTable;
use std::sync::ledger::{Blank, Ledger};

/// Takes out the leases whose deadline is at this moment or before it.
pub(crate) fn drop_due<L: Ledger>(leases: &mut LeaseTable, moment: u64, blank: Blank)
    requires { (blank.name ≡ L.name) × (blank.parts ≡ L.parts) × (0 < blank.parts) }
    ensures { leases.new ≡ unexpired moment leases.old }
{
    let mut steps: Steps<L> = Steps::new(blank);
    leases.expire(moment, &mut steps);
}
