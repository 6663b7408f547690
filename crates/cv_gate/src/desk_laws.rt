//! What calls of a desk come to, whatever they were.
//!
//! The functions do nothing. Their contracts hold of all calls.
ghost use Rattle.std.specs.Prelude.{List};
ghost use Rattle.cv_gate.specs.Desk.{DeskView, Call as CallData, Calls};
ghost use Rattle.cv_gate.specs.Solo.{IsAlone, Makes};
ghost use Rattle.cv_gate.specs.Own.{Adds};

/// Where a desk asks the gate alone, the journal is what its own calls made: each answer is that of the state behind the entries
/// before it.
pub fn alone_is_in_order()
    ensures { (v v' : DeskView) (calls : List CallData) → Calls v calls v' → IsAlone v → Makes v calls v' }
{}

/// The entries of a desk's seat grow by those of the ops that were asked, in order, with their replies.
pub fn own_entries_are_in_order()
    ensures { (v v' : DeskView) (calls : List CallData) → Calls v calls v' → Adds v calls v' }
{}
