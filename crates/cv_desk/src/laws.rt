//! Laws over the definitions alone: what the images of a gate's disk stand for.
//!
//! The functions do nothing. Their contracts hold of every gate.
ghost use Rattle.std.specs.Prelude.{◌≡◌, ℕ, Bool, List, None};
ghost use Rattle.cv_vault.specs.Disk.{Disk, Files, Image};
ghost use Rattle.cv_gate.specs.State.{State};
ghost use Rattle.cv_gate.specs.Sound.{Sound};
ghost use Rattle.cv_desk.specs.Holds.{Holds, Survives};

/// Each image of a disk that holds a state stands for what a crash with nothing in progress may leave of the state.
pub fn images_are_crashes()
    ensures { (name : List ℕ) (is_seal : List ℕ → List ℕ → Bool) (d : Disk) (st : State) (f : Files)
        → Holds name is_seal d st → Sound st → Image d f → Survives name is_seal st None f }
{}
