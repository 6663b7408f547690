//! All folders from one on, made durable without a list of them.
ghost use Rattle.std.specs.Prelude.{◌≡◌, ◌⊎◌, ◌↔◌, ◌+◌, ◌++◌, [], ◌∷◌, All, length, IfOk, IfErr, IsSome, IsTrue, Ok, Err, OnErr, OnOk, true, false, ◌≤◌, ◌<◌};
ghost use Rattle.cv_system.specs.Calls.{cause_of};
ghost use Rattle.cv_system.specs.declared.path_buffer.TheConstants.{PATH_ROOM};
ghost use Rattle.cv_system.specs.Names.{above, names_in};
ghost use Rattle.cv_system.specs.Passed.{Passes, StopsAt};
ghost use Rattle.cv_system.specs.Walks.{FailsAll, FailsAmong, FailsRound, FailsToReadAll, FailsTurn, FindsNext, GoesRound, IsUnder, LooksAtAll, ReadsAll, SettlesAll, Turns, is_inside};
ghost use Rattle.cv_system.specs.Ways.{SyncsAllWays};

use crate::cut::{NAMES_ROOM, cut_name};
use crate::names::above;
use crate::place::Place;
use crate::syncing::Unsynced;
use crate::system::System;
use crate::ways::sync_named;
use std::alloc::{AllocError, Global};
use std::io;

/// Looks at each of these names, between which NULs stand.
fn look_at<S: System>(system: &mut S, place: &mut Place, names: &[u8]) -> Result<(), Unsynced>
    ensures folder { place.new.folder ≡ place.old.folder }
    ensures last { place.new.last ≡ place.old.last }
    ensures looks { OnOk result (LooksAtAll place.old.folder place.old.last (names_in names.now)
        place.old.ahead place.new.ahead (S.log system.old) (S.log system.new)) }
    ensures fails { OnErr result (FailsAmong place.old.folder place.old.last (names_in names.now)
        place.old.ahead (S.log system.old) (S.log system.new)) }
    ensures ends { IfErr result (λ unsynced. unsynced ≡ Unsynced.NotOpened) }
{
    let mut rest = names;
    while let Some((name, others)) = cut_name(rest) {
        place.look(system, name)?;
        rest = others;
    }
    place.look(system, rest)
}

/// A walk over folders. Its constructor takes the memory for a walk over any number of them; no other call takes any.
#[derive(Drop)]
pub struct Walk {
    place: Place,
    names: Vec<u8>,
}

impl Walk {
    /// A walk that is nowhere yet.
    pub fn new(alloc: Global) -> Result<Walk, AllocError>
        ensures folder { IfOk result (λ walk. walk.place.folder ≡ []) }
        ensures last { IfOk result (λ walk. walk.place.last ≡ []) }
        ensures ahead { IfOk result (λ walk. All (λ path. path ≡ []) walk.place.ahead) }
    {
        Ok(Walk {
            place: Place::new(alloc)?,
            names: vec![in alloc; 0u8; NAMES_ROOM]?,
        })
    }

    /// Looks at all names of the folder, which is entered.
    fn read_all<S: System>(&mut self, system: &mut S, entered: S::Names) -> Result<(), Unsynced>
        requires { IsSome (S.log system.old) → S.folder entered ≡ self.old.place.folder }
        ensures folder { self.new.place.folder ≡ self.old.place.folder }
        ensures last { self.new.place.last ≡ self.old.place.last }
        ensures reads { OnOk result (ReadsAll self.old.place.folder self.old.place.last
            self.old.place.ahead self.new.place.ahead (S.log system.old) (S.log system.new)) }
        ensures fails { OnErr result (FailsToReadAll self.old.place.folder self.old.place.last
            self.old.place.ahead (S.log system.old) (S.log system.new)) }
        ensures ends { IfErr result (λ unsynced. unsynced ≡ Unsynced.NotOpened) }
    {
        let mut entered = entered;
        // Each turn but the last takes names of the disk; the bound is never met.
        for _ in 0..u64::MAX {
            let Ok(count) = system.read_names(&mut entered, &mut self.names) else {
                return Err(Unsynced::NotOpened);
            };
            if count == 0 {
                return Ok(());
            }
            look_at(system, &mut self.place, &self.names[..count])?;
        }
        Err(Unsynced::NotOpened)
    }

    /// Passes over the folder, which can't be entered, but for the one at the top.
    fn pass_by<S: System>(
        &mut self,
        system: &mut S,
        top: &str,
        error: &io::Error,
    ) -> Result<(), Unsynced>
        ensures folder { self.new.place.folder ≡ self.old.place.folder }
        ensures last { self.new.place.last ≡ self.old.place.last }
        ensures ahead { self.new.place.ahead ≡ self.old.place.ahead }
        ensures passes { OnOk result ((length top.now + 1 < length self.old.place.folder)
            × Passes self.old.place.folder (cause_of error.now) (S.log system.old) (S.log system.new)) }
        ensures stops { OnErr result (((length self.old.place.folder ≤ length top.now + 1)
            × (S.log system.new ≡ S.log system.old)) ⊎ StopsAt self.old.place.folder
            (cause_of error.now) (S.log system.old) (S.log system.new)) }
        ensures ends { IfErr result (λ unsynced. unsynced ≡ Unsynced.NotOpened) }
    {
        if self.is_at(top) {
            return Err(Unsynced::NotOpened);
        }
        self.place.pass_over(system, error)
    }

    /// Looks at all that stands in the folder. One below the top in which this process may look nothing up is passed over, if it
    /// may not read it.
    fn look_round<S: System>(&mut self, system: &mut S, top: &str) -> Result<(), Unsynced>
        ensures folder { self.new.place.folder ≡ self.old.place.folder }
        ensures last { self.new.place.last ≡ self.old.place.last }
        ensures goes { OnOk result (GoesRound top.now self.old.place.folder self.old.place.last
            self.old.place.ahead self.new.place.ahead (S.log system.old) (S.log system.new)) }
        ensures fails { OnErr result (FailsRound top.now self.old.place.folder self.old.place.last
            self.old.place.ahead (S.log system.old) (S.log system.new)) }
        ensures ends { IfErr result (λ unsynced. unsynced ≡ Unsynced.NotOpened) }
    {
        match system.open_names(self.place.folder.as_str()) {
            Ok(entered) => self.read_all(system, entered),
            Err(error) => self.pass_by(system, top, &error),
        }
    }

    /// Whether the folder has one that comes next. It is read where none is known.
    fn has_next<S: System>(&mut self, system: &mut S, top: &str) -> Result<bool, Unsynced>
        ensures next { IfOk result (λ is. is ≡ is_inside self.new.place.folder self.new.place.ahead) }
        ensures folder { self.new.place.folder ≡ self.old.place.folder }
        ensures last { self.new.place.last ≡ self.old.place.last }
        ensures finds { OnOk result (FindsNext top.now self.old.place.folder self.old.place.last
            self.old.place.ahead self.new.place.ahead (S.log system.old) (S.log system.new)) }
        ensures fails { OnErr result ((is_inside self.old.place.folder self.old.place.ahead ≡ false)
            × FailsRound top.now self.old.place.folder self.old.place.last
            self.old.place.ahead (S.log system.old) (S.log system.new)) }
        ensures ends { IfErr result (λ unsynced. unsynced ≡ Unsynced.NotOpened) }
    {
        if self.place.is_above_next() {
            return Ok(true);
        }
        self.look_round(system, top)?;
        Ok(self.place.is_above_next())
    }

    /// Makes durable each file on its way in the folder of this path.
    pub fn sync_ways<S: System>(&mut self, system: &mut S, top: &str) -> Result<(), Unsynced>
        ensures { SyncsAllWays top.now result (S.log system.old) (S.log system.new) }
    {
        self.place.begin(top)?;
        let folder = self.place.folder.as_str();
        let Ok(entered) = system.open_names(folder) else {
            return Err(Unsynced::NotOpened);
        };
        sync_named(
            system,
            entered,
            folder,
            &mut self.place.entry,
            &mut self.names,
        )
    }

    /// Whether the folder is the one at the top, which is that of this path.
    fn is_at(&self, top: &str) -> bool
        ensures { IsTrue result ↔ (length self.now.place.folder ≤ length top.now + 1) }
    {
        self.place.folder.as_str().len() <= top.len() + 1
    }

    /// Goes back from a folder into the one above.
    fn leave(&mut self)
        ensures folder { self.new.place.folder ≡ above self.old.place.folder }
        ensures last { self.new.place.last ≡ self.old.place.last }
        ensures ahead { self.new.place.ahead ≡ self.old.place.ahead }
    {
        self.place.entry.copy(above(self.place.folder.as_str()));
        self.place.folder.copy(self.place.entry.as_str());
    }

    /// Goes into the folder that comes next, or back from this one. Whether this one is the top, and no folder comes next.
    #[tactic(auto, using(crate::proofs::LastParts::above_under, crate::proofs::LastParts::first_under, crate::proofs::LastParts::only_top))]
    fn turn<S: System>(&mut self, system: &mut S, top: &str) -> Result<bool, Unsynced>
        requires { IsUnder top.now self.old.place.folder }
        ensures under { OnOk result (IsUnder top.now self.new.place.folder) }
        ensures turns { result ≡ Ok false → Turns top.now self.old.place.folder self.old.place.last
            self.old.place.ahead self.new.place.folder self.new.place.last self.new.place.ahead
            (S.log system.old) (S.log system.new) }
        ensures done { result ≡ Ok true → (self.new.place.folder ≡ top.now ++ 47 ∷ [])
            × (self.new.place.folder ≡ self.old.place.folder)
            × (is_inside self.old.place.folder self.new.place.ahead ≡ false)
            × FindsNext top.now self.old.place.folder self.old.place.last self.old.place.ahead
            self.new.place.ahead (S.log system.old) (S.log system.new) }
        ensures fails { IfErr result (λ unsynced. FailsTurn top.now self.old.place.folder
            self.old.place.last self.old.place.ahead unsynced (S.log system.old) (S.log system.new)) }
    {
        if self.has_next(system, top)? {
            self.place.enter();
            self.place.settle(system)?;
            return Ok(false);
        }
        if self.is_at(top) {
            return Ok(true);
        }
        self.leave();
        Ok(false)
    }

    /// Makes durable the folder of this path and each one below it, and removes what an earlier process left there. Folders below
    /// it in which this process may look nothing up are passed over, if it may not read them.
    #[tactic(auto, using(crate::proofs::LastParts::top_under))]
    pub fn sync_all<S: System>(&mut self, system: &mut S, top: &str) -> Result<(), Unsynced>
        ensures long { PATH_ROOM ≤ length top.now + 1 → result ≡ Err Unsynced.NotOpened }
        ensures settles { OnOk result (SettlesAll top.now (S.log system.old) (S.log system.new)) }
        ensures fails { IfErr result (λ unsynced. FailsAll top.now unsynced (S.log system.old)
            (S.log system.new)) }
    {
        self.place.begin(top)?;
        self.place.settle_top(system)?;
        // Each turn goes into a folder of the disk or back from one; the bound is never met.
        for _ in 0..u64::MAX {
            if self.turn(system, top)? {
                return Ok(());
            }
        }
        Err(Unsynced::NotOpened)
    }
}
