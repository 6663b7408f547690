//! The publisher.
ghost use Rattle.std.specs.Prelude.{◌≡◌, false, None, IfOk};
ghost use Rattle.cv_base.specs.Marker.{marker, ends_in};
ghost use Rattle.cv_tree.specs.Changes.{FitsUnder};
ghost use Rattle.cv_publisher.specs.Taking.{Takes};
ghost use Rattle.cv_publisher.specs.Wanting.{Wants};
ghost use Rattle.cv_publisher.specs.declared.stage.Stage.TheVariants.{Leasing};

use crate::plan::Plan;
use crate::stage::Stage;
use crate::stepping::{Step, follow};
use crate::want::Want;
use crate::wanting::want_in;
use cv_base::{Name, NoMemory, RepoPath, Text};
use cv_http::HttpReply;
use cv_keys::KeyTable;
use cv_manifest::Manifest;
use cv_overlay::Changes;
use cv_seal::Signer;
use std::alloc::Global;
use std::marker::Model;
use std::mem;

/// A publisher: it wants requests to be sent, is given their replies, and so makes one revision of a folder of changes.
///
/// It asks for a lease on the path, reads the manifest, fetches the catalogues on the way to the path and those at and below
/// it, lays the changes over what is there, sends what is new, and commits. After a refusal or a fault it ends the lease.
#[derive(Drop)]
pub struct Publisher {
    plan: Plan,
    manifest: Option<Manifest>,
    stage: Stage,
}

impl Model for Publisher {
    ghost use Rattle.std.specs.Prelude.{Option, refl};
    ghost use Rattle.std.specs.Coded.{code_by, coded×, coded_option};
    ghost use Rattle.cv_manifest.specs.declared.manifest.Manifest.{Manifest};
    ghost use Rattle.cv_manifest.specs.contracts.manifest.Manifest as one_manifest;
    ghost use Rattle.cv_publisher.specs.declared.plan.Plan.{Plan};
    ghost use Rattle.cv_publisher.specs.contracts.plan.Plan as one_plan;
    ghost use Rattle.cv_publisher.specs.declared.stage.Stage.{Stage};
    ghost use Rattle.cv_publisher.specs.contracts.stage.Stage as one_stage;
    ghost use Rattle.cv_publisher.specs.Holding.{PublisherView, IsHeld, IsPlan};

    ghost Value = { PublisherView };

    ghost coded = { code_by (Plan × (Option Manifest × Stage)) (coded× one_plan.the_row.coded (coded× (coded_option one_manifest.the_row.coded) one_stage.the_row.coded)) (λ v. (v.plan, (v.manifest, v.stage))) (λ p. record { plan = p.0; manifest = p.1.0; stage = p.1.1 }) (λ _. refl) };

    ghost view = { λ p. record { plan = p.plan; manifest = p.manifest; stage = p.stage } };

    ghost invariant = { λ p. IsPlan p.plan × IsHeld p.plan p.stage };
}

impl Publisher {
    /// A publisher of changes at a path of a repository, which a server at this host serves: the host as it stands in a URL,
    /// with the port where there is one. The moment is in Unix seconds.
    pub fn new(
        _alloc: Global,
        name: Name,
        host: Text,
        path: RepoPath,
        changes: Changes,
        now: u64,
    ) -> Result<Publisher, NoMemory>
        // The path's last name isn't that of a catalogue's marker.
        requires unmarked { ends_in marker path ≡ false }
        // The paths of the changes keep the limits of a path behind this one.
        requires limits { FitsUnder path changes.nodes }
        ensures { IfOk result (λ p. p ≡ record {
          plan = record { name = name; host = host; path = path; changes = changes; moment = now };
          manifest = None;
          stage = Leasing;
        }) }
    {
        Ok(Publisher {
            plan: Plan {
                name,
                host,
                path,
                changes,
                moment: now,
            },
            manifest: None,
            stage: Stage::Leasing,
        })
    }

    /// What the publisher wants next. It signs with the first key.
    pub fn want(&mut self, alloc: Global, keys: &KeyTable) -> Result<Want, NoMemory>
        ensures wants { IfOk result (Wants keys.now self.old.plan self.old.stage) }
        ensures unchanged { self.new ≡ self.old }
    {
        want_in(alloc, keys, &self.plan, &self.stage)
    }

    /// Takes the reply to the request that it wanted. What can't be done for want of memory ends it so. Where it has ended it
    /// stays as it is.
    pub fn take<S: Signer>(&mut self, alloc: Global, reply: HttpReply, signer: &S)
        ensures { Takes (S.is_seal signer.now) reply self.old self.new }
    {
        let stage = mem::replace(&mut self.stage, Stage::Leasing);
        let Step { read, stage } = follow(alloc, &self.plan, stage, reply, signer);
        self.manifest = read.or(self.manifest.take());
        self.stage = stage;
    }
}
