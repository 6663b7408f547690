//! The catalogues that a client keeps.
ghost use Rattle.std.specs.Prelude.{◌≡◌, ◌≤◌, ◌↔◌, [], IsTrue, IfOk, OnOk, OnErr};
ghost use Rattle.std.specs.Prelude.{bytes_eq, Some};
ghost use Rattle.lru.specs.LruCache.{lru_cache};

use crate::spot::Level;
use cv_base::NoMemory;
use cv_cut::fits_place;
use cv_rows::Catalogue;
use lru::LruCache;
use std::alloc::Global;
use std::marker::Model;
use std::num::NonZeroUsize;

/// Catalogues by their digests, the last used first. Clauses see the pairs, and how many there may be.
#[derive(Drop)]
pub struct Catalogues {
    cache: LruCache<[u8; 20], Catalogue>,
}

impl Model for Catalogues {
    ghost use Rattle.std.specs.Prelude.{List, ℕ};
    ghost use Rattle.lru.specs.LruCache.{LruCache as Entries};
    ghost use Rattle.cv_rows.specs.Catalogue.{Contents};
    ghost use Rattle.cv_resolver.specs.Kept.{AreKept};

    ghost Value = { Entries (List ℕ) Contents };

    ghost view = { λ c. c.cache };

    ghost invariant = { λ c. AreKept c.cache.entries };
}

impl Catalogues {
    ghost use Rattle.std.specs.Map.{lookup};
    ghost use Rattle.cv_cut.specs.Reached.{FitsPlace};
    ghost use Rattle.cv_resolver.specs.Spot.{place_of};
    ghost use Rattle.cv_resolver.specs.Kept.{Holds, IsKept, used, with_catalogue};

    /// Without a catalogue, and with room for so many.
    pub fn new(alloc: Global, capacity: usize) -> Result<Catalogues, NoMemory>
        requires { 1 ≤ capacity }
        ensures { IfOk result (λ c. c ≡ lru_cache [] capacity) }
    {
        let Some(capacity) = NonZeroUsize::new(capacity) else {
            unreachable!("there is room for one");
        };
        Ok(Catalogues {
            cache: LruCache::sparse(alloc, capacity)?,
        })
    }

    /// The allocator.
    pub fn alloc(&self) -> Global {
        *self.cache.allocator()
    }

    /// Whether the catalogue of a level is there: one of its digest, which stands at its place.
    pub fn holds(&self, level: &Level) -> bool
        ensures { IsTrue result ↔ Holds self.now level.now }
    {
        match self.cache.peek(&level.hash) {
            Some(catalogue) => fits_place(catalogue, &level.path, level.row.as_ref()),
            None => false,
        }
    }

    /// The catalogue of a level, which is there.
    pub fn get(&self, level: &Level) -> &Catalogue
        requires { Holds self.now level.now }
        ensures kept { IsKept level.now.hash result.now }
        ensures place { FitsPlace (place_of level.now) result.now }
        ensures there { lookup (bytes_eq level.now.hash) self.now.entries ≡ Some result.now }
    {
        match self.cache.peek(&level.hash) {
            Some(catalogue) => catalogue,
            None => unreachable!("it is there"),
        }
    }

    /// Puts the catalogue with this digest first.
    pub fn touch(&mut self, hash: [u8; 20])
        ensures { self.new ≡ used self.old hash }
    {
        let _was_there = self.cache.promote(&hash);
    }

    /// Puts a catalogue with its digest first. Where all room is taken, the last goes.
    pub fn put(&mut self, hash: [u8; 20], catalogue: Catalogue) -> Result<(), NoMemory>
        requires { IsKept hash catalogue }
        ensures put { OnOk result (self.new ≡ with_catalogue self.old hash catalogue) }
        ensures unchanged { OnErr result (self.new ≡ self.old) }
    {
        self.cache.put(hash, catalogue)?;
        Ok(())
    }
}
