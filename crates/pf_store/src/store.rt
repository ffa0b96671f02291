//! The modules of all sources that were read and are held, each with how many hold it.

ghost use Rattle.std.specs.Prelude.{◌≡◌, ◌≤◌, [], IfErr, IfOk, MatchOption, OnErr, OnOk};
ghost use Rattle.pf_check.specs.Reads.{IsRefusalOf};
ghost use Rattle.pf_check.specs.Reading.{IsReadAs};
ghost use Rattle.pf_store.specs.Sources.{HeldOnceLess, HeldOnceMore, holders};

use indexmap::IndexMap;
use pf_check::{ReadModule, Source};
use pf_errors::{NoMemory, OrNoMemory, SourceRefusal};
use std::alloc::Global;
use std::hash::RandomState;
use std::marker::Model;

/// A module that is kept with its source, and how many hold it.
#[derive(Drop)]
struct StoredModule {
    module: ReadModule,
    holders: u64,
}

/// The modules that were read and are held, each under its source. Contracts see the sources, each once, and how many
/// hold each. Random keys keep a look-up from being slow for sources that are chosen to be; what is found doesn't
/// depend on them.
#[derive(Drop)]
pub struct Store {
    modules: IndexMap<Source, StoredModule, RandomState>,
}

impl Model for Store {
    ghost use Rattle.std.specs.Coded.{coded×, coded_list, coded_ℕ};
    ghost use Rattle.pf_store.specs.Sources.{Kept};
    ghost use Rattle.pf_store.specs.Held.{IsValid, kept_in};

    ghost Value = { Kept };

    ghost coded = { coded_list (coded× (coded_list coded_ℕ) coded_ℕ) };

    ghost view = { λ s. kept_in s.modules.entries };

    ghost invariant = { λ s. IsValid s.modules.entries };
}

impl Store {
    /// A store with no module yet, which hashes with these keys.
    pub fn new(alloc: Global, keys: RandomState) -> Store
        ensures { result ≡ [] }
    {
        Store {
            modules: IndexMap::with_hasher(alloc, keys),
        }
    }

    /// One more holds the module that is kept under a source, which comes with the bytes under which it is kept.
    fn hold_once_more(&mut self, source: &Source) -> Result<Option<ReadModule>, NoMemory>
        ensures held { IfOk result (λ found. MatchOption found
            ((holders self.old source.now ≡ 0) × (self.new ≡ self.old))
            (λ s. (s.source ≡ source.now) × IsReadAs source.now s × HeldOnceMore source.now self.old self.new)) }
        ensures err { OnErr result (self.new ≡ self.old) }
    {
        let Some(index) = self.modules.get_index_of(source) else {
            return Ok(None);
        };
        let held = &self.modules[index];
        let Some(holders) = held.holders.checked_add(1) else {
            return Err(NoMemory);
        };
        let module = held.module.share()?;
        self.modules[index].holders = holders;
        Ok(Some(module))
    }

    /// Keeps a module under its source, which one holds.
    fn keep(&mut self, module: &ReadModule) -> Result<(), NoMemory>
        requires read { IsReadAs module.now.source module.now }
        requires new { holders self.old module.now.source ≡ 0 }
        ensures held { OnOk result (HeldOnceMore module.now.source self.old self.new) }
        ensures err { OnErr result (self.new ≡ self.old) }
    {
        let held = StoredModule {
            module: module.share()?,
            holders: 1,
        };
        self.modules.insert(module.source().share()?, held)?;
        Ok(())
    }

    /// The module of a source, with the bytes that are kept, and one more holds it: read and kept where no module of
    /// these bytes is kept yet.
    pub fn take_or_read(
        &mut self,
        alloc: Global,
        source: &Source,
    ) -> Result<ReadModule, OrNoMemory<SourceRefusal>>
        ensures read { IfOk result (λ s. (s.source ≡ source.now) × IsReadAs source.now s) }
        ensures fault { IfErr result (IsRefusalOf source.now) }
        ensures held { OnOk result (HeldOnceMore source.now self.old self.new) }
        ensures err { OnErr result (self.new ≡ self.old) }
    {
        if let Some(kept) = self.hold_once_more(source)? {
            return Ok(kept);
        }
        let module = ReadModule::read(alloc, source)?;
        self.keep(&module)?;
        Ok(module)
    }

    /// One of those who hold the module of a source gives it up. With the last of them the module leaves the store.
    pub fn give_up(&mut self, source: &Source)
        requires { 1 ≤ holders self.old source.now }
        ensures { HeldOnceLess source.now self.old self.new }
    {
        let Some(index) = self.modules.get_index_of(source) else {
            return;
        };
        let holders = self.modules[index].holders;
        if holders > 1 {
            self.modules[index].holders = holders - 1;
        } else {
            self.modules.swap_remove_index(index);
        }
    }
}
