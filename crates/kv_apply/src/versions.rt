//! The versions of the keys.
ghost use Rattle.std.specs.Prelude.{◌≡◌, ◌<◌, ℕ, List, None, Some, OnOk, if◌then◌else◌, bytes_eq};
ghost use Rattle.kv_apply.specs.Services.{followed, present, version_in};

use crate::outcome::Outcome;
use craft_base::OutOfMemory;
use std::alloc::Global;
use std::collections::BTreeMap;

/// The version of each key that is present.
#[derive(Drop)]
pub(crate) struct Versions {
    map: BTreeMap<Vec<u8>, u64>,
}

impl Versions {
    /// No key is present.
    pub fn new(alloc: Global) -> Versions
        ensures { (key : List ℕ) → version_in result key ≡ None }
    {
        Versions {
            map: BTreeMap::new(alloc),
        }
    }

    /// The key's version, 0 where it is absent.
    pub fn at(&self, key: &[u8]) -> u64
        ensures { (version : ℕ) → version_in self.now key.now ≡ present version → result ≡ version }
    {
        self.map.get(key).copied().unwrap_or(0)
    }

    /// Does to the key what a command on it came to.
    pub fn follow(&mut self, alloc: Global, key: &[u8], outcome: Outcome) -> Result<(), OutOfMemory>
        ensures { OnOk result ((other : List ℕ) →
            version_in self.new other ≡ (if bytes_eq key.now other then followed outcome (version_in self.old other) else version_in self.old other)) }
    {
        match outcome {
            Outcome::Done(version) => self.set(alloc, key, version)?,
            Outcome::Gone(_) => self.remove(key),
            _ => {}
        }
        Ok(())
    }

    /// The key is present from now on, in that version.
    fn set(&mut self, alloc: Global, key: &[u8], version: u64) -> Result<(), OutOfMemory>
        ensures { OnOk result ((other : List ℕ) →
            version_in self.new other ≡ (if bytes_eq key.now other then Some version else version_in self.old other)) }
    {
        self.map.insert(key.to_vec(alloc)?, version)?;
        Ok(())
    }

    /// The key is absent from now on.
    fn remove(&mut self, key: &[u8])
        ensures { (other : List ℕ) →
            version_in self.new other ≡ (if bytes_eq key.now other then None else version_in self.old other) }
    {
        let _version = self.map.remove(key);
    }
}
