//! A map from windows.
ghost use Rattle.std.specs.Prelude.{◌≡◌, IfOk, OnOk, OnErr};
ghost use Rattle.std.specs.FinMap as map;

use std::alloc::{AllocError, Global};
use std::collections::HashMap;
use std::marker::Model;
use tks_tree::WindowId;

/// A finite map from windows, by their numbers.
#[derive(Drop)]
pub struct ByWindow<V> {
    entries: HashMap<u64, V>,
}

impl<V> Model for ByWindow<V> {
    ghost use Rattle.std.specs.FinMap as map;
    ghost use Rattle.std.specs.Ordering.{nat_cmp};
    ghost use Rattle.std.specs.Coded.{coded_ℕ};

    ghost Value = { map.FinMap nat_cmp V };

    ghost coded = { map.code coded_ℕ V.code };

    ghost view = { λ m. map.from_entries m.entries.entries };
}

impl<V: Copy> ByWindow<V> {
    /// The empty map, with room for so many windows.
    pub fn with_capacity(alloc: Global, capacity: usize) -> Result<ByWindow<V>, AllocError>
        ensures { IfOk result (λ m. m ≡ map.empty) }
    {
        Ok(ByWindow {
            entries: HashMap::with_capacity(alloc, capacity)?,
        })
    }

    /// What is known of a window.
    pub fn get(&self, window: WindowId) -> Option<V>
        ensures { result ≡ map.get self.now window }
    {
        self.entries.get(&window.number()).copied()
    }

    /// Keeps what is known of a window, in the place of what was.
    pub fn insert(&mut self, window: WindowId, value: V) -> Result<(), AllocError>
        ensures ok { OnOk result (self.new ≡ map.insert self.old window value) }
        ensures err { OnErr result (self.new ≡ self.old) }
    {
        self.entries.insert(window.number(), value)?;
        Ok(())
    }
}
