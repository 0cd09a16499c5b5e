//! Outlines at hand, by name.
ghost use Rattle.std.specs.Prelude.{◌≡◌, [], option_copied, option_map, IfOk};
ghost use Rattle.ix_types.specs.Row.{text_cmp};
ghost use Rattle.ix_pages.specs.Pairs.{look_up, with_pair};
ghost use Rattle.ix_tables.specs.Sharing.{shared_value};

use crate::map::Map;
use ix_outline::Outline;
use ix_types::{FileName, Memory};
use std::alloc::Global;
use std::marker::Model;
use std::sync::Arc;

/// The outlines of records that were loaded, by name, seen as the list of both. Versions share what they have in common.
#[derive(Drop)]
pub struct Outlines {
    map: Map<Outline>,
}

impl Model for Outlines {
    ghost use Rattle.std.specs.Prelude.{List, ℕ};
    ghost use Rattle.ix_outline.specs.declared.outline.Outline.{Outline};

    ghost Value = { List (List ℕ × Outline) };

    ghost view = { λ outlines. outlines.map };
}

impl Outlines {
    /// None. Takes no memory.
    pub fn new() -> Outlines
        ensures { result ≡ [] }
    {
        Outlines { map: Map::empty() }
    }

    /// The outline of a name; None exactly where it isn't at hand. Takes no memory.
    pub fn get(&self, name: &FileName) -> Option<&Arc<Outline>>
        ensures { option_map shared_value (option_copied result) ≡ look_up text_cmp self.now name.now }
    {
        self.map.get(name)
    }

    /// These and one more, in the place of one of that name. These stay.
    pub fn with(
        &self,
        alloc: Global,
        name: FileName,
        outline: Arc<Outline>,
    ) -> Result<Outlines, Memory>
        ensures { IfOk result (λ after. after ≡ with_pair text_cmp self.now (name, shared_value outline)) }
    {
        let map = self.map.with(alloc, name, outline)?;
        Ok(Outlines { map })
    }
}
