//! The words of symbols, by their tables.
ghost use Rattle.std.specs.Prelude.{◌≡◌};
ghost use Rattle.ix_types.specs.Codes as tables;

use ix_types::{CodeTable, kinds, langs, props, roles};
use std::marker::Model;

/// The tables of words, made once for all look-ups.
#[derive(Drop)]
pub struct Words {
    kinds: CodeTable<28>,
    langs: CodeTable<4>,
    roles: CodeTable<19>,
    props: CodeTable<9>,
}

impl Model for Words {
    ghost use Rattle.std.specs.Prelude.{⊤};
    ghost use Rattle.ix_plan.specs.Tables.{AreTables};

    ghost Value = { ⊤ };

    ghost view = { λ w. tt };

    ghost invariant = { λ w. AreTables w.kinds w.langs w.roles w.props };
}

impl Words {
    /// All tables.
    pub fn new() -> Words {
        Words {
            kinds: kinds(),
            langs: langs(),
            roles: roles(),
            props: props(),
        }
    }

    /// The code of a kind.
    pub fn kind(&self, word: &str) -> Option<u32>
        ensures { result ≡ tables.code_of_name tables.kinds word.now }
    {
        self.kinds.code_of(word.as_bytes())
    }

    /// The code of a language.
    pub fn lang(&self, word: &str) -> Option<u32>
        ensures { result ≡ tables.code_of_name tables.langs word.now }
    {
        self.langs.code_of(word.as_bytes())
    }

    /// The number of the bit of a role or a relation.
    pub fn role(&self, word: &str) -> Option<u32>
        ensures { result ≡ tables.code_of_name tables.roles word.now }
    {
        self.roles.code_of(word.as_bytes())
    }

    /// The number of the bit of a property.
    pub fn prop(&self, word: &str) -> Option<u32>
        ensures { result ≡ tables.code_of_name tables.props word.now }
    {
        self.props.code_of(word.as_bytes())
    }
}
