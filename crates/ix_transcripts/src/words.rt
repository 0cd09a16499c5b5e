//! The words of codes.
ghost use Rattle.std.specs.Prelude.{◌≡◌, ◌++◌, OnOk};
ghost use Rattle.ix_types.specs.Codes.{kinds, langs};
ghost use Rattle.ix_replays.specs.Text.{word_of, role_names, props_words};

use crate::append::append;
use ix_types::{Kind, Lang, Memory, Props, Roles};

/// The name of a kind.
#[tactic(auto)]
pub(crate) fn kind_word(kind: Kind) -> &'static str
    ensures { result.now ≡ word_of kinds kind }
{
    kind.name()
}

/// The name of a language.
#[tactic(auto)]
pub(crate) fn lang_word(lang: Lang) -> &'static str
    ensures { result.now ≡ word_of langs lang }
{
    lang.name()
}

/// Appends the names of the roles that are set, joined by a plus.
pub(crate) fn append_roles(out: &mut Vec<u8>, set: Roles) -> Result<(), Memory>
    ensures { OnOk result (out.new.items ≡ out.old.items ++ role_names set) }
{
    set.push_names(out)
}

/// Appends the names of the properties that are set, joined by a plus, or a dash for none.
#[tactic(auto)]
pub(crate) fn append_props(out: &mut Vec<u8>, set: Props) -> Result<(), Memory>
    ensures { OnOk result (out.new.items ≡ out.old.items ++ props_words set) }
{
    if set.bits() == 0 {
        return append(out, b"-");
    }
    set.push_names(out)
}
