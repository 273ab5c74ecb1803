//! What a text leaves in doubt.

ghost use Rattle.std.specs.Prelude.{◌≡◌, IfOk};
ghost use Rattle.vcm_doubts.specs.Doubts.{doubts_of};

use crate::loose::loose_in;
use crate::names::{
    have_word, is_among, is_word, names_in, set_within, sets_parameters, shared_within,
};
use crate::reach::{Marked, has_reached, labels_of};
use crate::respelled::twice_in;
use crate::splitting::splits;
use std::alloc::Global;
use std::marker::Model;
use vcm_forms::Statement;
use vcm_items::Name;
use vcm_lines::Logical;
use vcm_num::{Items, NoMemory};

/// What a text leaves in doubt. Contracts see it as the `Doubts` of the definitions.
#[derive(Drop)]
pub(crate) struct Doubts {
    /// The names that it spells in two ways.
    spelled: Items<Items<u8>>,
    /// A parameter of a macro is one of these.
    twofold: bool,
    /// The variables that its macros share with other programs.
    shared: Items<Name>,
    /// The variables that statements within macros set.
    changed: Items<Name>,
    /// A parameter of a macro is one of these.
    parameters: bool,
    /// The parameters that macros have in quotes, and without them in no label.
    loose: Items<Items<u8>>,
    /// A word of it may split a block.
    splits: bool,
    /// Its jump labels.
    labels: Items<Marked>,
}

impl Model for Doubts {
    ghost use Rattle.vcm_doubts.specs.Doubts.{Doubts as Meaning};

    ghost Value = { Meaning };

    ghost view = { λ d. record { spelled = d.spelled; twofold = d.twofold; shared = d.shared; set = d.changed; parameters = d.parameters; loose = d.loose; splits = d.splits; labels = d.labels } };
}

impl Doubts {
    ghost use Rattle.std.specs.Prelude.{◌||◌};
    ghost use Rattle.vcm_doubts.specs.inner.Instead.{are_names};
    ghost use Rattle.vcm_doubts.specs.Doubts.{doubts_of, is_among, is_in_reach};
    ghost use Rattle.vcm_doubts.specs.Settled.{is_unfollowed};

    /// What a text leaves in doubt, whose statements say this.
    ///
    /// # Errors
    ///
    /// Out of memory.
    #[tactic(auto, unfolding(crate::specs::Doubts::doubts_of))]
    pub(crate) fn of(
        alloc: Global,
        text: &[u8],
        lines: &[Logical],
        said: &[Statement],
    ) -> Result<Doubts, NoMemory>
        ensures { IfOk result (λ d. d ≡ doubts_of text.now lines.now said.now) }
    {
        let names = names_in(alloc, said)?;
        let spelled = twice_in(alloc, text, names.as_slice())?;
        let twofold = have_word(spelled.as_slice(), said);
        let shared = shared_within(alloc, lines, said)?;
        let changed = set_within(alloc, said)?;
        let parameters = sets_parameters(changed.as_slice(), said);
        let loose = loose_in(alloc, lines)?;
        let labels = labels_of(alloc, said)?;
        Ok(Doubts {
            spelled,
            twofold,
            shared,
            changed,
            parameters,
            loose,
            splits: splits(lines),
            labels,
        })
    }

    /// Whether names are spelled in two ways.
    pub(crate) fn has_spelled(&self) -> bool
        ensures { result ≡ are_names self.now.spelled }
    {
        match self.spelled.as_slice() {
            [] => false,
            _ => true,
        }
    }

    /// Whether a parameter of a macro is spelled in two ways.
    pub(crate) fn is_twofold(&self) -> bool
        ensures { result ≡ self.now.twofold }
    {
        self.twofold
    }

    /// Whether a name is spelled in two ways.
    pub(crate) fn is_spelled_twice(&self, name: &[u8]) -> bool
        ensures { result ≡ is_among self.now.spelled name.now }
    {
        is_word(self.spelled.as_slice(), name)
    }

    /// Whether the value of a variable isn't followed: its name is spelled in two ways, or macros share it.
    pub(crate) fn is_unfollowed(&self, name: &[u8]) -> bool
        ensures { result ≡ is_unfollowed self.now name.now }
    {
        self.is_spelled_twice(name) || is_among(self.shared.as_slice(), name)
    }

    /// Whether a variable has another value by name than by value, where it is an argument.
    pub(crate) fn is_changed(&self, name: &[u8]) -> bool
        ensures { result ≡ (self.now.parameters || is_among self.now.set name.now) }
    {
        self.parameters || is_among(self.changed.as_slice(), name)
    }

    /// The parameters that macros have in quotes, and without them in no label.
    pub(crate) fn loose(&self) -> &[Items<u8>]
        ensures { result.now ≡ self.now.loose }
    {
        self.loose.as_slice()
    }

    /// Whether a word may split a block.
    pub(crate) fn splits(&self) -> bool
        ensures { result ≡ self.now.splits }
    {
        self.splits
    }

    /// Whether a jump in these blocks goes to a label in one of them.
    pub(crate) fn reaches(&self, blocks: &[u32], name: &[u8]) -> bool
        ensures { result ≡ is_in_reach self.now.labels blocks.now name.now }
    {
        has_reached(self.labels.as_slice(), blocks, name)
    }
}
