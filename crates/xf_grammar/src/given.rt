//! The fields of a line, and which slots were given.
ghost use Rattle.std.specs.Prelude.{◌≡◌, ◌++◌, ◌∷◌, [], ℕ, true, None, Ok};
ghost use Rattle.xf_lex.specs.Gives.{Gives};
ghost use Rattle.xf_grammar.specs.Lookups.{value_in_group};

use crate::row::{Field, Slot};
use std::alloc::Global;
use std::marker::Model;
use xf_lex::LineFault;

/// The fields of a line. Beside them a bit for each slot says that some group has it: most slots that are asked for weren't given.
#[derive(Debug, Drop)]
pub struct Fields {
    list: Vec<Field>,
    slots: u64,
}

impl Model for Fields {
    ghost use Rattle.std.specs.Prelude.{List};
    ghost use Rattle.xf_grammar.specs.declared.row.Field.{Field};

    ghost Value = { List Field };

    ghost use Rattle.xf_grammar.specs.Given.{AreMarked};

    ghost view = { λ f. f.list.items };

    ghost invariant = { λ f. AreMarked f.slots f.list.items };
}

impl Fields {
    /// No fields.
    pub(crate) fn new(alloc: Global) -> Fields
        ensures { result ≡ [] }
    {
        Fields {
            list: Vec::new(alloc),
            slots: 0,
        }
    }

    /// Forgets the fields.
    pub(crate) fn clear(&mut self)
        ensures { self.new ≡ [] }
    {
        self.list.clear();
        self.slots = 0;
    }

    /// Puts one more behind them.
    pub(crate) fn push(&mut self, field: Field) -> Result<(), LineFault>
        ensures { Gives (λ _. self.new) result (Ok (self.old ++ field ∷ [])) }
    {
        self.list.push(field)?;
        self.slots |= 1 << field.slot.number();
        Ok(())
    }

    /// Whether the slot was given in no group.
    pub(crate) fn lacks(&self, slot: Slot) -> bool
        ensures { result ≡ true → (group : ℕ) → value_in_group group slot self.now ≡ None }
    {
        self.slots >> slot.number() & 1 == 0
    }

    pub(crate) fn list(&self) -> &[Field]
        ensures { result.now ≡ self.now }
    {
        &self.list
    }
}
