//! States: security associations and what names them.
ghost use Rattle.std.specs.Prelude.{◌≡◌, List};
ghost use Rattle.xf_types.specs.Facts.{IsSaSpec};

use crate::{Addr, Limits, Mark, Mode, Proto, Selector};
use std::marker::Model;

/// A state as it is asked for.
#[derive(Clone, Copy, PartialEq, Eq, Debug)]
pub struct SaSpec {
    pub src: Addr,
    pub dst: Addr,
    pub proto: Proto,
    pub spi: u32,
    pub mode: Mode,
    pub reqid: u32,
    pub seq: u32,
    pub mark: Mark,
    pub if_id: u32,
    pub sel: Option<Selector>,
    pub window: u32,
    pub in_seq: u64,
    pub out_seq: u64,
    pub wildrecv: bool,
    pub esn: bool,
    pub limits: Limits,
    pub ghost facts: { IsSaSpec window in_seq out_seq esn },
}

/// A state as it is listed.
#[derive(Clone, Copy, PartialEq, Eq, Debug)]
pub struct Sa {
    pub sid: u64,
    pub added: u64,
    pub larval: bool,
    pub dying: bool,
    pub spec: SaSpec,
}

/// What names a state.
#[derive(Clone, Copy, PartialEq, Eq, Debug)]
pub struct SaId {
    pub dst: Addr,
    pub proto: Proto,
    pub spi: u32,
    pub mark: u32,
}

/// Conditions on states, each by equality.
#[derive(Clone, Copy, PartialEq, Eq, Debug)]
pub struct SaFilter {
    pub src: Option<Addr>,
    pub dst: Option<Addr>,
    pub proto: Option<Proto>,
    pub spi: Option<u32>,
    pub mode: Option<Mode>,
    pub reqid: Option<u32>,
}

/// A request for a fresh SPI.
#[derive(Clone, Copy, PartialEq, Eq, Debug)]
pub struct AllocSpec {
    pub src: Addr,
    pub dst: Addr,
    pub proto: Proto,
    pub mode: Mode,
    pub mark: Mark,
    pub reqid: u32,
    pub seq: u32,
    pub min: u32,
    pub max: u32,
}

/// States in the order of their list.
#[derive(Debug, Drop)]
pub struct Sas {
    pub items: Vec<Sa>,
}

impl PartialEq for Sas {
    ghost use lib.Pointwise.{pointwise};
    ghost use Rattle.std.specs.Cmp.Lexicographic.{lists_per};
    ghost use Rattle.xf_types.specs.contracts.state.SaPartialEq.TheImpl as sa;
    ghost use Rattle.xf_types.specs.contracts.state.SaPartialEq.TheImpl.Laws.{laws-law};

    ghost eq = { pointwise sa.eq-value.it };

    ghost laws = { lists_per laws-law };

    fn eq(&self, other: &Sas) -> bool {
        self.items == other.items
    }
}

impl Model for Sas {
    ghost use Rattle.std.specs.Prelude.{List};
    ghost use Rattle.xf_types.specs.declared.state.Sa.{Sa};

    ghost Value = { List Sa };

    ghost view = { λ s. s.items.items };
}

impl Sas {
    /// A list of the states, which is taken over as it is.
    pub fn new(items: Vec<Sa>) -> Sas
        ensures { result ≡ items.items }
    {
        Sas { items }
    }

    pub fn into_vec(self) -> Vec<Sa>
        ensures { result.items ≡ self }
    {
        let Sas { items } = self;
        items
    }

    pub fn as_slice(&self) -> &[Sa]
        ensures { result.now ≡ self.now }
    {
        self.items.as_slice()
    }
}
