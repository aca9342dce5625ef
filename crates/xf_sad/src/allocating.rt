//! A larval state that keeps a fresh SPI until the one that is negotiated comes.
ghost use Rattle.std.specs.Prelude.{◌≡◌, ℕ, ◌<◌, Bool, true, false, nat_lt, List, None, IsErr, IfErr, IfOk, is_ok, if◌then◌else◌};
ghost use Rattle.xf_types.specs.declared.state.Sa.{Sa};
ghost use Rattle.xf_types.specs.Machine.{Shown};
ghost use Rattle.xf_types.specs.StateRules as rule;
ghost use Rattle.xf_image.specs.Frames.{Frame};
ghost use Rattle.xf_sadidx.specs.Layout.{Fits, end_of};
ghost use Rattle.xf_sadimage.specs.States.{StatesStand};
ghost use Rattle.xf_sad.specs.Changes.{IsAt, Comes};
ghost use Rattle.xf_sad.specs.Replies.{IsAllocFault, ReplyIs, spi_told};
ghost use Rattle.xf_sad.specs.Slots.{PoolFits, listed_in};

use crate::faults::SadFault;
use crate::sad::Sad;
use xf_cells::{Cells, Pool};
use xf_types::{AllocSpec, Limits, SaSpec};

/// Whether a range of SPIs is empty.
fn is_empty_range(spec: &AllocSpec) -> bool
    ensures { result ≡ nat_lt spec.now.max spec.now.min }
{
    spec.max < spec.min
}

/// The larval state with an SPI.
fn larval_spec(spec: &AllocSpec, spi: u32) -> SaSpec
    ensures { result ≡ rule.larval_spec spec.now spi }
{
    SaSpec {
        src: spec.src,
        dst: spec.dst,
        proto: spec.proto,
        spi,
        mode: spec.mode,
        reqid: spec.reqid,
        seq: spec.seq,
        mark: spec.mark,
        if_id: 0,
        sel: None,
        window: 0,
        in_seq: 0,
        out_seq: 0,
        wildrecv: false,
        esn: false,
        limits: Limits::none(),
    }
}

impl Sad {
    /// Adds a larval state with the least SPI of a range that no state has, and answers its slot. It is Invalid, NoSpi or Full where it is refused.
    pub fn alloc_spi<C: Cells, P: Pool>(
        &self,
        c: &mut C,
        pool: &mut P,
        spec: &AllocSpec,
        now: u64,
    ) -> Result<u32, SadFault>
        requires fits { Fits self.now.area (C.size c.old) }
        requires spent { P.spent pool.old ≡ false }
        requires below { (slot : ℕ) → P.gives pool.old slot → slot < self.now.area.slots }
        ensures size { C.size c.new ≡ C.size c.old }
        ensures rest { C.rest c.new ≡ C.rest c.old }
        ensures capacity { P.capacity pool.new ≡ P.capacity pool.old }
        ensures lasts { P.lasts pool.new ≡ P.lasts pool.old }
        ensures begun { C.begun c.new ≡ (if is_ok result then true else C.begun c.old) }
        ensures refused { IsErr result → C.words c.new ≡ C.words c.old }
        ensures frame { Frame self.now.area.base (end_of self.now.area) (C.words c.old) (C.words c.new) }
        ensures fault { IfErr result IsAllocFault }
        ensures given { IfOk result (λ slot. P.gives pool.old slot) }
        ensures reply { (s : Shown) (es : List (ℕ × Sa)) → IsAt s now → StatesStand self.now.area (C.words c.old) s es → PoolFits (P.capacity pool.old) (P.taken pool.old) (P.gives pool.old) (P.takes pool.old) self.now.area.slots (listed_in self.now.area (C.words c.old)) → ReplyIs (P.held pool.new) s (λ t. (rule.alloc_spi t spec.now).reply) (spi_told self.now.area (C.words c.new)) result }
        ensures stands { (s : Shown) (es : List (ℕ × Sa)) → IsAt s now → StatesStand self.now.area (C.words c.old) s es → PoolFits (P.capacity pool.old) (P.taken pool.old) (P.gives pool.old) (P.takes pool.old) self.now.area.slots (listed_in self.now.area (C.words c.old)) → IfOk result (λ slot. Comes self.now.area (C.words c.new) s es (P.gives pool.old) None slot (rule.alloc_spi s spec.now)) }
        ensures pool { (s : Shown) (es : List (ℕ × Sa)) → P.lasts pool.old ≡ true → IsAt s now → StatesStand self.now.area (C.words c.old) s es → PoolFits (P.capacity pool.old) (P.taken pool.old) (P.gives pool.old) (P.takes pool.old) self.now.area.slots (listed_in self.now.area (C.words c.old)) → PoolFits (P.capacity pool.new) (P.taken pool.new) (P.gives pool.new) (P.takes pool.new) self.now.area.slots (listed_in self.now.area (C.words c.new)) }
    {
        if is_empty_range(spec) {
            return Err(SadFault::Invalid);
        }
        match self.free_spi_here(c, spec) {
            None => Err(SadFault::NoSpi),
            Some(spi) => {
                let larval = larval_spec(spec, spi);
                self.place(c, pool, None, &larval, true, now)
            }
        }
    }
}
