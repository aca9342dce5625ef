//! A larval state that asks for a state.
ghost use Rattle.std.specs.Prelude.{◌≡◌, ℕ, ◌^◌, ◌<◌, ◌≤◌, Bool, true, false, List, [], ◌∷◌, ◌++◌, None, IsErr, IfErr, IfOk, is_ok, if◌then◌else◌};
ghost use Rattle.xf_types.specs.declared.state.Sa.{Sa};
ghost use Rattle.xf_types.specs.Counters.{next_in};
ghost use Rattle.xf_types.specs.FlowRules as rule;
ghost use Rattle.xf_types.specs.Machine.{Shown};
ghost use Rattle.xf_chain.specs.Lists.{Misses};
ghost use Rattle.xf_index.specs.Indexes.{slots_in};
ghost use Rattle.xf_image.specs.Frames.{Frame};
ghost use Rattle.xf_sadidx.specs.Layout.{Fits, end_of};
ghost use Rattle.xf_sadimage.specs.States.{StatesStand};
ghost use Rattle.xf_sadlist.specs.Listed.{with_state, with_next_seq};
ghost use Rattle.xf_sad.specs.Changes.{IsAt, Comes, new_state};
ghost use Rattle.xf_sad.specs.Replies.{IsRoomFault, ReplyIs, seq_told};
ghost use Rattle.xf_sad.specs.Slots.{PoolFits, listed_in};

use crate::faults::SadFault;
use crate::pool::taken;
use crate::sad::Sad;
use xf_cells::{Cells, Pool};
use xf_sadlist::StateListing;
use xf_types::{Addr, Limits, Policy, SaSpec, Template};

/// The sequence number after one, in cyclic order from 1.
fn seq_after(seq: u32) -> u32
    ensures is { result ≡ next_in rule.last_seq seq }
    ensures some { 1 ≤ result }
{
    if seq == u32::MAX { 1 } else { seq + 1 }
}

/// The larval state that a template of a policy asks for, used at these addresses.
fn acquired_spec(t: &Template, p: &Policy, src: &Addr, dst: &Addr, seq: u32) -> SaSpec
    ensures { result ≡ rule.acquired_spec p.now t.now src.now dst.now seq }
{
    SaSpec {
        src: *src,
        dst: *dst,
        proto: t.proto,
        spi: t.spi,
        mode: t.mode,
        reqid: t.reqid,
        seq,
        mark: p.spec.mark,
        if_id: p.spec.if_id,
        sel: None,
        window: 0,
        in_seq: 0,
        out_seq: 0,
        wildrecv: false,
        esn: false,
        limits: Limits::none(),
    }
}

impl Sad {
    /// Lists a larval state in a slot where none is listed, with another acquire counter.
    fn list_acquired<C: Cells>(&self, c: &mut C, slot: u32, spec: &SaSpec, next: u32, now: u64)
        requires fits { Fits self.now.area (C.size c.old) }
        requires slot { slot < self.now.area.slots }
        requires some { 1 ≤ next }
        ensures size { C.size c.new ≡ C.size c.old }
        ensures begun { C.begun c.new ≡ true }
        ensures rest { C.rest c.new ≡ C.rest c.old }
        ensures frame { Frame self.now.area.base (end_of self.now.area) (C.words c.old) (C.words c.new) }
        ensures stands { (s : Shown) (es : List (ℕ × Sa)) → s.next_sid < 2 ^ 63 → s.time ≡ now → Misses slot (slots_in es) → StatesStand self.now.area (C.words c.old) s es → StatesStand self.now.area (C.words c.new) (with_state (with_next_seq s next) (new_state s (record { spec = spec.now; larval = true }))) (es ++ ((slot, new_state s (record { spec = spec.now; larval = true })) ∷ [])) }
    {
        c.begin();
        (StateListing { area: self.area }).set_next_seq(c, next);
        self.list(c, slot, spec, true, now);
    }

    /// Adds the larval state that a template of a policy asks for, used at these addresses, with the first sequence number that no state has from
    /// the acquire counter on; the counter is then the one after it. It answers the slot, and is Full where it is refused.
    pub fn acquire<C: Cells, P: Pool>(
        &self,
        c: &mut C,
        pool: &mut P,
        t: &Template,
        p: &Policy,
        src: &Addr,
        dst: &Addr,
        now: u64,
    ) -> Result<u32, SadFault>
        requires fits { Fits self.now.area (C.size c.old) }
        requires spent { P.spent pool.old ≡ false }
        requires below { (slot : ℕ) → P.gives pool.old slot → slot < self.now.area.slots }
        ensures size { C.size c.new ≡ C.size c.old }
        ensures rest { C.rest c.new ≡ C.rest c.old }
        ensures capacity { P.capacity pool.new ≡ P.capacity pool.old }
        ensures lasts { P.lasts pool.new ≡ P.lasts pool.old }
        ensures begun { C.begun c.new ≡ (if is_ok result then true else C.begun c.old) }
        ensures refused { IsErr result → C.words c.new ≡ C.words c.old }
        ensures frame { Frame self.now.area.base (end_of self.now.area) (C.words c.old) (C.words c.new) }
        ensures fault { IfErr result IsRoomFault }
        ensures given { IfOk result (λ slot. P.gives pool.old slot) }
        ensures reply { (s : Shown) (es : List (ℕ × Sa)) → IsAt s now → StatesStand self.now.area (C.words c.old) s es → PoolFits (P.capacity pool.old) (P.taken pool.old) (P.gives pool.old) (P.takes pool.old) self.now.area.slots (listed_in self.now.area (C.words c.old)) → ReplyIs (P.held pool.new) s (λ m. (rule.acquired m p.now t.now src.now dst.now).reply) (seq_told self.now.area (C.words c.new)) result }
        ensures stands { (s : Shown) (es : List (ℕ × Sa)) → IsAt s now → StatesStand self.now.area (C.words c.old) s es → PoolFits (P.capacity pool.old) (P.taken pool.old) (P.gives pool.old) (P.takes pool.old) self.now.area.slots (listed_in self.now.area (C.words c.old)) → IfOk result (λ slot. Comes self.now.area (C.words c.new) s es (P.gives pool.old) None slot (rule.acquired s p.now t.now src.now dst.now)) }
        ensures pool { (s : Shown) (es : List (ℕ × Sa)) → P.lasts pool.old ≡ true → IsAt s now → StatesStand self.now.area (C.words c.old) s es → PoolFits (P.capacity pool.old) (P.taken pool.old) (P.gives pool.old) (P.takes pool.old) self.now.area.slots (listed_in self.now.area (C.words c.old)) → PoolFits (P.capacity pool.new) (P.taken pool.new) (P.gives pool.new) (P.takes pool.new) self.now.area.slots (listed_in self.now.area (C.words c.new)) }
    {
        let seq = self.free_seq_here(c);
        let spec = acquired_spec(t, p, src, dst, seq);
        let next = seq_after(seq);
        match taken(pool) {
            Err(fault) => Err(fault),
            Ok(slot) => {
                self.list_acquired(c, slot, &spec, next, now);
                Ok(slot)
            }
        }
    }
}
