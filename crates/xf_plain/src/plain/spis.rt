//! Requests for a fresh SPI.
ghost use Rattle.std.specs.Prelude.{◌≡◌, ◌≢◌, ◌<◌, ◌^◌, Some, false};
ghost use Rattle.xf_types.specs.StateRules as rule;

use super::Plain;
use xf_types::{AllocSpec, Limits, Reply, SaSpec};

/// The larval state that keeps the SPI until the one that is negotiated comes.
fn larval_spec(spec: &AllocSpec, spi: u32) -> SaSpec
    ensures { result ≡ rule.larval_spec spec.now spi }
{
    SaSpec {
        src: spec.src,
        dst: spec.dst,
        proto: spec.proto,
        spi,
        mode: spec.mode,
        reqid: spec.reqid,
        seq: spec.seq,
        mark: spec.mark,
        if_id: 0,
        sel: None,
        window: 0,
        in_seq: 0,
        out_seq: 0,
        wildrecv: false,
        esn: false,
        limits: Limits::none(),
    }
}

impl Plain {
    ghost use Rattle.xf_types.specs.Machine.{outcome};
    ghost use Rattle.xf_types.specs.Changes.{applied};
    ghost use Rattle.xf_types.specs.History.{is_contended};
    ghost use Rattle.xf_types.specs.StateRules.{alloc_spi, allocated};

    /// Lists a larval state with the free SPI where there is room.
    fn put_larval_if_room(&mut self, spec: &AllocSpec, spi: u32) -> Reply
        requires { self.old.shown.next_sid < 2 ^ 63 }
        ensures answer { result ≢ Reply.NoMemory
            → outcome result self.new ≡ applied self.old (allocated self.old.shown spec.now (Some spi)) }
        ensures memory { result ≡ Reply.NoMemory → self.new ≡ self.old }
        ensures settled { is_contended result ≡ false }
    {
        if self.states.len() >= self.max_states as usize {
            return Reply::Full {
                live: self.states.len() as u32,
                waiting: 0,
            };
        }
        match self.put_larval(&larval_spec(spec, spi)) {
            Ok(sid) => Reply::DoneSpi { spi, sid },
            Err(_) => Reply::NoMemory,
        }
    }

    #[inline(never)]
    pub(super) fn alloc_spi(&mut self, spec: &AllocSpec) -> Reply
        requires { self.old.shown.next_sid < 2 ^ 63 }
        ensures answer { result ≢ Reply.NoMemory
            → outcome result self.new ≡ applied self.old (alloc_spi self.old.shown spec.now) }
        ensures memory { result ≡ Reply.NoMemory → self.new ≡ self.old }
        ensures settled { is_contended result ≡ false }
    {
        if spec.max < spec.min {
            return Reply::Invalid;
        }
        match self.states.free_spi(spec) {
            Err(_) => Reply::NoMemory,
            Ok(None) => Reply::NoSpi,
            Ok(Some(spi)) => self.put_larval_if_room(spec, spi),
        }
    }
}
