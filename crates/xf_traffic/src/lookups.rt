//! The state that a packet or an output is for.
ghost use Rattle.std.specs.Prelude.{◌≡◌, ℕ, ◌+◌, ◌*◌, ◌≤◌, List};
ghost use Rattle.xf_types.specs.declared.state.Sa.{Sa};
ghost use Rattle.xf_types.specs.Machine.{Shown};
ghost use Rattle.xf_types.specs.StateList.{has_id, has_sid};
ghost use Rattle.xf_types.specs.TrafficRules as rule;
ghost use Rattle.xf_cells.specs.Words.{Narrows};
ghost use Rattle.xf_chain.specs.Chains.{Below};
ghost use Rattle.xf_sadidx.specs.declared.kind.Kind.TheVariants.{Spi};
ghost use Rattle.xf_sadidx.specs.Founds.{bucket_size};
ghost use Rattle.xf_sadidx.specs.Keys.{spi_hash};
ghost use Rattle.xf_sadimage.specs.States.{StatesStand};
ghost use Rattle.xf_rows.specs.Layouts.{Fits};
ghost use Rattle.xf_traffic.specs.Found.{IsLatest, IsFirst};

use xf_cells::{Cells, Load};
use xf_held::id_of_packet;
use xf_parts::Parts;
use xf_rows::Layout;
use xf_sadfind::StateFinder;
use xf_sadidx::SadIndex;
use xf_types::Packet;

/// The slot of the state that a packet is for: the last one that its id names.
pub fn packet_slot<L: Load>(layout: &Layout, l: &mut L, packet: &Packet) -> Option<u32>
    requires { Fits layout.now (L.size l.old) }
    ensures size { L.size l.new ≡ L.size l.old }
    ensures begun { L.begun l.new ≡ L.begun l.old }
    ensures rest { L.rest l.new ≡ L.rest l.old }
    ensures among { Narrows (L.agrees l.old) (L.agrees l.new) }
    ensures most { L.loads l.new ≤ L.loads l.old + 4 + 50 * layout.now.states.slots }
    ensures few { (image : List ℕ) (s : Shown) (entries : List (ℕ × Sa)) → L.agrees l.new image → StatesStand layout.now.states image s entries → L.loads l.new ≤ L.loads l.old + 4 + 50 * bucket_size layout.now.states image Spi (spi_hash packet.now.dst packet.now.spi packet.now.proto) entries }
    ensures slot { Below layout.now.states.slots result }
    ensures found { (image : List ℕ) → L.agrees l.new image → IsLatest layout.now.states image (has_id (rule.id_of_packet packet.now)) result }
{
    (SadIndex {
        area: layout.states,
    })
    .living(l, &id_of_packet(packet))
}

/// The slot of the state with a state id, which an output is for. A right guess at the slot saves the walk along all states.
pub fn output_slot<L: Load>(layout: &Layout, l: &mut L, sid: u64, guess: Option<u32>) -> Option<u32>
    requires fits { Fits layout.now (L.size l.old) }
    requires guess { Below layout.now.states.slots guess }
    ensures size { L.size l.new ≡ L.size l.old }
    ensures begun { L.begun l.new ≡ L.begun l.old }
    ensures rest { L.rest l.new ≡ L.rest l.old }
    ensures among { Narrows (L.agrees l.old) (L.agrees l.new) }
    ensures most { L.loads l.new ≤ L.loads l.old + 12 + 3 * layout.now.states.slots }
    ensures slot { Below layout.now.states.slots result }
    ensures found { (image : List ℕ) → L.agrees l.new image → IsFirst layout.now.states image (has_sid sid) result }
{
    (StateFinder {
        area: layout.states,
    })
    .by_sid_near(l, sid, guess)
}

/// The slot of the state that a packet is for, in words that stand still.
pub(crate) fn packet_slot_here<D: Parts>(
    layout: &Layout,
    parts: &mut D,
    packet: &Packet,
) -> Option<u32>
    requires { Fits layout.now (D.size parts.old) }
    ensures size { D.size parts.new ≡ D.size parts.old }
    ensures begun { D.begun parts.new ≡ D.begun parts.old }
    ensures words { D.words parts.new ≡ D.words parts.old }
    ensures hidden { D.hidden parts.new ≡ D.hidden parts.old }
    ensures beside { D.beside parts.new ≡ D.beside parts.old }
    ensures slot { Below layout.now.states.slots result }
    ensures found { IsLatest layout.now.states (D.words parts.old) (has_id (rule.id_of_packet packet.now)) result }
{
    packet_slot(layout, parts, packet)
}

/// The slot of the state that an output is for, in words that stand still.
pub(crate) fn output_slot_here<D: Parts>(
    layout: &Layout,
    parts: &mut D,
    sid: u64,
    guess: Option<u32>,
) -> Option<u32>
    requires fits { Fits layout.now (D.size parts.old) }
    requires guess { Below layout.now.states.slots guess }
    ensures size { D.size parts.new ≡ D.size parts.old }
    ensures begun { D.begun parts.new ≡ D.begun parts.old }
    ensures words { D.words parts.new ≡ D.words parts.old }
    ensures hidden { D.hidden parts.new ≡ D.hidden parts.old }
    ensures beside { D.beside parts.new ≡ D.beside parts.old }
    ensures slot { Below layout.now.states.slots result }
    ensures found { IsFirst layout.now.states (D.words parts.old) (has_sid sid) result }
{
    output_slot(layout, parts, sid, guess)
}
