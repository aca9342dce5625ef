//! The split of one chain in two.
ghost use Rattle.std.specs.Prelude.{◌≡◌, ℕ, ◌+◌, ◌<◌, ◌≤◌, true, List, Option};
ghost use Rattle.xf_chain.specs.Families.{Lays};
ghost use Rattle.xf_chain.specs.Lists.{Apart, Within};
ghost use Rattle.xf_index.specs.Indexes.{slots_in, Indexed, Holds};
ghost use Rattle.xf_doubling.specs.Heads.{IsDoubling, head_of};
ghost use Rattle.xf_doubling.specs.Splits.{split_of};
ghost use Rattle.xf_doubling.specs.DoublingLaws.{RestsOutside, Splits};

use crate::doubling::Doubling;
use crate::keys::Keys;
use crate::turn::Turn;
use xf_cells::Cells;
use xf_chain::Family;

/// Splits the next one of the old heads in two: those of its slots whose hash goes by twice as many heads leave it, and all keep their order.
pub fn split<C: Cells, K: Keys>(family: &Family, c: &mut C, keys: &K, d: Doubling)
    requires begun { C.begun c.old ≡ true }
    requires lays { Lays family.now (C.size c.old) }
    requires lies { K.lies keys.now (C.size c.old) }
    requires slots { K.slots keys.now ≡ family.now.slots }
    requires is { IsDoubling d.half d.moved }
    requires pending { d.moved < d.half }
    requires heads { d.half + d.half ≤ family.now.count }
    ensures size { C.size c.new ≡ C.size c.old }
    ensures begun { C.begun c.new ≡ true }
    ensures rest { C.rest c.new ≡ C.rest c.old }
    ensures words { C.words c.new ≡ split_of family.now d.half d.moved (K.key keys.now) (C.words c.old) }
    ensures index { (entries : List (ℕ × Option ℕ)) → RestsOutside family.now (K.key keys.now) → Apart (slots_in entries) → Within family.now.slots (slots_in entries) → Holds (K.key keys.now (C.words c.old)) (λ key. key) entries → Indexed family.now (C.words c.old) (λ key. head_of d.half d.moved key) entries → Splits family.now d.half d.moved (λ key. key) (C.words c.old) (C.words c.new) entries }
{
    let size = c.size();
    let low = family.chain(d.moved, size);
    let high = family.chain(d.half + d.moved, size);
    let at = low.first(c);
    let mut turn = Turn {
        at,
        last: None,
        other: None,
        left: family.slots,
    };
    'slots: while turn.step(c, keys, &low, &high, d) {}
}
