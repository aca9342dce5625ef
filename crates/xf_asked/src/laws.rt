//! What the tests of words mean.
ghost use Rattle.std.specs.Prelude.{◌≡◌, ℕ, List, Some};
ghost use Rattle.xf_types.specs.declared.network.Addr.{Addr};
ghost use Rattle.xf_types.specs.declared.network.Dir.{Dir};
ghost use Rattle.xf_types.specs.declared.network.Flow.{Flow};
ghost use Rattle.xf_types.specs.declared.network.Mark.{Mark};
ghost use Rattle.xf_types.specs.declared.network.Ptype.{Ptype};
ghost use Rattle.xf_types.specs.declared.network.Selector.{Selector};
ghost use Rattle.xf_types.specs.declared.policy.Policy.{Policy};
ghost use Rattle.xf_types.specs.declared.policy.Template.{Template};
ghost use Rattle.xf_types.specs.declared.state.Sa.{Sa};
ghost use Rattle.xf_types.specs.declared.state.SaId.{SaId};
ghost use Rattle.xf_types.specs.PolicyList.{applies, is_under, has_index};
ghost use Rattle.xf_types.specs.StateList.{has_id};
ghost use Rattle.xf_types.specs.Candidates.{suits};
ghost use Rattle.xf_records.specs.Policies.{policy_at};
ghost use Rattle.xf_records.specs.States.{state_at};
ghost use Rattle.xf_asked.specs.Asked as asked;

/// A law: what a walk asks of the words at a place is what the definitions ask of the record that stands there.
pub fn asked_laws()
    ensures applies { (image : List ℕ) (at : ℕ) (ptype : Ptype) (flow : Flow) (p : Policy) → policy_at image at ≡ Some p → asked.applies_at image at ptype flow ≡ applies ptype flow p }
    ensures under { (image : List ℕ) (at : ℕ) (dir : Dir) (ptype : Ptype) (sel : Selector) (mark : Mark) (if_id : ℕ) (p : Policy) → policy_at image at ≡ Some p → asked.is_under_at image at dir ptype sel mark if_id ≡ is_under dir ptype sel mark if_id p.spec }
    ensures index { (image : List ℕ) (at index : ℕ) (p : Policy) → policy_at image at ≡ Some p → asked.has_index_at image at index ≡ has_index index p }
    ensures id { (image : List ℕ) (at : ℕ) (id : SaId) (s : Sa) → state_at image at ≡ Some s → asked.has_id_at image at id ≡ has_id id s }
    ensures suits { (image : List ℕ) (at : ℕ) (t : Template) (flow : Flow) (src dst : Addr) (s : Sa) → state_at image at ≡ Some s → asked.suits_at image at t flow src dst ≡ suits t flow src dst s }
{}
