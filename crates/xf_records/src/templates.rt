//! A policy's templates, one after the other.
ghost use Rattle.std.specs.Prelude.{◌≡◌, ℕ, ◌+◌, ◌*◌, ◌<◌, ◌≤◌, ◌^◌, List, Option, Some, IfSome, true, length};
ghost use Rattle.xf_cells.specs.Words.{Narrows};
ghost use Rattle.xf_records.specs.Blocks.{stored};
ghost use Rattle.xf_records.specs.Policies as record_of;

use crate::block::{load_all, same_words, store_all};
use crate::parts::{template_of, template_words};
use arrayvec::ArrayVec;
use xf_cells::{Cells, Load};
use xf_types::{Template, Templates};

/// The template that stands at a place.
fn get_template<L: Load>(l: &mut L, at: u32) -> Option<Template>
    requires lies { at + 11 ≤ L.size l.old }
    requires fits { at + 11 < 2 ^ 32 }
    ensures size { L.size l.new ≡ L.size l.old }
    ensures begun { L.begun l.new ≡ L.begun l.old }
    ensures rest { L.rest l.new ≡ L.rest l.old }
    ensures among { Narrows (L.agrees l.old) (L.agrees l.new) }
    ensures loads { L.loads l.new ≤ L.loads l.old + 11 }
    ensures answer { (image : List ℕ) → L.agrees l.new image → result ≡ record_of.template_at image at }
{
    let mut words = [0; 11];
    load_all(l, at, &mut words);
    let template = template_of(&words);
    if same_words(&template_words(&template), &words) {
        Some(template)
    } else {
        None
    }
}

/// As many templates as are asked for, from a place on.
fn get_templates<L: Load>(l: &mut L, at: u32, count: u64) -> Option<Templates>
    requires lies { at + 66 ≤ L.size l.old }
    requires fits { at + 66 < 2 ^ 32 }
    requires count { count ≤ 6 }
    ensures size { L.size l.new ≡ L.size l.old }
    ensures begun { L.begun l.new ≡ L.begun l.old }
    ensures rest { L.rest l.new ≡ L.rest l.old }
    ensures among { Narrows (L.agrees l.old) (L.agrees l.new) }
    ensures loads { L.loads l.new ≤ L.loads l.old + 11 * count }
    ensures number { IfSome result (λ ts. length ts ≡ count) }
    ensures answer { (image : List ℕ) → L.agrees l.new image → result ≡ record_of.templates_at image at count }
{
    let mut items: ArrayVec<Template, 6> = ArrayVec::new();
    let mut place = at;
    'templates: for _read in 0..count {
        items.push(get_template(l, place)?);
        place += 11;
    }
    Some(Templates { items })
}

/// As many templates as the count says, at most 6.
pub(crate) fn get_counted<L: Load>(l: &mut L, at: u32, count: u64) -> Option<Templates>
    requires lies { at + 66 ≤ L.size l.old }
    requires fits { at + 66 < 2 ^ 32 }
    ensures size { L.size l.new ≡ L.size l.old }
    ensures begun { L.begun l.new ≡ L.begun l.old }
    ensures rest { L.rest l.new ≡ L.rest l.old }
    ensures among { Narrows (L.agrees l.old) (L.agrees l.new) }
    ensures loads { L.loads l.new ≤ L.loads l.old + 66 }
    ensures counted { L.loads l.new ≤ L.loads l.old + 11 * count }
    ensures number { IfSome result (λ ts. length ts ≡ count) }
    ensures answer { (image : List ℕ) → L.agrees l.new image → result ≡ record_of.templates_counted image at count }
{
    if count <= 6 {
        get_templates(l, at, count)
    } else {
        None
    }
}

/// Puts templates from a place on.
pub(crate) fn put_templates<C: Cells>(c: &mut C, at: u32, templates: &[Template])
    requires begun { C.begun c.old ≡ true }
    requires lies { at + 66 ≤ C.size c.old }
    requires fits { at + 66 < 2 ^ 32 }
    requires count { length templates.now ≤ 6 }
    ensures size { C.size c.new ≡ C.size c.old }
    ensures begun { C.begun c.new ≡ true }
    ensures rest { C.rest c.new ≡ C.rest c.old }
    ensures loads { C.loads c.new ≡ C.loads c.old }
    ensures words { C.words c.new ≡ stored (C.words c.old) at (record_of.templates_words templates.now) }
    ensures fits { record_of.TemplatesFit templates.now }
{
    let mut place = at;
    'templates: for template in templates {
        store_all(c, place, &template_words(template));
        place += 11;
    }
}
