#![tactic(auto)]
// The table checker: any words to a good table's layout, or to why they are none, in document 01's order,
// each area in one pass.
pub mod classes;
pub mod find;
pub mod header;
pub mod index;
pub mod nodes;

ghost use Rattle.std.specs.Prelude.{◌≡◌};
ghost use Rattle.meaning.specs.Refused.{number_of};
ghost use Rattle.meaning.specs.Refusal.{areas_refusal};
ghost use Rattle.checker.specs.Opened.{Opened};

use meaning::{Layout, Refusal};
use words::areas::Areas;
use words::header::Header;

// The first area whose rule is broken, if there is one. Kept apart from `check`, it reads where the areas
// start and doesn't work that out anew at each read.
#[inline(never)]
#[tactic(auto, using(crate::proofs::Areas::classes_told, crate::proofs::Areas::nodes_told, crate::proofs::Areas::find_broken, crate::proofs::Areas::class_broken, crate::proofs::Areas::node_broken, crate::proofs::Areas::index_broken, crate::proofs::Areas::none_broken))]
fn check_areas(t: &Areas) -> Result<(), Refusal>
    ensures { number_of result ≡ areas_refusal t.now.words.now t.now.layout }
{
    if !find::good(t) {
        return Err(Refusal::FindList);
    }
    if !classes::good(t) {
        return Err(Refusal::ClassRecords);
    }
    if !nodes::good(t) {
        return Err(Refusal::NodeRecords);
    }
    if !index::good(t) {
        return Err(Refusal::NodeIndex);
    }
    Ok(())
}

// Why any words are no good table, or where the areas of a good one stand.
#[tactic(auto, using(crate::proofs::Whole::counted), unfolding(meaning::specs::Refusal::refusal_of))]
pub fn check(t: &[u32]) -> Result<Layout, Refusal>
    ensures { Opened t.now result }
{
    let header = Header::<9>::of(t).ok_or(Refusal::TableShape)?;
    if !header::good_limits(&header) {
        return Err(Refusal::TableLimits);
    }
    let layout = header::layout(&header);
    if !header::good_shape(&header, layout) {
        return Err(Refusal::TableShape);
    }
    check_areas(&Areas {
        words: header.words,
        layout,
    })?;
    Ok(layout)
}
