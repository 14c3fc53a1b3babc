// Reads a whole description.
ghost use Rattle.std.specs.Prelude.{◌≡◌};
ghost use Rattle.toml.specs.View.{table_view};
ghost use Rattle.pfr_description.specs.Whole.{Reads, ReadsAs, document_in, judge_top, judge_description};

use crate::bank_table::bank_at;
use crate::description::Description;
use crate::fail::{DescFail, DescWhy};
use crate::field::Field;
use crate::reading::check_extra;
use crate::tables::{curve_at, form_at, root_at};
use pfr_flash::Bank;
use std::alloc::Global;
use toml::Table;

// the top table of a text
#[tactic(auto, unfolding(crate::specs::Whole::document_in))]
fn document(alloc: Global, text: &[u8]) -> Result<Table, DescFail>
    ensures { ReadsAs table_view result (document_in text.now) }
{
    match toml::table_from_slice(alloc, text) {
        Ok(table) => Ok(table),
        Err(fault) if fault.is_memory() => Err(DescFail::NoMemory),
        Err(_) => Err(DescFail::Why(DescWhy::Toml)),
    }
}

#[tactic(auto, unfolding(crate::specs::Whole::judge_top))]
fn read_top(alloc: Global, top: &Table) -> Result<Description, DescFail>
    ensures { Reads result (judge_top (table_view top.now)) }
{
    let curve = curve_at(top)?;
    let form = form_at(top)?;
    check_extra(
        top,
        None,
        &[
            Field::Curve,
            Field::Form,
            Field::Root,
            Field::Bmc,
            Field::Pch,
        ],
    )?;
    let root = root_at(top)?;
    let bmc = bank_at(alloc, top, Bank::Bmc)?;
    let pch = bank_at(alloc, top, Bank::Pch)?;
    Ok(Description::new(curve, form, root, bmc, pch))
}

/// Reads a description: a TOML document in UTF-8 that says what a platform and its firmware are.
///
/// Its keys are judged in order, the top table's before the root's, the BMC's and the PCH's. The integers are in their
/// keys' ranges, and sizes and places count bytes. `Err(Why(why))` names the first rule that the text breaks, and
/// `Err(NoMemory)` says nothing of the text.
#[tactic(auto, unfolding(crate::specs::Whole::judge_description))]
pub fn read_description(alloc: Global, text: &[u8]) -> Result<Description, DescFail>
    ensures exact { Reads result (judge_description text.now) }
{
    let top = document(alloc, text)?;
    read_top(alloc, &top)
}
