// Reads what a bank's table may lack: the staged file's name, and the lists of regions and rules.
ghost use Rattle.std.specs.Prelude.{◌≡◌, Some, Ok, Err, MatchResult, map, option_map, string_bytes};
ghost use Rattle.toml.specs.Data.{no_items};
ghost use Rattle.toml.specs.View.{table_view, items_view};
ghost use Rattle.pfr_description.specs.Lists.{absent_is, list_in, staged_in, tables_in, regions_in, rules_in};
ghost use Rattle.pfr_description.specs.Whole.{Reads, ReadsAs};

use crate::entries::{region_at, rule_at};
use crate::fail::{DescFail, DescWhy};
use crate::field::Field;
use crate::reading::{text_at, value_at};
use crate::region::RegionDescription;
use crate::smbus::SmbusDescription;
use pfr_flash::Bank;
use std::alloc::Global;
use toml::{Table, Value};

/// The name of the file that is staged, if one is.
#[tactic(auto, unfolding(crate::specs::Lists::staged_in))]
pub fn staged_at(alloc: Global, table: &Table, bank: Bank) -> Result<Option<String>, DescFail>
    ensures { ReadsAs (λ name. option_map (λ text. string_bytes text) name) result (staged_in bank (table_view table.now)) }
{
    match text_at(table, Some(bank), Field::Staged) {
        Ok(text) => Ok(Some(String::from_str(alloc, text)?)),
        Err(DescWhy::Missing(_, _)) => Ok(None),
        Err(why) => Err(DescFail::Why(why)),
    }
}

// the values of a list, which is empty where it is absent
fn list_at(table: &Table, bank: Bank, key: Field) -> Result<&[Value], DescWhy>
    ensures { MatchResult result (λ values. absent_is no_items (list_in (Some bank) key (table_view table.now)) ≡ Ok (items_view values.now)) (λ why. absent_is no_items (list_in (Some bank) key (table_view table.now)) ≡ Err why) }
{
    match value_at(table, Some(bank), key) {
        Ok(value) => match value.as_array() {
            Some(values) => Ok(values.as_slice()),
            None => Err(DescWhy::Kind(Some(bank), key)),
        },
        Err(DescWhy::Missing(_, _)) => Ok(&[]),
        Err(why) => Err(why),
    }
}

// the tables of a list
#[tactic(auto, unfolding(crate::specs::Lists::tables_in))]
fn tables_at(alloc: Global, table: &Table, bank: Bank, key: Field) -> Result<Vec<&Table>, DescFail>
    ensures { ReadsAs (λ tables. map (λ inner. table_view inner.now) tables.items) result (tables_in (Some bank) key (table_view table.now)) }
{
    let values = list_at(table, bank, key)?;
    let mut tables = Vec::new(alloc);
    for value in values {
        let inner = value.as_table().ok_or(DescWhy::Kind(Some(bank), key))?;
        tables.push(inner)?;
    }
    Ok(tables)
}

/// The regions of a bank, in the order of the list.
#[tactic(auto, unfolding(crate::specs::Lists::regions_in))]
pub fn regions_at(
    alloc: Global,
    table: &Table,
    bank: Bank,
) -> Result<Vec<RegionDescription>, DescFail>
    ensures { ReadsAs (λ regions. regions.items) result (regions_in bank (table_view table.now)) }
{
    let tables = tables_at(alloc, table, bank, Field::Regions)?;
    let mut regions = Vec::new(alloc);
    for inner in &tables {
        regions.push(region_at(inner, bank)?)?;
    }
    Ok(regions)
}

/// The SMBus rules of a bank, in the order of the list.
#[tactic(auto, unfolding(crate::specs::Lists::rules_in))]
pub fn rules_at(alloc: Global, table: &Table, bank: Bank) -> Result<Vec<SmbusDescription>, DescFail>
    ensures { ReadsAs (λ rules. rules.items) result (rules_in bank (table_view table.now)) }
{
    let tables = tables_at(alloc, table, bank, Field::Smbus)?;
    let mut rules = Vec::new(alloc);
    for inner in &tables {
        rules.push(rule_at(inner, bank)?)?;
    }
    Ok(rules)
}
