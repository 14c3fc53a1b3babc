// Reads the regions and rules of a bank from their tables.
ghost use Rattle.std.specs.Prelude.{◌≡◌};
ghost use Rattle.toml.specs.View.{table_view};
ghost use Rattle.pfr_description.specs.Tables.{hash_named, pages_named, hash_in, pages_in, region_in, rule_in};

use crate::fail::DescWhy;
use crate::field::Field;
use crate::reading::{bytes_at, check_extra, number_at, text_at};
use crate::region::{HashKind, PageUse, RegionDescription};
use crate::smbus::SmbusDescription;
use pfr_flash::Bank;
use toml::Table;

fn hash_named(text: &str) -> Option<Option<HashKind>>
    ensures { result ≡ hash_named text.now }
{
    if text == "none" {
        Some(None)
    } else if text == "sha256" {
        Some(Some(HashKind::Sha256))
    } else if text == "sha384" {
        Some(Some(HashKind::Sha384))
    } else {
        None
    }
}

fn pages_named(text: &str) -> Option<PageUse>
    ensures { result ≡ pages_named text.now }
{
    if text == "copy" {
        Some(PageUse::Copy)
    } else if text == "erase" {
        Some(PageUse::Erase)
    } else if text == "keep" {
        Some(PageUse::Keep)
    } else {
        None
    }
}

fn hash_at(table: &Table, bank: Bank) -> Result<Option<HashKind>, DescWhy>
    ensures { result ≡ hash_in bank (table_view table.now) }
{
    let text = text_at(table, Some(bank), Field::Hash)?;
    hash_named(text).ok_or(DescWhy::Value(Some(bank), Field::Hash))
}

// what a capsule does with the pages: a region with a hash is not kept
fn pages_at(table: &Table, bank: Bank, hash: Option<HashKind>) -> Result<PageUse, DescWhy>
    ensures { result ≡ pages_in bank hash (table_view table.now) }
{
    let text = text_at(table, Some(bank), Field::Pages)?;
    let pages = pages_named(text).ok_or(DescWhy::Value(Some(bank), Field::Pages))?;
    if hash.is_some() && pages == PageUse::Keep {
        return Err(DescWhy::Value(Some(bank), Field::Pages));
    }
    Ok(pages)
}

/// A region of a bank.
pub fn region_at(table: &Table, bank: Bank) -> Result<RegionDescription, DescWhy>
    ensures { result ≡ region_in bank (table_view table.now) }
{
    let start = number_at(table, Some(bank), Field::Start, u32::MAX)?;
    let end = number_at(table, Some(bank), Field::End, u32::MAX)?;
    let mask = number_at(table, Some(bank), Field::Mask, 255)?;
    let hash = hash_at(table, bank)?;
    let pages = pages_at(table, bank, hash)?;
    check_extra(
        table,
        Some(bank),
        &[
            Field::Start,
            Field::End,
            Field::Mask,
            Field::Hash,
            Field::Pages,
        ],
    )?;
    Ok(RegionDescription {
        start,
        end,
        mask: mask as u8,
        hash,
        pages,
    })
}

/// A rule of a bank's SMBus.
pub fn rule_at(table: &Table, bank: Bank) -> Result<SmbusDescription, DescWhy>
    ensures { result ≡ rule_in bank (table_view table.now) }
{
    let bus = number_at(table, Some(bank), Field::Bus, 255)?;
    let rule = number_at(table, Some(bank), Field::Rule, 255)?;
    let address = number_at(table, Some(bank), Field::Address, 255)?;
    let commands = bytes_at(table, Some(bank), Field::Commands)?;
    check_extra(
        table,
        Some(bank),
        &[Field::Bus, Field::Rule, Field::Address, Field::Commands],
    )?;
    Ok(SmbusDescription {
        bus: bus as u8,
        rule: rule as u8,
        address: address as u8,
        commands,
    })
}
