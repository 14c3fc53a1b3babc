// Reads a bank from its table.
ghost use Rattle.std.specs.Prelude.{◌≡◌, string_bytes};
ghost use Rattle.toml.specs.View.{table_view};
ghost use Rattle.pfr_description.specs.Keys.{text_in};
ghost use Rattle.pfr_description.specs.Whole.{Reads, ReadsAs, identity_in, signers_in, table_of, judge_bank, bank_in};

use crate::bank_description::BankDescription;
use crate::fail::{DescFail, DescWhy};
use crate::field::Field;
use crate::identity::Identity;
use crate::keys::KeyDescription;
use crate::lists::{regions_at, rules_at, staged_at};
use crate::reading::{bytes_at, check_extra, number_at, table_at, text_at};
use crate::tables::{layout_at, signer_at};
use pfr_flash::Bank;
use std::alloc::Global;
use toml::Table;

#[tactic(auto, unfolding(crate::specs::Whole::identity_in))]
fn identity_at(table: &Table, bank: Bank) -> Result<Identity, DescWhy>
    ensures { result ≡ identity_in bank (table_view table.now) }
{
    let bank = Some(bank);
    let size = number_at(table, bank, Field::Size, u32::MAX)?;
    let svn = number_at(table, bank, Field::Svn, 127)?;
    let bkc = number_at(table, bank, Field::Bkc, 255)?;
    let revision = bytes_at(table, bank, Field::Revision)?;
    let oem = bytes_at(table, bank, Field::Oem)?;
    Ok(Identity {
        size,
        svn: svn as u8,
        bkc: bkc as u8,
        revision,
        oem,
    })
}

// the keys that sign the manifest and the capsule
#[tactic(auto, unfolding(crate::specs::Whole::signers_in))]
fn signers_at(table: &Table, bank: Bank) -> Result<(KeyDescription, KeyDescription), DescWhy>
    ensures { result ≡ signers_in bank (table_view table.now) }
{
    let (manifest_bit, capsule_bit) = match bank {
        Bank::Bmc => (2, 3),
        Bank::Pch => (0, 1),
    };
    let manifest_key = signer_at(table, bank, Field::ManifestKey, manifest_bit)?;
    let capsule_key = signer_at(table, bank, Field::CapsuleKey, capsule_bit)?;
    Ok((manifest_key, capsule_key))
}

// the name of the file that holds the image
fn image_at(alloc: Global, table: &Table, bank: Bank) -> Result<String, DescFail>
    ensures { ReadsAs (λ name. string_bytes name) result (text_in (Some bank) Field.Image (table_view table.now)) }
{
    let text = text_at(table, Some(bank), Field::Image)?;
    Ok(String::from_str(alloc, text)?)
}

// what a bank's table says, whatever further keys it has
#[tactic(auto, unfolding(crate::specs::Whole::judge_bank))]
fn read_bank(alloc: Global, table: &Table, bank: Bank) -> Result<BankDescription, DescFail>
    ensures { Reads result (judge_bank bank (table_view table.now)) }
{
    let image = image_at(alloc, table, bank)?;
    let identity = identity_at(table, bank)?;
    let layout = layout_at(table, bank)?;
    let (manifest_key, capsule_key) = signers_at(table, bank)?;
    let staged = staged_at(alloc, table, bank)?;
    let regions = regions_at(alloc, table, bank)?;
    let smbus = rules_at(alloc, table, bank)?;
    let (revision, oem) = (identity.revision, identity.oem);
    Ok(BankDescription {
        image,
        size: identity.size,
        svn: identity.svn,
        bkc: identity.bkc,
        revision,
        oem,
        layout,
        manifest_key,
        capsule_key,
        staged,
        regions,
        smbus,
    })
}

// how the top table calls a bank's
fn table_of(bank: Bank) -> Field
    ensures { result ≡ table_of bank }
{
    match bank {
        Bank::Bmc => Field::Bmc,
        Bank::Pch => Field::Pch,
    }
}

const BANK_KEYS: [Field; 16] = [
    Field::Image,
    Field::Size,
    Field::Svn,
    Field::Bkc,
    Field::Revision,
    Field::Oem,
    Field::ManifestAt,
    Field::ManifestLen,
    Field::RecoveryAt,
    Field::StagingAt,
    Field::AreaLen,
    Field::ManifestKey,
    Field::CapsuleKey,
    Field::Staged,
    Field::Regions,
    Field::Smbus,
];

/// A bank of the top table.
#[tactic(auto, unfolding(crate::specs::Whole::bank_in))]
pub fn bank_at(alloc: Global, top: &Table, bank: Bank) -> Result<BankDescription, DescFail>
    ensures { Reads result (bank_in bank (table_view top.now)) }
{
    let table = table_at(top, None, table_of(bank))?;
    let part = read_bank(alloc, table, bank)?;
    check_extra(table, Some(bank), &BANK_KEYS)?;
    Ok(part)
}
