// Reads the parts of a description from its tables.
ghost use Rattle.std.specs.Prelude.{◌≡◌, ◌<◌};
ghost use Rattle.toml.specs.View.{table_view};
ghost use Rattle.pfr_description.specs.Tables.{curve_of, curve_in, form_of, form_in, point_in, root_in, signer_in, layout_in};

use crate::fail::DescWhy;
use crate::field::Field;
use crate::form::Form;
use crate::keys::{KeyDescription, PublicKey};
use crate::reading::{bytes_at, check_extra, number_at, table_at};
use pfr_engine::Curve;
use pfr_flash::{Bank, Layout};
use toml::Table;

fn curve_of(number: u32) -> Option<Curve>
    ensures { result ≡ curve_of number }
{
    match number {
        256 => Some(Curve::C256),
        384 => Some(Curve::C384),
        _ => None,
    }
}

/// The curve that the top table names.
pub fn curve_at(table: &Table) -> Result<Curve, DescWhy>
    ensures { result ≡ curve_in (table_view table.now) }
{
    let number = number_at(table, None, Field::Curve, u32::MAX)?;
    curve_of(number).ok_or(DescWhy::Value(None, Field::Curve))
}

fn form_of(number: u32) -> Option<Form>
    ensures { result ≡ form_of number }
{
    match number {
        1 => Some(Form::One),
        2 => Some(Form::Two),
        _ => None,
    }
}

/// The form that the top table names: form 1 where it names none.
pub fn form_at(table: &Table) -> Result<Form, DescWhy>
    ensures { result ≡ form_in (table_view table.now) }
{
    match number_at(table, None, Field::Form, u32::MAX) {
        Ok(number) => form_of(number).ok_or(DescWhy::Value(None, Field::Form)),
        Err(DescWhy::Missing(_, _)) => Ok(Form::One),
        Err(why) => Err(why),
    }
}

/// The coordinates of a public key.
pub fn point_at(table: &Table, bank: Option<Bank>) -> Result<PublicKey, DescWhy>
    ensures { result ≡ point_in bank (table_view table.now) }
{
    let x = bytes_at(table, bank, Field::X)?;
    let y = bytes_at(table, bank, Field::Y)?;
    Ok(PublicKey { x, y })
}

/// The root key of the top table.
pub fn root_at(top: &Table) -> Result<PublicKey, DescWhy>
    ensures { result ≡ root_in (table_view top.now) }
{
    let table = table_at(top, None, Field::Root)?;
    let point = point_at(table, None)?;
    check_extra(table, None, &[Field::X, Field::Y])?;
    Ok(point)
}

/// A key that signs, whose permissions have this bit.
pub fn signer_at(
    bank_table: &Table,
    bank: Bank,
    key: Field,
    bit: u32,
) -> Result<KeyDescription, DescWhy>
    requires { bit < 32 }
    ensures { result ≡ signer_in bank key bit (table_view bank_table.now) }
{
    let bank = Some(bank);
    let table = table_at(bank_table, bank, key)?;
    let id = number_at(table, bank, Field::Id, 255)?;
    let permissions = number_at(table, bank, Field::Permissions, u32::MAX)?;
    if (permissions >> bit) & 1 != 1 {
        return Err(DescWhy::Value(bank, Field::Permissions));
    }
    let point = point_at(table, bank)?;
    check_extra(
        table,
        bank,
        &[Field::Id, Field::Permissions, Field::X, Field::Y],
    )?;
    Ok(KeyDescription {
        id: id as u8,
        permissions,
        key: point,
    })
}

/// The layout of a bank.
pub fn layout_at(table: &Table, bank: Bank) -> Result<Layout, DescWhy>
    ensures { result ≡ layout_in bank (table_view table.now) }
{
    let bank = Some(bank);
    let manifest_at = number_at(table, bank, Field::ManifestAt, u32::MAX)?;
    let manifest_len = number_at(table, bank, Field::ManifestLen, u32::MAX)?;
    let recovery_at = number_at(table, bank, Field::RecoveryAt, u32::MAX)?;
    let staging_at = number_at(table, bank, Field::StagingAt, u32::MAX)?;
    let area_len = number_at(table, bank, Field::AreaLen, u32::MAX)?;
    Ok(Layout {
        manifest_at,
        manifest_len,
        recovery_at,
        staging_at,
        area_len,
    })
}
