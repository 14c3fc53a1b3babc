// What a bank's firmware is.

use crate::keys::KeyDescription;
use crate::region::RegionDescription;
use crate::smbus::SmbusDescription;
use pfr_flash::Layout;
use std::marker::Model;

/// A bank, and the firmware that it holds.
#[derive(Drop)]
pub struct BankDescription {
    /// The name of the file that holds the firmware's image.
    pub image: String,
    /// The bank's size in bytes.
    pub size: u32,
    /// The security version number.
    pub svn: u8,
    /// The version of the best known configuration, which nothing judges.
    pub bkc: u8,
    /// The firmware's revision, as its maker spells it.
    pub revision: [u8; 2],
    /// Bytes of the maker's own.
    pub oem: [u8; 16],
    /// Where the bank's three areas lie.
    pub layout: Layout,
    /// The key that signs the manifest.
    pub manifest_key: KeyDescription,
    /// The key that signs the capsule.
    pub capsule_key: KeyDescription,
    /// The name of the file that is staged, if one is.
    pub staged: Option<String>,
    /// The regions that the manifest defines, in order.
    pub regions: Vec<RegionDescription>,
    /// The devices on its SMBus, in order.
    pub smbus: Vec<SmbusDescription>,
}

impl Model for BankDescription {
    ghost use Rattle.std.specs.Prelude.{string_bytes, option_map};
    ghost use Rattle.pfr_description.specs.Described.{BankDescription};

    ghost Value = { BankDescription };

    ghost view = { λ d. record {
      image = string_bytes d.image;
      size = d.size;
      svn = d.svn;
      bkc = d.bkc;
      revision = d.revision;
      oem = d.oem;
      layout = d.layout;
      manifest_key = d.manifest_key;
      capsule_key = d.capsule_key;
      staged = option_map (λ name. string_bytes name) d.staged;
      regions = d.regions.items;
      smbus = d.smbus.items;
    } };
}
