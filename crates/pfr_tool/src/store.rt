// The store of a provisioned platform.
ghost use Rattle.std.specs.Prelude.{◌≡◌, ◌↔◌, ◌+◌, ◌<◌, ◌^◌, ◌++◌, [], ◌∷◌, IsOk, OnOk, IfOk};
ghost use Rattle.pfr_made.specs.Judge.{IsPlaced, Judged, judge_places};
ghost use Rattle.pfr_made.specs.Fields.{blanks};
ghost use Rattle.pfr_made.specs.Store.{layout_bytes, root_hash, store_for};

use crate::marks::curve_number;
use crate::place::check_place;
use crate::writing::{number_bytes, push_blanks, push_number};
use pfr_description::{DescFail, DescWhy, Description, Form};
use pfr_flash::{Bank, Bytes, Layout, NoMemory};
use sha2::{Digest, Sha256};
use std::alloc::Global;

// The root's hash. That of form 2 begins with the byte 2 and the scheme.
#[tactic(auto, unfolding(pfr_made::specs::Store::root_hash))]
fn root_hash(desc: &Description) -> [u8; 32]
    ensures { result ≡ root_hash desc.now.form desc.now.curve desc.now.root }
{
    let mut hasher = Sha256::new();
    if let Form::Two = desc.form() {
        hasher.update([2]);
        hasher.update(number_bytes(curve_number(desc.curve())));
    }
    hasher.update(desc.root().x);
    hasher.update(desc.root().y);
    hasher.finalize()
}

fn push_layout(store: &mut Vec<u8>, layout: &Layout) -> Result<(), NoMemory>
    ensures { OnOk result (store.new.items ≡ store.old.items ++ layout_bytes layout.now) }
{
    push_number(store, layout.manifest_at)?;
    push_number(store, layout.manifest_len)?;
    push_number(store, layout.recovery_at)?;
    push_number(store, layout.staging_at)?;
    push_number(store, layout.area_len)
}

// Both banks' sizes and layouts, the BMC's first
#[tactic(auto, unfolding(pfr_made::specs::Judge::judge_places, pfr_description::specs::Banks::bank_of))]
fn check_places(desc: &Description) -> Result<(), DescWhy>
    ensures exact { result ≡ judge_places desc.now }
    ensures ok { IsOk result ↔ (IsPlaced desc.now.bmc × IsPlaced desc.now.pch) }
{
    check_place(desc, Bank::Bmc)?;
    check_place(desc, Bank::Pch)
}

/// Makes the store of the platform, which is provisioned in its first slot and has fuses of profile 2.
#[tactic(auto, unfolding(pfr_description::specs::Banks::bank_of))]
pub fn make_store(alloc: Global, desc: &Description) -> Result<Bytes, DescFail>
    ensures store { IfOk result (λ store. store ≡ store_for desc.now) }
    ensures placed { OnOk result (IsPlaced desc.now.bmc × IsPlaced desc.now.pch) }
    ensures judged { Judged result (judge_places desc.now) }
{
    check_places(desc)?;
    let mut store = Vec::new(alloc);
    store.extend_from_slice(&root_hash(desc))?;
    push_layout(&mut store, &desc.bank(Bank::Bmc).layout)?;
    push_layout(&mut store, &desc.bank(Bank::Pch).layout)?;
    push_blanks(&mut store, 183)?;
    store.push(0)?;
    push_blanks(&mut store, 2304)?;
    store.push(0)?;
    push_blanks(&mut store, 30_207)?;
    Ok(Bytes::new(store))
}
