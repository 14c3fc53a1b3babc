// A shelf in memory.
ghost use Rattle.std.specs.Prelude.{◌≡◌, ◌≢◌, ℕ, ◌+◌, ◌-◌, ◌<◌, ◌≤◌, ◌⊎◌, ◌↔◌, List, length, true, Some, None, IsTrue, OnOk, OnErr, IfOk, IsErrOf, IsSomeAnd};
ghost use Rattle.std.specs.Option.{option_map, option_copied};
ghost use Rattle.pfr_flash.specs.FlashState.{raised_by};
ghost use Rattle.pfr_shelf.specs.Failures.{failing};
ghost use Rattle.pfr_shelf.specs.Files.{put_file, SameBut};
ghost use Rattle.pfr_shelf.specs.Memory.{files_in, files_of, due_of, faults_of, failed_of};

use crate::failure::{Access, Failure};
use crate::fault::ShelfFail;
use crate::outside::Shelf;
use pfr_flash::NoMemory;
use std::alloc::{AllocError, Global};
use std::collections::BTreeMap;

/// Files in memory. One call can be made to fail.
#[derive(Drop)]
pub struct MemShelf {
    alloc: Global,
    files: BTreeMap<String, Vec<u8>>,
    // which call from now on fails, or 0
    due: u32,
    faults: u64,
    // the last call that failed
    failed: Option<Failure>,
}

impl MemShelf {
    /// A shelf with no file.
    pub fn new(alloc: Global) -> MemShelf
        ensures files { (name : List ℕ) → files_of result name ≡ None }
        ensures due { due_of result ≡ 0 }
        ensures faults { faults_of result ≡ 0 }
        ensures failed { failed_of result ≡ None }
    {
        MemShelf {
            alloc,
            files: BTreeMap::new(alloc),
            due: 0,
            faults: 0,
            failed: None,
        }
    }

    /// Makes the file of that name these bytes. This is no call that can be made to fail.
    pub fn put(&mut self, name: &str, bytes: &[u8]) -> Result<(), NoMemory>
        ensures ok { OnOk result (files_of self.new ≡ put_file (files_of self.old) name.now bytes.now) }
        ensures err { OnErr result (files_of self.new ≡ files_of self.old) }
        ensures due { due_of self.new ≡ due_of self.old }
        ensures faults { faults_of self.new ≡ faults_of self.old }
        ensures failed { failed_of self.new ≡ failed_of self.old }
    {
        match keep(self.alloc, &mut self.files, name, bytes) {
            Ok(()) => Ok(()),
            Err(_) => Err(NoMemory),
        }
    }

    /// Lets the nth call of `load` or `store` from now on fail, in place of one that was to fail before.
    pub fn fail_call(&mut self, nth: u32)
        requires { 1 ≤ nth }
        ensures due { due_of self.new ≡ nth }
        ensures files { files_of self.new ≡ files_of self.old }
        ensures faults { faults_of self.new ≡ faults_of self.old }
        ensures failed { failed_of self.new ≡ failed_of self.old }
    {
        self.due = nth;
    }

    // Counts a call, and says whether it is the one that fails.
    fn is_failing(&mut self) -> bool
        ensures answer { IsTrue result ↔ (due_of self.old ≡ 1) }
        ensures counted { self.new ≡ record self.old { due = self.old.due - 1 } }
    {
        let failing = self.due == 1;
        self.due = self.due.saturating_sub(1);
        failing
    }

    // Counts a fault, and keeps which call it was.
    fn fail(&mut self, access: Access, name: &str) -> ShelfFail
        ensures answer { result ≡ ShelfFail.Failed }
        ensures kept { self.new ≡ record self.old { faults = raised_by self.old.faults 1; failed = Some (failing access name.now) } }
    {
        self.faults = self.faults.saturating_add(1);
        self.failed = Some(Failure::new(access, name));
        ShelfFail::Failed
    }
}

impl Shelf for MemShelf {
    ghost tells = { true };

    ghost files = { files_of };

    ghost faults = { faults_of };

    ghost failed = { failed_of };

    fn load(&mut self, alloc: Global, name: &str, limit: u32) -> Result<Vec<u8>, ShelfFail>
        ensures stays { files_of self.new ≡ files_of self.old }
        ensures bytes { IfOk result (λ bytes. files_of self.old name.now ≡ Some bytes.items) }
        ensures short { IfOk result (λ bytes. length bytes.items ≤ limit) }
        ensures too_long { result ≡ Err ShelfFail.TooLong → IsSomeAnd (files_of self.old name.now) (λ bytes. limit < length bytes) }

        // It faults at the call that was to fail, and at a name that it does not hold, and nowhere else.
        ensures failed { IsErrOf result ShelfFail.Failed ↔ ((due_of self.old ≡ 1) ⊎ (files_of self.old name.now ≡ None)) }
        ensures counted { IsErrOf result ShelfFail.Failed → faults_of self.new ≡ raised_by (faults_of self.old) 1 }
        ensures not_counted { result ≢ Err ShelfFail.Failed → faults_of self.new ≡ faults_of self.old }
        ensures blamed { result ≡ Err ShelfFail.Failed → failed_of self.new ≡ Some (failing Access.Load name.now) }
        ensures unblamed { result ≢ Err ShelfFail.Failed → failed_of self.new ≡ failed_of self.old }
        ensures due { due_of self.new ≡ due_of self.old - 1 }
    {
        if self.is_failing() {
            return Err(self.fail(Access::Load, name));
        }
        match find(&self.files, name) {
            None => Err(self.fail(Access::Load, name)),
            Some(bytes) => {
                if bytes.len() > limit as usize {
                    return Err(ShelfFail::TooLong);
                }
                match Vec::from_slice(alloc, bytes) {
                    Ok(copy) => Ok(copy),
                    Err(_) => Err(ShelfFail::NoMemory),
                }
            }
        }
    }

    fn store(&mut self, name: &str, bytes: &[u8]) -> Result<(), ShelfFail>
        ensures stored { OnOk result (files_of self.new ≡ put_file (files_of self.old) name.now bytes.now) }
        ensures stays { OnErr result (files_of self.new ≡ files_of self.old) }
        ensures never_too_long { result ≢ Err ShelfFail.TooLong }

        // It faults at the call that was to fail, and nowhere else.
        ensures failed { IsErrOf result ShelfFail.Failed ↔ (due_of self.old ≡ 1) }
        ensures counted { IsErrOf result ShelfFail.Failed → faults_of self.new ≡ raised_by (faults_of self.old) 1 }
        ensures not_counted { result ≢ Err ShelfFail.Failed → faults_of self.new ≡ faults_of self.old }
        ensures blamed { result ≡ Err ShelfFail.Failed → failed_of self.new ≡ Some (failing Access.Store name.now) }
        ensures unblamed { result ≢ Err ShelfFail.Failed → failed_of self.new ≡ failed_of self.old }
        ensures due { due_of self.new ≡ due_of self.old - 1 }
    {
        if self.is_failing() {
            return Err(self.fail(Access::Store, name));
        }
        match keep(self.alloc, &mut self.files, name, bytes) {
            Ok(()) => Ok(()),
            Err(_) => Err(ShelfFail::NoMemory),
        }
    }
}

// The bytes under the name.
#[tactic(auto, unfolding(crate::specs::Memory::files_in))]
fn find<'a>(files: &'a BTreeMap<String, Vec<u8>>, name: &str) -> Option<&'a Vec<u8>>
    ensures { option_map (λ bytes. bytes.items) (option_copied result) ≡ files_in files.entry.now name.now }
{
    files.get(name)
}

// Puts a copy of the bytes under a copy of the name.
#[tactic(auto, using(crate::proofs::FilesIn::kept))]
fn keep(
    alloc: Global,
    files: &mut BTreeMap<String, Vec<u8>>,
    name: &str,
    bytes: &[u8],
) -> Result<(), AllocError>
    ensures ok { OnOk result (files_in files.new ≡ put_file (files_in files.old) name.now bytes.now) }
    ensures err { OnErr result (files_in files.new ≡ files_in files.old) }
{
    let name = String::from_str(alloc, name)?;
    let bytes = Vec::from_slice(alloc, bytes)?;
    match files.insert(name, bytes) {
        Ok(_) => Ok(()),
        Err(_) => Err(AllocError),
    }
}
