// What a platform is.
ghost use Rattle.std.specs.Prelude.{◌≡◌, option_map};
ghost use Rattle.pfr_description.specs.Banks.{bank_of};
ghost use Rattle.pfr_description.specs.Sound.{IsSound};

use crate::bank_description::BankDescription;
use crate::form::Form;
use crate::keys::PublicKey;
use pfr_engine::Curve;
use pfr_flash::Bank;
use std::marker::Model;

/// A platform: the root key, and both banks. Each keeps the rules of descriptions.
#[derive(Drop)]
pub struct Description {
    curve: Curve,
    form: Form,
    root: PublicKey,
    bmc: BankDescription,
    pch: BankDescription,
}

impl Model for Description {
    ghost use Rattle.pfr_description.specs.Described.{Description};

    ghost Value = { Description };

    ghost view = { λ d. record { curve = d.curve; form = d.form; root = d.root; bmc = d.bmc; pch = d.pch } };

    ghost use Rattle.pfr_description.specs.Sound.{IsSound};

    ghost invariant = { λ d. IsSound (record { curve = d.curve; form = d.form; root = d.root; bmc = d.bmc; pch = d.pch }) };
}

impl Description {
    /// A description of these parts, which keep the rules.
    pub fn new(
        curve: Curve,
        form: Form,
        root: PublicKey,
        bmc: BankDescription,
        pch: BankDescription,
    ) -> Description
        requires { IsSound (record { curve = curve; form = form; root = root; bmc = bmc; pch = pch }) }
        ensures { result ≡ record { curve = curve; form = form; root = root; bmc = bmc; pch = pch } }
    {
        Description {
            curve,
            form,
            root,
            bmc,
            pch,
        }
    }

    /// The curve of all keys.
    pub fn curve(&self) -> Curve
        ensures { result ≡ self.now.curve }
    {
        self.curve
    }

    /// The form of all signature blocks.
    pub fn form(&self) -> Form
        ensures { result ≡ self.now.form }
    {
        self.form
    }

    /// The key that signs the others.
    pub fn root(&self) -> &PublicKey
        ensures { result.now ≡ self.now.root }
    {
        &self.root
    }

    /// Each description is sound. A caller whose proof needs it calls this, which does nothing.
    pub fn sound(&self)
        ensures { IsSound self.now }
    {
        let _form = self.form;
    }

    /// What a bank's firmware is.
    #[tactic(auto, unfolding(crate::specs::Banks::bank_of))]
    pub fn bank(&self, bank: Bank) -> &BankDescription
        ensures { result.now ≡ bank_of self.now bank }
    {
        match bank {
            Bank::Bmc => &self.bmc,
            Bank::Pch => &self.pch,
        }
    }

    /// The name of the file that holds a bank's image.
    pub fn image(&self, bank: Bank) -> &str
        ensures { result.now ≡ (bank_of self.now bank).image }
    {
        self.bank(bank).image.as_str()
    }

    /// The name of the file that is staged in a bank, if one is.
    pub fn staged(&self, bank: Bank) -> Option<&str>
        ensures { option_map (λ name. name.now) result ≡ (bank_of self.now bank).staged }
    {
        match &self.bank(bank).staged {
            Some(name) => Some(name.as_str()),
            None => None,
        }
    }
}
