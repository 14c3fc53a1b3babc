// The SMBus rules of a manifest.
ghost use Rattle.std.specs.Cmp.Lexicographic.{lists_per, pointwise};
ghost use Rattle.pfr_manifest.specs.contracts.rule.RulePartialEq.TheImpl.Laws.{laws-law};
ghost use Rattle.std.specs.Prelude.{◌≡◌, ◌<◌, ◌≤◌, ◌==◌, [], ◌∷◌, ◌++◌, length, slice_index_or};

use crate::rule::Rule;
use arrayvec::ArrayVec;
use std::marker::Model;

/// At most 64 rules, seen as a list.
#[derive(Drop)]
pub struct Rules {
    items: ArrayVec<Rule, 64>,
}

impl Model for Rules {
    ghost use Rattle.std.specs.Prelude.{List};
    ghost use Rattle.pfr_manifest.specs.declared.rule.Rule.{Rule};

    ghost Value = { List Rule };

    ghost view = { λ rules. rules.items.items };
}

impl PartialEq for Rules {
    ghost eq = { pointwise ⟦<Rule as PartialEq>⟧.eq };

    ghost laws = { lists_per laws-law };

    fn eq(&self, other: &Rules) -> bool {
        self.items == other.items
    }
}

impl Rules {
    pub(crate) fn new() -> Rules
        ensures { result ≡ [] }
    {
        Rules {
            items: ArrayVec::new(),
        }
    }

    /// How many rules there are, at most 64.
    pub fn len(&self) -> u32
        ensures value { result ≡ length self.now }
        ensures few { result ≤ 64 }
    {
        self.items.len() as u32
    }

    /// Whether there is no rule.
    pub fn is_empty(&self) -> bool
        ensures { result ≡ (length self.now == 0) }
    {
        self.items.is_empty()
    }

    /// The rule of this number, counted from 0 in the manifest's order.
    pub fn get(&self, k: u32) -> &Rule
        requires { k < length self.now }
        ensures { result.now ≡ slice_index_or self.now k result.now }
    {
        &self.items[k as usize]
    }

    pub(crate) fn push(&mut self, rule: Rule)
        requires { length self.old < 64 }
        ensures { self.new ≡ self.old ++ rule ∷ [] }
    {
        self.items.push(rule);
    }
}
