// Sets of broken rules.

ghost use Rattle.std.specs.Prelude.{◌≡◌, true};
ghost use Rattle.c_check_scope.specs.Rules.{only, union, has, IsLeast};

use crate::rule::Rule;
use std::marker::Model;

/// The rules that are broken, at least one. Contracts see the number whose bit of each code tells whether the rule of
/// that code is among them.
#[derive(Clone, Copy, Debug, PartialEq, Eq)]
pub struct Rules {
    codes: u32,
}

impl Model for Rules {
    ghost use Rattle.std.specs.Prelude.{ℕ, ◌<◌, ◌^◌};

    ghost Value = { ℕ };

    ghost view = { λ r. r.codes };

    ghost inverse = { λ n. record { codes = n } };

    ghost invariant = { λ r. (0 < r.codes) × (r.codes < 2 ^ 28) };
}

impl Rules {
    /// One rule alone.
    pub fn only(rule: Rule) -> Rules
        ensures { result ≡ only rule }
    {
        Rules {
            codes: 1 << rule.code(),
        }
    }

    /// The rules of both sets.
    #[tactic(auto, unfolding(crate::specs::Rules::union))]
    pub fn union(a: Rules, b: Rules) -> Rules
        ensures { result ≡ union a b }
    {
        Rules {
            codes: a.codes | b.codes,
        }
    }

    /// The least code in the set.
    pub fn least(self) -> u32
        ensures { IsLeast (λ c. has self c ≡ true) result }
    {
        self.codes.trailing_zeros()
    }
}
