// What is judged: a value, or the rules that are broken.

ghost use Rattle.std.specs.Prelude.{◌≡◌};
ghost use Rattle.c_check_scope.specs.Rules.{both, broken};

use crate::rules::Rules;

/// What is typed, or the rules that it breaks.
pub type Checked<T> = Result<T, Rules>;

/// Both values, or the rules that they break.
#[tactic(auto, unfolding(crate::specs::Rules::both))]
pub fn both<A: Drop, B: Drop>(a: Checked<A>, b: Checked<B>) -> Checked<(A, B)>
    ensures { result ≡ both a b }
{
    match a {
        Ok(a) => match b {
            Ok(b) => Ok((a, b)),
            Err(rules) => Err(rules),
        },
        Err(first) => match b {
            Ok(_) => Err(first),
            Err(second) => Err(Rules::union(first, second)),
        },
    }
}

/// The rules, and those that one more part breaks.
#[tactic(auto, unfolding(crate::specs::Rules::broken))]
pub fn broken<A: Drop>(rules: Rules, a: Checked<A>) -> Rules
    ensures { result ≡ broken rules a }
{
    match a {
        Ok(_) => rules,
        Err(others) => Rules::union(rules, others),
    }
}
