// When a job stops, what its rule is refused for and when its cap is met; below the tests of a job's arguments and below the stages,
// which both read it.
#![tactic(auto)]

ghost use Rattle.std.specs.Prelude.{◌≡◌};
ghost use Rattle.refusal.specs.Refusals.{number_in};
ghost use Rattle.rules.specs.Rules.{cap_fault, rule_fault, meets};
ghost use Rattle.rules.specs.declared.Rule.TheVariants.{Within};

use ieee::is_finite;
use refusal::Refusal;

// When a job stops: at so many nonzero entries, or before a change above the allowance, where a cap may say how many entries are allowed.
#[derive(Clone, Copy)]
pub enum Rule {
    Target(usize),
    Within { allowance: f64, cap: Option<usize> },
}

// 2 where the cap is 0.
fn cap_fault(cap: Option<usize>) -> Result<(), Refusal>
    ensures { number_in result ≡ cap_fault cap }
{
    match cap {
        Some(0) => Err(Refusal::Zero),
        _ => Ok(()),
    }
}

// 1, 12 or 2, of an allowance and a cap.
fn within_fault(allowance: f64, cap: Option<usize>) -> Result<(), Refusal>
    ensures { number_in result ≡ rule_fault (Within allowance cap) }
{
    if !(allowance >= 0.0) {
        return Err(Refusal::Allowance);
    }
    if !is_finite(allowance) {
        return Err(Refusal::InfiniteAllowance);
    }
    cap_fault(cap)
}

// The same of a rule, 2 also for its target.
pub fn rule_fault(rule: Rule) -> Result<(), Refusal>
    ensures { number_in result ≡ rule_fault rule }
{
    match rule {
        Rule::Target(0) => Err(Refusal::Zero),
        Rule::Target(_) => Ok(()),
        Rule::Within { allowance, cap } => within_fault(allowance, cap),
    }
}

// Whether so many entries meet the cap.
pub fn meets_cap(cap: Option<usize>, k: usize) -> bool
    ensures { result ≡ meets cap k }
{
    match cap {
        None => true,
        Some(c) => k <= c,
    }
}
