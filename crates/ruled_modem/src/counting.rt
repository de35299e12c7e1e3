ghost use Rattle.std.specs.Prelude.{◌≡◌, ◌==◌, map, option_map};
ghost use Rattle.ruled_modem.specs.Keeping.{Counts, due, failing, nearer, rules_for};

use crate::by_kind::ByKind;
use modem_rules::{Failure, FaultRule, RequestKind};

// How the request fails, by the first of the faults whose turn it is.
fn failing(faults: &[FaultRule]) -> Option<Failure>
    ensures { result ≡ failing faults.now }
{
    let fault = first_due(faults)?;
    Some(fault.failure)
}

fn first_due(faults: &[FaultRule]) -> Option<&FaultRule>
    ensures { option_map (λ fault. fault.now) result ≡ due faults.now }
{
    faults.iter().find(|fault| is_due(fault))
}

fn is_due(fault: &FaultRule) -> bool
    ensures { result ≡ (fault.now.nth == 1) }
{
    fault.nth == 1
}

/// Counts a request of this kind, and gives how it fails.
pub(crate) fn count(faults: &mut ByKind<FaultRule>, kind: &RequestKind) -> Option<Failure>
    ensures failing { result ≡ failing (rules_for kind.now faults.old.entries) }
    ensures counts { Counts kind.now faults.old.entries faults.new.entries }
{
    let Some(faults) = faults.get_mut(kind) else {
        return None;
    };
    let failure = failing(faults.as_slice());
    bring_nearer(faults);
    failure
}

// Each of the faults is one request nearer.
fn bring_nearer(faults: &mut Vec<FaultRule>)
    ensures { faults.new.items ≡ map (nearer 1) faults.old.items }
{
    for fault in faults.iter_mut() {
        *fault = nearer(fault);
    }
}

fn nearer(fault: &FaultRule) -> FaultRule
    ensures { result ≡ nearer 1 fault.now }
{
    FaultRule {
        kind: fault.kind,
        nth: fault.nth.saturating_sub(1),
        failure: fault.failure,
    }
}
