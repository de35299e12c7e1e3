ghost use Rattle.std.specs.Prelude.{◌≡◌, ◌++◌, ◌∷◌, [], not, is_some, if◌then◌else◌, IfOk, OnOk};
ghost use Rattle.modem_rules.specs.Kinds.{is_same};
ghost use Rattle.modem_rules.specs.declared.kind.RequestKind as request;
ghost use Rattle.ruled_modem.specs.Keeping.{Has, others, rules_for};
ghost use Rattle.ruled_modem.specs.Turns.{is_own};

use indexmap::IndexMap;
use modem_rules::{AnswerRule, FaultRule, IndicationRule, RequestKind, When};
use std::alloc::{AllocError, Global};

/// Rules by the kind of request that they are for.
pub(crate) type ByKind<R> = IndexMap<RequestKind, Vec<R>>;

/// The rules of a list: those for a kind of request, and the others.
#[derive(Drop)]
pub(crate) struct Sorted<R: ForKind> {
    pub table: ByKind<R>,
    pub others: Vec<R>,
}

/// A rule, which may be for the requests of a kind.
pub(crate) trait ForKind: Drop {
    ghost use Rattle.std.specs.Prelude.{Option};
    ghost use Rattle.modem_rules.specs.declared.kind.RequestKind.{RequestKind};

    /// Of which kind they are.
    ghost for_kind: { Self → Option RequestKind };

    fn for_kind(&self) -> Option<RequestKind>
        ensures { result ≡ for_kind self.now };
}

impl ForKind for AnswerRule {
    ghost use Rattle.std.specs.Prelude.{Some};

    ghost for_kind = { λ rule. Some rule.kind };

    fn for_kind(&self) -> Option<RequestKind> {
        Some(self.kind)
    }
}

impl ForKind for FaultRule {
    ghost use Rattle.std.specs.Prelude.{Some};

    ghost for_kind = { λ rule. Some rule.kind };

    fn for_kind(&self) -> Option<RequestKind> {
        Some(self.kind)
    }
}

impl ForKind for IndicationRule {
    ghost use Rattle.ruled_modem.specs.Turns.{behind};

    ghost for_kind = { λ rule. behind rule.when };

    fn for_kind(&self) -> Option<RequestKind> {
        match self.when {
            When::After(kind) => Some(kind),
            When::Each(_) => None,
        }
    }
}

/// The rules of a list by their kinds, those of a kind in the list's order, and the others in its order.
pub(crate) fn by_kind<R: ForKind>(alloc: Global, rules: Vec<R>) -> Result<Sorted<R>, AllocError>
    ensures table { IfOk result (λ sorted. Has R.for_kind rules.items sorted.table.entries) }
    ensures others { IfOk result (λ sorted. sorted.others.items ≡ others R.for_kind rules.items) }
{
    let mut sorted = Sorted {
        table: IndexMap::new(alloc),
        others: Vec::new(alloc),
    };
    for rule in rules {
        sort(alloc, &mut sorted, rule)?;
    }
    Ok(sorted)
}

// Puts a rule behind the others of its kind, or behind those that are for none.
fn sort<R: ForKind>(alloc: Global, sorted: &mut Sorted<R>, rule: R) -> Result<(), AllocError>
    ensures table { OnOk result ((other : request.RequestKind) → rules_for other sorted.new.table.entries ≡
        (if is_own other (R.for_kind rule) then rules_for other sorted.old.table.entries ++ rule ∷ [] else rules_for other sorted.old.table.entries)) }
    ensures others { OnOk result (sorted.new.others.items ≡ (if not (is_some (R.for_kind rule)) then sorted.old.others.items ++ rule ∷ [] else sorted.old.others.items)) }
{
    let Some(kind) = rule.for_kind() else {
        sorted.others.push(rule)?;
        return Ok(());
    };
    add(alloc, &mut sorted.table, kind, rule)?;
    Ok(())
}

// Adds a rule behind the others of its kind.
fn add<R: ForKind>(
    alloc: Global,
    table: &mut ByKind<R>,
    kind: RequestKind,
    rule: R,
) -> Result<(), AllocError>
    ensures { OnOk result ((other : request.RequestKind) → rules_for other table.new.entries ≡
        (if is_same kind other then rules_for other table.old.entries ++ rule ∷ [] else rules_for other table.old.entries)) }
{
    let mut rules = taken(alloc, table, &kind);
    rules.push(rule)?;
    place(table, kind, rules)
}

// Takes the rules for a kind out, which are none where there aren't any.
fn taken<R: ForKind>(alloc: Global, table: &mut ByKind<R>, kind: &RequestKind) -> Vec<R>
    ensures taken { result.items ≡ rules_for kind.now table.old.entries }
    ensures others { (other : request.RequestKind) → rules_for other table.new.entries ≡ (if is_same kind.now other then [] else rules_for other table.old.entries) }
{
    match table.swap_remove(kind) {
        Some(rules) => rules,
        None => Vec::new(alloc),
    }
}

// Puts the rules for a kind in.
fn place<R: ForKind>(
    table: &mut ByKind<R>,
    kind: RequestKind,
    rules: Vec<R>,
) -> Result<(), AllocError>
    ensures { OnOk result ((other : request.RequestKind) → rules_for other table.new.entries ≡ (if is_same kind other then rules.items else rules_for other table.old.entries)) }
{
    drop(table.insert(kind, rules)?);
    Ok(())
}

/// The rules for a kind.
pub(crate) fn rules_for<'a, R: ForKind>(table: &'a ByKind<R>, kind: &RequestKind) -> &'a [R]
    ensures { result.now ≡ rules_for kind.now table.now.entries }
{
    match table.get(kind) {
        Some(rules) => rules.as_slice(),
        None => &[],
    }
}
