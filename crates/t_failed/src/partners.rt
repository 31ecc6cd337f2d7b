//! The partners of a cost literal: those that follow from its negation, but for pairs that a clause covers.
ghost use Rattle.std.specs.Prelude.{◌≡◌, ◌==◌, ◌∷◌, [], OnOk, MatchBool, Contains, false, length};
ghost use Rattle.mp_logic.specs.Literal.{IsUpTo, negation};
ghost use Rattle.mp_clauses.specs.Places.{place_of};
ghost use Rattle.mp_clauses.specs.Slots.{live_clauses};
ghost use Rattle.t_failed.specs.Propagating.{IsRoot, IsMentioned, IsGrown};
ghost use Rattle.t_failed.specs.Partners.{AreLabels, AreUnits, AreFound, IsPartner, IsBeside, ArePartnersOf};

use crate::root::{Root, probe};
use mp_logic::{Lit, NoMemory};
use mp_store::{LiteralSet, Store, place};
use std::alloc::Global;

/// The literals of the clauses with the literal in hand that have no more than two literals.
fn hold_beside(
    store: &Store,
    lit: Lit,
    lits: &mut Vec<Lit>,
    beside: &mut LiteralSet,
) -> Result<(), NoMemory>
    requires { IsUpTo store.now.vars lit }
    ensures { OnOk result ((k : _) → IsBeside store.now.slots lit beside.new k) }
{
    lits.clear();
    for id in store.occurrences(lit) {
        let clause = store.clause(*id);
        if clause.len() > 2 {
            continue;
        }
        lits.extend_from_slice(clause)?;
    }
    beside.hold(lits)?;
    Ok(())
}

/// Whether the other literal is a partner of the one whose short clauses these are.
fn is_partner(store: &Store, beside: &LiteralSet, units: &LiteralSet, lit: Lit, other: Lit) -> bool
    requires beside { (k : _) → IsBeside store.now.slots lit beside.now k }
    requires units { AreUnits store.now units.now }
    requires alone { Contains (live_clauses store.now.slots) (lit ∷ []) → ⊥ }
    requires unrefuted { store.now.refuted ≡ false }
    ensures { MatchBool result (IsPartner store.now lit other) (IsPartner store.now lit other → ⊥) }
{
    // what holds of each store: a short clause has no other literals
    let _ = store.vars();
    if store.weight(other) == 0 {
        return false;
    }
    if are_same(other, lit) {
        return false;
    }
    if beside.has(other) {
        return false;
    }
    if units.has(other) {
        return false;
    }
    true
}

fn are_same(first: Lit, second: Lit) -> bool
    ensures { result ≡ (place_of first == place_of second) }
{
    place(first) == place(second)
}

/// The partners among the literals, in order.
fn put_partners(
    store: &Store,
    beside: &LiteralSet,
    units: &LiteralSet,
    lit: Lit,
    lits: &[Lit],
    partners: &mut Vec<Lit>,
) -> Result<(), NoMemory>
    requires beside { (k : _) → IsBeside store.now.slots lit beside.now k }
    requires units { AreUnits store.now units.now }
    requires alone { Contains (live_clauses store.now.slots) (lit ∷ []) → ⊥ }
    requires unrefuted { store.now.refuted ≡ false }
    requires empty { partners.old.items ≡ [] }
    ensures { OnOk result (ArePartnersOf store.now lit lits.now partners.new.items) }
{
    for other in lits {
        if !is_partner(store, beside, units, lit, *other) {
            continue;
        }
        partners.push(*other)?;
    }
    partners.sort_unstable();
    Ok(())
}

/// The partners of the literal in hand, and what serves to find them.
#[derive(Drop)]
pub struct Search {
    short: Vec<Lit>,
    beside: LiteralSet,
    pub partners: Vec<Lit>,
}

impl Search {
    pub fn new(alloc: Global) -> Search {
        Search {
            short: Vec::new(alloc),
            beside: LiteralSet::new(alloc),
            partners: Vec::new(alloc),
        }
    }
}

/// Puts the partners of a literal last, and leaves what its negation made true on the trail.
fn put_found(
    store: &Store,
    root: &mut Root,
    labels: &[Lit],
    units: &LiteralSet,
    lit: Lit,
    beside: &LiteralSet,
    partners: &mut Vec<Lit>,
) -> Result<(), NoMemory>
    requires root { IsRoot store.now root.old.trail root.old.refuted }
    requires mentioned { IsMentioned (live_clauses store.now.slots) root.old.trail }
    requires labels { AreLabels store.now labels.now }
    requires units { AreUnits store.now units.now }
    requires lit { IsUpTo store.now.vars lit }
    requires beside { (k : _) → IsBeside store.now.slots lit beside.now k }
    requires alone { Contains (live_clauses store.now.slots) (lit ∷ []) → ⊥ }
    requires unrefuted { store.now.refuted ≡ false }
    requires empty { partners.old.items ≡ [] }
    ensures grown { OnOk result (IsGrown root.old.trail root.new.trail) }
    ensures refuted { root.new.refuted ≡ root.old.refuted }
    ensures found { OnOk result (AreFound store.now lit partners.new.items) }
{
    if probe(store, root, lit.negated())? {
        put_partners(store, beside, units, lit, root.trail.literals(), partners)?;
        return Ok(());
    }
    put_partners(store, beside, units, lit, labels, partners)?;
    Ok(())
}

/// Finds the partners of a cost literal, in order.
pub fn find_partners(
    store: &Store,
    root: &mut Root,
    labels: &[Lit],
    units: &LiteralSet,
    lit: Lit,
    search: &mut Search,
) -> Result<(), NoMemory>
    requires root { IsRoot store.now root.old.trail root.old.refuted }
    requires mentioned { IsMentioned (live_clauses store.now.slots) root.old.trail }
    requires labels { AreLabels store.now labels.now }
    requires units { AreUnits store.now units.now }
    requires lit { IsUpTo store.now.vars lit }
    requires unrefuted { store.now.refuted ≡ false }
    ensures trail { OnOk result (root.new.trail ≡ root.old.trail) }
    ensures refuted { root.new.refuted ≡ root.old.refuted }
    ensures found { OnOk result (AreFound store.now lit search.new.partners.items) }
{
    search.partners.clear();
    if units.has(lit) {
        return Ok(());
    }
    hold_beside(store, lit, &mut search.short, &mut search.beside)?;
    let from = root.trail.len();
    put_found(
        store,
        root,
        labels,
        units,
        lit,
        &search.beside,
        &mut search.partners,
    )?;
    root.trail.cut(from);
    Ok(())
}
