//! Probing of pairs of cost literals. Where unit propagation of the negation of a cost literal, together with all unit
//! clauses, makes another cost literal true or ends in a conflict, each model makes one of the two true, and the clause of
//! both is added: a core that core-guided solvers would have to find (Ansótegui, Bonet, Levy 2013, speak of such cores of
//! soft clauses). Models and costs stay as they are, and there is no repair.
//!
//! A turn takes one cost literal and costs what the propagation visits, with the clauses of the literal; pairs that a clause
//! covers already are told by marks, those of the unit clauses made once a call, since no turn adds or takes one. After a
//! change each other cost literal waits again, and what all clauses force is propagated further from the new clauses alone.
ghost use Rattle.std.specs.Prelude.{◌≡◌, ◌≢◌, [], IfOk, OnOk, OnErr, MatchBool, Contains, false, map};
ghost use Rattle.mp_logic.specs.Literal.{IsUpTo};
ghost use Rattle.mp_store.specs.Held.{IsUntouched};
ghost use Rattle.mp_store.specs.Rewriting.{after};
ghost use Rattle.mp_store.specs.Techniques.{IsRun, IsAnswer};
ghost use Rattle.mp_turns.specs.Clauses.{replacing};
ghost use Rattle.t_failed.specs.Pairs.{implied_pairs};
ghost use Rattle.t_failed.specs.Partners.{pair_clause};

use crate::labels::{label_at, labels, places, put_others};
use crate::partners::{Search, find_partners};
use crate::root::{Root, follow};
use crate::units::units_of;
use mp_logic::{Clause, Clauses, ListOf, Lit, NoMemory};
use mp_store::{LiteralSet, Ran, Store};
use mp_turns::{Items, Turn, Turned, replace, run_turns};
use std::alloc::Global;

/// Adds the clause of two cost literals where one follows from the negation of the other, taking each cost literal in turn, in
/// order of literals, and again after a change. Finished where no pair is left that no clause covers; Spent where the budget
/// of turns is used up before. Its one error is want of memory, and what it did before that stands.
pub fn pairs(alloc: Global, store: &mut Store, budget: Option<u64>) -> Result<Ran, NoMemory>
    requires { store.old.refuted ≡ false }
    ensures run { IsRun implied_pairs.LeavesAlone store.old store.new }
    ensures answer { IfOk result (λ ran. IsAnswer implied_pairs budget store.old store.new ran) }
{
    let mut turn = Pairing {
        root: Root::new(alloc, store)?,
        labels: labels(alloc, store)?,
        units: units_of(alloc, store)?,
        search: Search::new(alloc),
    };
    run_turns(alloc, store, &mut turn, budget)
}

/// What all clauses force, the cost literals, the literals of the unit clauses, and the partners of one cost literal.
#[derive(Drop)]
struct Pairing {
    root: Root,
    labels: Vec<Lit>,
    units: LiteralSet,
    search: Search,
}

impl Turn for Pairing {
    ghost use Rattle.mp_clauses.specs.Slots.{live_clauses};
    ghost use Rattle.t_failed.specs.Pairs.{pair_probing};
    ghost use Rattle.t_failed.specs.Propagating.{IsRoot, IsMentioned};
    ghost use Rattle.t_failed.specs.Partners.{AreLabels, AreUnits};

    ghost turning = { pair_probing };

    ghost fits = { λ t h. IsRoot h t.root.trail t.root.refuted × IsMentioned (live_clauses h.slots) t.root.trail × AreLabels h t.labels.items × AreUnits h t.units };

    fn candidates(&self, alloc: Global, store: &Store) -> Result<Items, NoMemory> {
        places(alloc, &labels(alloc, store)?)
    }

    fn turn(
        &mut self,
        alloc: Global,
        store: &mut Store,
        item: u64,
        again: &mut Items,
    ) -> Result<Turned, NoMemory> {
        // what holds of each store makes a change a smaller state
        let _ = store.vars();
        let Some(lit) = label_at(store, item) else {
            return Ok(Turned::Idle);
        };
        find_partners(
            store,
            &mut self.root,
            &self.labels,
            &self.units,
            lit,
            &mut self.search,
        )?;
        if have_none(&self.search.partners) {
            return Ok(Turned::Idle);
        }
        let first = store.next_id();
        add_pairs(alloc, store, lit, &self.search.partners)?;
        follow(store, &mut self.root, first)?;
        put_others(&self.labels, item, again)?;
        Ok(Turned::Changed)
    }
}

fn have_none(lits: &[Lit]) -> bool
    ensures { MatchBool result (lits.now ≡ []) ((l : _) × Contains lits.now l) }
{
    lits.is_empty()
}

/// Adds the clause of the literal and each of its partners.
fn add_pairs(alloc: Global, store: &mut Store, lit: Lit, partners: &[Lit]) -> Result<(), NoMemory>
    requires unrefuted { store.old.refuted ≡ false }
    requires lit { IsUpTo store.old.vars lit }
    requires partners { (l : _) → Contains partners.now l → IsUpTo store.old.vars l × (l.variable ≢ lit.variable) }
    ensures ok { OnOk result (IsUntouched (after (replacing [] (map (pair_clause lit) partners.now) []) store.old) store.new) }
    ensures err { OnErr result (IsUntouched store.old store.new) }
{
    let mut added = Clauses::new(alloc);
    for other in partners {
        added.push(pair(alloc, lit, *other)?)?;
    }
    let gone = ListOf::new(alloc);
    let repairs = ListOf::new(alloc);
    replace(alloc, store, gone, added, repairs)?;
    Ok(())
}

/// The clause of two literals of different variables.
fn pair(alloc: Global, first: Lit, second: Lit) -> Result<Clause, NoMemory>
    ensures { IfOk result (λ made. made ≡ pair_clause first second) }
{
    let mut made = Clause::new(alloc);
    if first.variable < second.variable {
        made.push(first)?;
        made.push(second)?;
    } else {
        made.push(second)?;
        made.push(first)?;
    }
    Ok(made)
}
