ghost use Rattle.std.specs.Prelude.{◌≡◌, ◌≤◌, [], List, Bool, IfOk, MatchOption, length, drop};
ghost use Rattle.mp_logic.specs.Truth.{IsSatisfied};
ghost use Rattle.core_solver.specs.Searching.{IsStarted, IsGivenBy};
ghost use Rattle.core_solver.specs.Verdicts.{IsQuery, IsRightVerdict};

use crate::backjump::take_in;
use crate::conflicts::Analysis;
use crate::decisions::{Choice, Cursor, choose};
use crate::order::Order;
use crate::propagation::propagate;
use crate::query::{Query, Verdict};
use crate::trail::Trail;
use crate::watches::Watches;
use mp_logic::{Assignment, Clause, Clauses, ListOf, Lit, NoMemory};
use std::alloc::Global;

/// What a search stands on: the hard clauses and the learnt ones after them, and what they force.
#[derive(Drop)]
pub struct Search {
    pub clauses: Clauses,
    pub watches: Watches,
    pub trail: Trail,
    pub analysis: Analysis,
    pub order: Order,
}

/// A model under the assumptions, a core of them, or the clauses learnt until the budget was spent: conflict-driven clause
/// learning (Marques-Silva, Sakallah 1996) to the first unique implication point (Zhang and others 2001), with two watched
/// literals in each clause (Moskewicz and others 2001) and assumptions as first decisions (Eén, Sörensson 2003). There are no
/// restarts, and no clause is forgotten.
///
/// It answers `Unknown` exactly when a conflict under a decision or an assumption needs a further clause while `budget`
/// clauses are held. A conflict without any needs none: it gives the core without literals. The core of an assumption that is
/// false comes from the reasons of its falsehood.
pub fn solve(alloc: Global, query: &Query) -> Result<Verdict, NoMemory>
    requires { IsQuery query.now }
    ensures { IfOk result (λ v. IsRightVerdict query.now v) }
{
    let Some(mut search) = start(alloc, query)? else {
        return Ok(Verdict::Core(Clause::new(alloc)));
    };
    let mut from = 0;
    let mut cursor = Cursor {
        assumed: 0,
        settled: 0,
    };
    let mut learnt = 0;
    'solve: loop {
        let found = propagate(
            &search.clauses,
            &mut search.watches,
            &mut search.trail,
            from,
        )?;
        let len = search.trail.len();
        match found {
            Some(conflict) => {
                let Some(mark) = search.trail.last_mark() else {
                    return Ok(Verdict::Core(Clause::new(alloc)));
                };
                let lesson = search
                    .analysis
                    .learn(alloc, &search.clauses, &search.trail, mark, conflict)?;
                if learnt == query.budget {
                    return Ok(Verdict::Unknown(lessons(alloc, &search.clauses, query.hard.len())?));
                }
                learnt += 1;
                search.order.bump(&search.analysis.met);
                search.order.bump(lesson.clause.items());
                search.order.grow();
                from = take_in(&mut search, lesson)?;
                cursor = cursor.back_to(from);
            }
            None => match choose(query, &search.trail, &mut search.order, &mut cursor) {
                Choice::Decide(lit) => {
                    search.trail.decide(lit)?;
                    from = len;
                }
                Choice::Refuted(lit) => {
                    let core = search
                        .analysis
                        .explain(alloc, &search.clauses, &search.trail, lit)?;
                    return Ok(Verdict::Core(core));
                }
                Choice::Full => return Ok(Verdict::Model(model(alloc, &search.trail, query.vars)?)),
            },
        }
    }
}

// The search before its first propagation, and none where a clause is empty or two unit clauses clash.
fn start(alloc: Global, query: &Query) -> Result<Option<Search>, NoMemory>
    requires { IsQuery query.now }
    ensures { IfOk result (λ made. MatchOption made ((a : List Bool) → IsSatisfied a query.now.hard → ⊥) (IsStarted query.now)) }
{
    let mut search = Search {
        clauses: query.hard.copy(alloc)?,
        watches: Watches::new(alloc, query.vars)?,
        trail: Trail::new(alloc, query.vars)?,
        analysis: Analysis::new(alloc, query.vars)?,
        order: Order::new(alloc, query.vars)?,
    };
    for id in 0..query.hard.len() {
        let clause = search.clauses.items()[id].items();
        if clause.len() == 0 {
            return Ok(None);
        }
        let first = clause[0];
        if clause.len() > 1 {
            let second = clause[1];
            search.watches.add(first, second)?;
            continue;
        }
        search.watches.add(first, first)?;
        if search.trail.has(first.negated()) {
            return Ok(None);
        }
        if !search.trail.has(first) {
            search.trail.assign(first, id)?;
        }
    }
    Ok(Some(search))
}

// The values that a full trail gives to the variables.
fn model(alloc: Global, trail: &Trail, vars: u32) -> Result<Assignment, NoMemory>
    ensures len { IfOk result (λ a. length a ≡ vars) }
    ensures given { IfOk result (λ a. IsGivenBy trail.now.lits vars a) }
{
    let mut values = ListOf::new(alloc);
    for place in 0..vars {
        let lit = Lit::new(place + 1, false);
        let value = trail.has(lit);
        values.push(value)?;
    }
    Ok(values)
}

// The clauses from a place on.
fn lessons(alloc: Global, clauses: &Clauses, from: usize) -> Result<Clauses, NoMemory>
    requires { from ≤ length clauses.now }
    ensures { IfOk result (λ made. made ≡ drop from clauses.now) }
{
    let mut made = ListOf::new(alloc);
    for clause in &clauses.items()[from..] {
        made.push(clause.copy(alloc)?)?;
    }
    Ok(made)
}
