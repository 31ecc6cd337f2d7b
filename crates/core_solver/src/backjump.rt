ghost use Rattle.std.specs.Prelude.{◌≡◌, ◌<◌, ◌≤◌, ◌-◌, ℕ, ◌++◌, ◌∷◌, [], OnOk, IfOk, length, take, slice_index};
ghost use Rattle.core_solver.specs.Conflicts.{IsTaught};
ghost use Rattle.core_solver.specs.Watching.{AreWatching, IsState, IsRising, IsLatest, IsLater, IsSecond, IsCutBack};

use crate::conflicts::Lesson;
use crate::places::same;
use crate::search::Search;
use crate::trail::Trail;
use mp_logic::{Clause, Lit, NoMemory};

/// Takes a lesson in: it goes back to the level at which only its one literal of the last level is left, makes that true,
/// and answers where propagation goes on.
pub fn take_in(search: &mut Search, lesson: Lesson) -> Result<usize, NoMemory>
    requires state { IsState search.old.clauses search.old.watches.pairs.items search.old.watches.lists.items search.old.trail }
    requires rising { IsRising search.old.trail.marks }
    requires levels { 0 < length search.old.trail.marks }
    requires taught { (at : ℕ) × IsTaught search.old.clauses search.old.trail.lits (slice_index search.old.trail.marks (length search.old.trail.marks - 1)) lesson.clause lesson.lit at }
    ensures clauses { OnOk result (search.new.clauses ≡ search.old.clauses ++ lesson.clause ∷ []) }
    ensures state { OnOk result (IsState search.new.clauses search.new.watches.pairs.items search.new.watches.lists.items search.new.trail) }
    ensures rising { OnOk result (IsRising search.new.trail.marks) }
    ensures watching { IfOk result (λ from. (from ≤ length search.new.trail.lits) × AreWatching (take from search.new.trail.lits) search.new.trail.lits search.new.watches.pairs.items) }
    ensures cut { IfOk result (λ from. IsCutBack from search.old.trail search.new.trail) }
    ensures analysis { OnOk result (search.new.analysis ≡ search.old.analysis) }
{
    let _top = search.trail.len();
    let Lesson { clause, lit } = lesson;
    let back = latest(&search.trail, &clause, lit);
    let second = second_watch(&search.trail, lit, back);
    search.trail.retreat(back, &mut search.order)?;
    let from = search.trail.len();
    let id = search.clauses.len();
    search.watches.add(lit, second)?;
    search.clauses.push(clause)?;
    search.trail.assign(lit, id)?;
    Ok(from)
}

// One past the latest position at which a literal of the clause, besides one, became false, 0 where there is none.
fn latest(trail: &Trail, clause: &Clause, lit: Lit) -> usize
    ensures { IsLatest trail.now.lits clause.now lit result }
{
    let mut back = 0;
    for other in clause.items() {
        back = later(trail, *other, lit, back);
    }
    back
}

// One past the position at which a literal became false, where it is another one and that is later.
fn later(trail: &Trail, other: Lit, lit: Lit, back: usize) -> usize
    ensures { IsLater trail.now.lits other lit back result }
{
    if same(other, lit) {
        return back;
    }
    let _len = trail.len();
    match trail.position(other.negated()) {
        Some(position) if position >= back => position + 1,
        _ => back,
    }
}

// The literal to watch beside one.
fn second_watch(trail: &Trail, lit: Lit, back: usize) -> Lit
    requires { back ≤ length trail.now.lits }
    ensures { IsSecond trail.now.lits lit back result }
{
    if back == 0 {
        return lit;
    }
    trail.lit(back - 1).negated()
}
