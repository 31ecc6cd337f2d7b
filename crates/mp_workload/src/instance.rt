ghost use Rattle.std.specs.Prelude.{◌≡◌, ◌+◌, ◌-◌, ◌%◌, ◌≤◌, ◌<◌, ◌++◌, ◌∷◌, [], IfOk, OnOk, map, nat_le, if◌then◌else◌, length};
ghost use Rattle.mp_logic.specs.Truth.{weights_of};
ghost use Rattle.mp_logic.specs.Weights.{weight_bound};
ghost use Rattle.mp_labels.specs.LabelView.{long_softs};
ghost use Rattle.mp_workload.specs.Workload.{workload, next_of, drawn, takes, some_slot, one_slot, apart_slots, not_both};

use mp_logic::{Clause, Clauses, Instance, Lit, NoMemory, Soft, Softs};
use std::alloc::Global;

/// The workload of so many tasks, at most 1,000,000: each task takes exactly one of four slots, another one than its
/// partner, a random task before it; and a random slot is its wish, with a weight from 1 to 9. Variable 4 (t - 1) + s says
/// that task t takes slot s. The same number gives the same instance each time.
pub fn workload_instance(alloc: Global, tasks: u32) -> Result<Instance, NoMemory>
    requires { tasks ≤ 1000000 }
    ensures is { IfOk result (λ made. made ≡ workload tasks) }

    // It is far below the limits of the program, and gets no label.
    ensures weights { IfOk result (λ made. weights_of made.soft < weight_bound) }
    ensures no_labels { IfOk result (λ made. long_softs made.soft ≡ []) }
{
    let mut hard = Clauses::new(alloc);
    let mut soft = Softs::new(alloc);
    let mut state = u64::from(tasks);
    for task in 1..tasks + 1 {
        state = add_clauses(alloc, &mut hard, state, task)?;
        state = add_soft(alloc, &mut soft, state, task)?;
    }
    Ok(Instance {
        vars: 4 * tasks,
        hard,
        soft,
    })
}

// Adds the hard clauses of a task and gives back the state after the draw of its partner, of which the first has none.
fn add_clauses(alloc: Global, hard: &mut Clauses, state: u64, task: u32) -> Result<u64, NoMemory>
    requires task { (1 ≤ task) × (task ≤ 1000000) }
    requires state { state < 4294967296 }
    ensures state { IfOk result (λ after. after ≡ (if nat_le 2 task then next_of state else state)) }
    ensures hard { IfOk result (λ after. hard.new ≡ hard.old ++ ((some_slot task ∷ one_slot task) ++ (if nat_le 2 task then apart_slots task (1 + drawn after % (task - 1)) else []))) }
{
    add_slots(alloc, hard, task)?;
    if task < 2 {
        return Ok(state);
    }
    let after = next_of(state);
    add_partner(alloc, hard, task, 1 + drawn(after) % (task - 1))?;
    Ok(after)
}

// Exactly one slot for the task.
fn add_slots(alloc: Global, hard: &mut Clauses, task: u32) -> Result<(), NoMemory>
    requires { (1 ≤ task) × (task ≤ 1000000) }
    ensures { OnOk result (hard.new ≡ hard.old ++ some_slot task ∷ one_slot task) }
{
    let first = takes(task, 1);
    let second = takes(task, 2);
    let third = takes(task, 3);
    let fourth = takes(task, 4);
    hard.push(Clause::from_slice(alloc, &[first, second, third, fourth])?)?;
    let pairs = [
        (first, second),
        (first, third),
        (first, fourth),
        (second, third),
        (second, fourth),
        (third, fourth),
    ];
    add_not_both(alloc, hard, &pairs)
}

// No slot for both tasks.
fn add_partner(alloc: Global, hard: &mut Clauses, task: u32, partner: u32) -> Result<(), NoMemory>
    requires task { (1 ≤ task) × (task ≤ 1000000) }
    requires partner { (1 ≤ partner) × (partner ≤ 1000000) }
    ensures { OnOk result (hard.new ≡ hard.old ++ apart_slots task partner) }
{
    let pairs = [
        (takes(task, 1), takes(partner, 1)),
        (takes(task, 2), takes(partner, 2)),
        (takes(task, 3), takes(partner, 3)),
        (takes(task, 4), takes(partner, 4)),
    ];
    add_not_both(alloc, hard, &pairs)
}

fn add_not_both(alloc: Global, hard: &mut Clauses, pairs: &[(Lit, Lit)]) -> Result<(), NoMemory>
    ensures { OnOk result (hard.new ≡ hard.old ++ map (λ p. not_both p.0 p.1) pairs.now) }
{
    for (first, second) in pairs {
        let clause = Clause::from_slice(alloc, &[first.negated(), second.negated()])?;
        hard.push(clause)?;
    }
    Ok(())
}

// Adds the soft clause of a task and gives back the state after the draws of its weight and its slot.
fn add_soft(alloc: Global, soft: &mut Softs, state: u64, task: u32) -> Result<u64, NoMemory>
    requires task { (1 ≤ task) × (task ≤ 1000000) }
    requires state { state < 4294967296 }
    ensures state { IfOk result (λ after. after ≡ next_of (next_of state)) }
    ensures soft { OnOk result (soft.new ≡ soft.old ++ record { weight = 1 + drawn (next_of state) % 9; clause = takes task (1 + drawn (next_of (next_of state)) % 4) ∷ [] } ∷ []) }
{
    let weighed = next_of(state);
    let after = next_of(weighed);
    let wish = takes(task, 1 + drawn(after) % 4);
    let clause = Clause::from_slice(alloc, &[wish])?;
    soft.push(Soft {
        weight: u128::from(1 + drawn(weighed) % 9),
        clause,
    })?;
    Ok(after)
}

// The literal that the task takes the slot.
fn takes(task: u32, slot: u32) -> Lit
    requires task { (1 ≤ task) × (task ≤ 1000000) }
    requires slot { (1 ≤ slot) × (slot ≤ 4) }
    ensures { result ≡ takes task slot }
{
    Lit::new(4 * (task - 1) + slot, false)
}

// The next state of the generator, with the multiplier and the increment of ANSI C's example of `rand`.
fn next_of(state: u64) -> u64
    requires { state < 4294967296 }
    ensures is { result ≡ next_of state }
    ensures below { result < 2147483648 }
{
    (state * 1_103_515_245 + 12_345) % 2_147_483_648
}

// The high bits of a state, which are less regular than the low ones.
fn drawn(state: u64) -> u32
    requires { state < 2147483648 }
    ensures { result ≡ drawn state }
{
    (state / 65_536) as u32
}
