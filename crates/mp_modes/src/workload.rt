//! The mode `workload`: a script run on a made instance, and the summary of that.
ghost use Rattle.std.specs.Prelude.{◌≡◌, ◌≤◌, IfOk, IfErr, IsErrOf};
ghost use Rattle.mp_host.specs.World.{Rose};
ghost use Rattle.mp_labels.specs.LabelView.{label_view};
ghost use Rattle.core_solver.specs.Verdicts.{IsQuery, IsRightVerdict};
ghost use Rattle.mp_engine.specs.LogText.{close_text};
ghost use Rattle.mp_engine.specs.Stores.{CanRun};
ghost use Rattle.mp_modes.specs.Running.{Prepares, StopsReading};
ghost use Rattle.mp_modes.specs.Traces.{outside_of};
ghost use Rattle.mp_modes.specs.WorkloadMode.{Works, sizes_in, workload_mode};
ghost use Rattle.mp_workload.specs.Workload.{workload};

use crate::limits::limits;
use crate::outputs::Outputs;
use crate::refusal::Refusal;
use core_solver::{Query, Verdict, solve};
use mp_engine::{Close, Done, log_text, run_from_labelled};
use mp_host::Host;
use mp_labels::{Labelled, label};
use mp_logic::NoMemory;
use mp_script::Script;
use mp_text::Bytes;
use mp_workload::{Sizes, Summary, summary_text, workload_instance};
use std::alloc::Global;
use t_probe::Oracle;

/// Makes the workload of so many tasks, at most 1,000,000, runs the script on it, and builds the summary and the log.
pub fn workload_run<H: Host>(
    alloc: Global,
    tasks: u32,
    script: &Script,
    host: &mut H,
) -> Result<Outputs, Refusal>
    requires tasks { tasks ≤ 1000000 }
    requires script { CanRun script.now }
    ensures prepared { IfOk result (Prepares (workload_mode tasks script.now) (outside_of H.world H.asked H.read_faults H.write_faults host.old) (outside_of H.world H.asked H.read_faults H.write_faults host.new)) }
    ensures stopped { IfErr result (StopsReading (workload_mode tasks script.now) (outside_of H.world H.asked H.read_faults H.write_faults host.old) (outside_of H.world H.asked H.read_faults H.write_faults host.new)) }
    ensures fault { IsErrOf result Refusal.ReadFault → Rose (H.read_faults host.old) (H.read_faults host.new) }
    ensures later { H.read_faults host.old ≤ H.read_faults host.new }
    ensures writes { H.write_faults host.new ≡ H.write_faults host.old }
{
    match worked(alloc, tasks, script) {
        Ok(made) => Ok(Outputs {
            map: None,
            out: made.out,
            log: made.log,
            done: Some(made.done),
        }),
        Err(_) => Err(Refusal::NoMemory),
    }
}

/// What a run on a workload makes: the texts of the summary and of the log, and what it left.
#[derive(Drop)]
struct WorkloadTexts {
    out: Bytes,
    log: Bytes,
    done: Done,
}

/// Runs the script on the workload of so many tasks.
fn worked(alloc: Global, tasks: u32, script: &Script) -> Result<WorkloadTexts, NoMemory>
    requires tasks { tasks ≤ 1000000 }
    requires script { CanRun script.now }
    ensures { IfOk result (λ made. Works tasks script.now made.done made.out made.log) }
{
    let labelled = labelled_workload(alloc, tasks)?;
    // the sizes before the run are those of what the run takes in
    let before = sizes(&labelled)?;
    let oracle = Oracle::new(
        |alloc: Global, query: &Query| -> Result<Verdict, NoMemory>
            requires { IsQuery query.now }
            ensures { IfOk result (λ verdict. IsRightVerdict query.now verdict) }
        { solve(alloc, query) },
    );
    let done = run_from_labelled(alloc, labelled, &limits(), script, &oracle)?;
    let after = sizes(&done.labelled)?;
    let log = log_text(alloc, &done)?;
    let summary = Summary {
        tasks,
        before,
        after,
        offset: done.labelled.offset,
    };
    let out = summary_text(alloc, summary, close_line(done.close))?;
    Ok(WorkloadTexts { out, log, done })
}

/// The label view of the workload of so many tasks. It gets no new label, so no limit is near.
fn labelled_workload(alloc: Global, tasks: u32) -> Result<Labelled, NoMemory>
    requires { tasks ≤ 1000000 }
    ensures view { IfOk result (λ l. l ≡ label_view (workload tasks)) }
    ensures fits { IfOk result (λ l. l.vars ≤ 16777215) }
{
    let instance = workload_instance(alloc, tasks)?;
    match label(alloc, &instance, &limits()) {
        Ok(labelled) => Ok(labelled),
        Err(_) => Err(NoMemory),
    }
}

/// How many hard clauses, literals in them and cost literals there are. More literals than a number of 64 bits counts have
/// no place in memory.
fn sizes(labelled: &Labelled) -> Result<Sizes, NoMemory>
    ensures { IfOk result (λ sizes. sizes ≡ sizes_in labelled.now) }
{
    let mut literals: u64 = 0;
    for clause in labelled.hard.items() {
        let Some(more) = literals.checked_add(clause.len() as u64) else {
            return Err(NoMemory);
        };
        literals = more;
    }
    Ok(Sizes {
        clauses: labelled.hard.len() as u64,
        literals,
        costs: labelled.costs.len() as u64,
    })
}

/// The last line of the log of a run that closed so.
fn close_line(close: Close) -> &'static [u8]
    ensures { result.now ≡ close_text close }
{
    match close {
        Close::Settled => b"c settled\n",
        Close::Unsettled => b"c unsettled\n",
        Close::Single => b"c single\n",
        Close::Refuted => b"c refuted\n",
    }
}
