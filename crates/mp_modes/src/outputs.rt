//! How a run ends: its texts are written, or the line of its refusal is said.
ghost use Rattle.std.specs.Prelude.{◌≡◌, ◌<◌, ◌≤◌, ◌+◌, ℕ, OnOk, OnErr, length, take};
ghost use Rattle.mp_host.specs.World.{Rose, last_count, sent};
ghost use Rattle.mp_host.specs.declared.host.Port.TheVariants as ports;
ghost use Rattle.mp_modes.specs.Outputs.{IsOneOutput, map_steps, steps_of};
ghost use Rattle.mp_modes.specs.Refusals.{faults_of, line_of};
ghost use Rattle.mp_modes.specs.Running.{Does, DoesPart, Says, SaysOrWants, unsaid};
ghost use Rattle.mp_modes.specs.Traces.{outside_of};

use crate::refusal::{Refusal, fixed_line};
use crate::status::Outcome;
use mp_engine::Done;
use mp_host::{Failed, Host, Port, write_all};
use mp_text::Bytes;
use std::alloc::Global;

/// The text of a map, and the name of its file.
#[derive(Drop)]
pub struct MapText {
    pub name: String,
    pub text: Bytes,
}

/// The texts that a run writes, in this order. A mode that has nothing to say on the log has an empty text there.
#[derive(Drop)]
pub struct Outputs {
    pub map: Option<MapText>,
    pub out: Bytes,
    pub log: Bytes,
    /// What the run of the script left, where the mode runs one.
    pub done: Option<Done>,
}

/// The texts of a mode that runs no script and has one output.
pub fn one_output(alloc: Global, out: Bytes) -> Outputs
    ensures { IsOneOutput out result.done (steps_of result) }
{
    Outputs {
        map: None,
        out,
        log: Bytes::new(alloc),
        done: None,
    }
}

/// Writes the texts of a run; it stops at the first fault.
pub fn write_outputs<H: Host>(outputs: &Outputs, host: &mut H) -> Result<(), Failed>
    ensures whole { OnOk result (Does (steps_of outputs.now) (outside_of H.world H.asked H.read_faults H.write_faults host.old) (outside_of H.world H.asked H.read_faults H.write_faults host.new)) }
    ensures part { OnErr result (DoesPart (steps_of outputs.now) (outside_of H.world H.asked H.read_faults H.write_faults host.old) (outside_of H.world H.asked H.read_faults H.write_faults host.new)) }
    ensures fault { OnErr result (Rose (H.write_faults host.old) (H.write_faults host.new)) }
    ensures later { H.write_faults host.old ≤ H.write_faults host.new }
    ensures reads { H.read_faults host.new ≡ H.read_faults host.old }
{
    if let Err(_fault) = write_map_text(&outputs.map, host) {
        return Err(Failed);
    }
    if let Err(_fault) = write_all(host, Port::Out, outputs.out.items()) {
        return Err(Failed);
    }
    if let Err(_fault) = write_all(host, Port::Log, outputs.log.items()) {
        return Err(Failed);
    }
    Ok(())
}

// Creates the map's file and writes its text, where there is a map.
fn write_map_text<H: Host>(map: &Option<MapText>, host: &mut H) -> Result<(), Failed>
    ensures whole { OnOk result (Does (map_steps map.now) (outside_of H.world H.asked H.read_faults H.write_faults host.old) (outside_of H.world H.asked H.read_faults H.write_faults host.new)) }
    ensures part { OnErr result (DoesPart (map_steps map.now) (outside_of H.world H.asked H.read_faults H.write_faults host.old) (outside_of H.world H.asked H.read_faults H.write_faults host.new)) }
    ensures fault { OnErr result (Rose (H.write_faults host.old) (H.write_faults host.new)) }
    ensures later { H.write_faults host.old ≤ H.write_faults host.new }
    ensures reads { H.read_faults host.new ≡ H.read_faults host.old }
{
    let Some(map) = map else {
        return Ok(());
    };
    if let Err(_fault) = host.create_map(map.name.as_str()) {
        return Err(Failed);
    }
    if let Err(_fault) = write_all(host, Port::Map, map.text.items()) {
        return Err(Failed);
    }
    Ok(())
}

/// Says the line of a refusal, and answers how the run ends.
pub fn refuse<H: Host>(alloc: Global, refusal: Refusal, host: &mut H) -> Outcome
    ensures says { SaysOrWants refusal (outside_of H.world H.asked H.read_faults H.write_faults host.old) (outside_of H.world H.asked H.read_faults H.write_faults host.new) result }
    ensures counted { H.write_faults host.new < last_count → H.write_faults host.old + result.faults_seen ≤ H.write_faults host.new + faults_of refusal }
    ensures later { H.write_faults host.old ≤ H.write_faults host.new }
    ensures reads { H.read_faults host.new ≡ H.read_faults host.old }
{
    match refusal.text() {
        None => said(refusal, fixed_line(refusal), host),
        Some(text) => match text.line(alloc) {
            Ok(line) => said(refusal, line.items(), host),
            Err(_) => said(Refusal::NoMemory, fixed_line(Refusal::NoMemory), host),
        },
    }
}

// Says a line that is built, and answers how the run ends.
fn said<H: Host>(refusal: Refusal, line: &[u8], host: &mut H) -> Outcome
    requires { line.now ≡ line_of refusal }
    ensures says { Says refusal (outside_of H.world H.asked H.read_faults H.write_faults host.old) (outside_of H.world H.asked H.read_faults H.write_faults host.new) result }
    ensures counted { H.write_faults host.new < last_count → H.write_faults host.old + result.faults_seen ≤ H.write_faults host.new + faults_of refusal }
    ensures later { H.write_faults host.old ≤ H.write_faults host.new }
    ensures reads { H.read_faults host.new ≡ H.read_faults host.old }
{
    let failed = say(line, host);
    Outcome {
        status: refusal.status(),
        faults_seen: refusal.faults() + failed,
        done: None,
    }
}

// Writes a line to the log, and answers how many writes failed: 0 or 1.
fn say<H: Host>(line: &[u8], host: &mut H) -> u64
    ensures line { (count : ℕ) × (count ≤ length line.now) × (H.world host.new ≡ sent (H.world host.old) ports.Log (take count line.now)) × (result ≡ unsaid line.now count) }
    ensures one { result ≤ 1 }
    ensures counted { H.write_faults host.new < last_count → H.write_faults host.old + result ≤ H.write_faults host.new }
    ensures later { H.write_faults host.old ≤ H.write_faults host.new }
    ensures reads { H.read_faults host.new ≡ H.read_faults host.old }
    ensures names { H.asked host.new ≡ H.asked host.old }
{
    match write_all(host, Port::Log, line) {
        Ok(()) => 0,
        Err(_) => 1,
    }
}
