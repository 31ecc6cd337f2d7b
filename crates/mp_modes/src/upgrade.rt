//! The mode `upgrade`: a map written anew in the latest version.
ghost use Rattle.std.specs.Prelude.{◌≡◌, ◌≤◌, IfOk, IfErr, IsErrOf, string_bytes};
ghost use Rattle.mp_host.specs.World.{Rose};
ghost use Rattle.mp_map.specs.Maps.{IsMap, map_text, upgraded};
ghost use Rattle.mp_modes.specs.Running.{Prepares, StopsReading};
ghost use Rattle.mp_modes.specs.Traces.{outside_of};
ghost use Rattle.mp_modes.specs.UpgradeMode.{upgrade_mode};

use crate::inputs::read_map_file;
use crate::outputs::{MapText, Outputs};
use crate::refusal::Refusal;
use mp_host::Host;
use mp_logic::NoMemory;
use mp_map::{MapFile, upgrade, write_map};
use mp_text::Bytes;
use mp_words::Upgrade;
use std::alloc::Global;

/// Reads a map, and builds the text of the same map in the latest version.
pub fn upgrade_file<H: Host>(
    alloc: Global,
    asked: Upgrade,
    host: &mut H,
) -> Result<Outputs, Refusal>
    ensures prepared { IfOk result (Prepares (upgrade_mode (string_bytes asked.file) (string_bytes asked.map)) (outside_of H.world H.asked H.read_faults H.write_faults host.old) (outside_of H.world H.asked H.read_faults H.write_faults host.new)) }
    ensures stopped { IfErr result (StopsReading (upgrade_mode (string_bytes asked.file) (string_bytes asked.map)) (outside_of H.world H.asked H.read_faults H.write_faults host.old) (outside_of H.world H.asked H.read_faults H.write_faults host.new)) }
    ensures fault { IsErrOf result Refusal.ReadFault → Rose (H.read_faults host.old) (H.read_faults host.new) }
    ensures later { H.read_faults host.old ≤ H.read_faults host.new }
    ensures writes { H.write_faults host.new ≡ H.write_faults host.old }
{
    let way = match read_map_file(alloc, asked.file.as_str(), host) {
        Ok(way) => way,
        Err(refusal) => return Err(refusal),
    };
    let text = match upgraded_text(alloc, &way) {
        Ok(text) => text,
        Err(_) => return Err(Refusal::NoMemory),
    };
    Ok(Outputs {
        map: Some(MapText {
            name: asked.map,
            text,
        }),
        out: Bytes::new(alloc),
        log: Bytes::new(alloc),
        done: None,
    })
}

// The text of the map that says the same in the latest version.
fn upgraded_text(alloc: Global, way: &MapFile) -> Result<Bytes, NoMemory>
    requires { IsMap way.now }
    ensures { IfOk result (λ text. text ≡ map_text (upgraded way.now)) }
{
    let upgraded = upgrade(alloc, way)?;
    write_map(alloc, &upgraded)
}
