// SPDX-License-Identifier: Apache-2.0 OR MIT
//! A drill, whose summary is written.
ghost use Rattle.std.specs.Prelude.{◌≡◌, ◌≤◌, ◌⊎◌};
ghost use Rattle.cr_ports.specs.Count.{Rises};
ghost use Rattle.cr_ports.specs.Writing.{outlet_of};
ghost use Rattle.cr_top.specs.declared.exit.Exit.{Exit};
ghost use Rattle.cr_top.specs.Runs.{TellsDrill};

use crate::exit::Exit;
use cr_drill::run_drill;
use cr_ports::{Sink, write_all};
use std::alloc::Global;

/// Makes a drill, and writes its summary, as `run_drill` tells it.
///
/// `WriteFault` comes only where the count of `out` rose, or stands at its last value, and `OutOfMemory` for lack of
/// memory alone; then nothing is written.
pub fn drill<O: Sink>(alloc: Global, seed: u32, steps: u32, out: &mut O) -> Exit
    requires { (1 ≤ steps) × (steps ≤ 100000) }
    ensures tells { TellsDrill seed steps result (outlet_of O.taken O.faults out.old)
        (outlet_of O.taken O.faults out.new) }
    ensures answers { (Rises (O.faults out.old) (O.faults out.new) → ⊥)
        → (result ≡ Exit.OutOfMemory) ⊎ (result ≡ Exit.Done) }
    ensures fault { result ≡ Exit.WriteFault → Rises (O.faults out.old) (O.faults out.new) }
{
    let Ok(text) = run_drill(alloc, u64::from(seed), u64::from(steps)) else {
        return Exit::OutOfMemory;
    };
    match write_all(out, text.as_slice()) {
        Ok(()) => Exit::Done,
        Err(_) => Exit::WriteFault,
    }
}
