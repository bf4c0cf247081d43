// SPDX-License-Identifier: Apache-2.0 OR MIT
//! Gates over TCP: an opening at a port that the system chooses, and one that is refused.

use cr_net::{Reason, TcpGates};
use cr_ports::{Gates, Opened};
use std::alloc::Global;
use std::test::Fail;
use std::thread::Threads;

/// Returns how many doors were opened at this address; they are shut again.
fn doors_at<R: Threads>(alloc: Global, gates: &mut TcpGates<R>, addr: &str) -> usize {
    match gates.open(alloc, addr, 2, 3) {
        Opened::Doors(doors) => {
            let count = doors.len();
            gates.shut(doors);
            count
        }
        Opened::Failed | Opened::OutOfMemory => 0,
    }
}

#[test]
fn loopback_alone(rt: HostRuntime) -> Result<(), Fail> {
    let mut gates = TcpGates::new(&rt, &rt);
    let opened = doors_at(rt.alloc(), &mut gates, "127.0.0.1:0");
    let reason = gates.reason();
    let refused = doors_at(rt.alloc(), &mut gates, "192.0.2.1:0");
    assert!(rt; opened == 2 && reason == None);
    assert!(rt; refused == 0 && gates.reason() == Some(Reason::NotLoopback));
    Ok(())
}
