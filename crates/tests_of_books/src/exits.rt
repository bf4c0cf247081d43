// SPDX-License-Identifier: Apache-2.0 OR MIT
//! The statuses of the exits by their numbers.

use cr_session::Ending;
use cr_top::{Exit, exit_of};

#[test]
fn numbers_the_exits(rt: HostRuntime) {
    for (exit, code) in [
        (exit_of(Ending::Clean), 0),
        (exit_of(Ending::Cut), 1),
        (Exit::Usage, 2),
        (Exit::BadStore { row: 0, kind: 18 }, 3),
        (exit_of(Ending::ReadFault), 4),
        (exit_of(Ending::WriteFault), 5),
        (Exit::KeeperFault, 6),
        (Exit::NoUser, 8),
        (exit_of(Ending::OutOfMemory), 9),
        (exit_of(Ending::ClockFault), 10),
    ] {
        assert_eq!(rt; exit.code(), code);
    }
}
