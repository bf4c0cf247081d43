// SPDX-License-Identifier: Apache-2.0 OR MIT
//! confd, a conference review server: the command line over standard input and standard output.
#![tactic(auto)]

use std::process::ExitCode;

fn main(rt: HostRuntime) -> ExitCode {
    cr_process::run(&rt, &rt)
}
