// SPDX-License-Identifier: Apache-2.0 OR MIT
//! How connections are shared among doors.
ghost use Rattle.std.specs.Prelude.{◌≡◌, ◌<◌, length, sum};
ghost use Rattle.cr_ports.specs.Doors.{share_of, shares};

/// Returns how many of so many connections door number `i`, from 0, of `workers` gives: the quotient of the two, and
/// one more for the first doors, as many as the remainder tells.
pub fn share(i: u32, workers: u32, connections: u32) -> u32
    requires { 0 < workers }
    ensures { result ≡ share_of i workers connections }
{
    let even = connections / workers;
    if i < connections % workers {
        return even + 1;
    }
    even
}

/// Proves that the shares of all doors, one a worker, add up to the connections.
pub fn law_shares(workers: u32, connections: u32)
    requires { 0 < workers }
    ensures total { sum (shares workers connections) ≡ connections }
    ensures doors { length (shares workers connections) ≡ workers }
{}
