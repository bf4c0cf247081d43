// SPDX-License-Identifier: Apache-2.0 OR MIT
//! The answer to a lack of memory.

use cr_base::Moment;
use cr_print::{Date, no_memory_text};

#[test]
fn want_of_memory(rt: HostRuntime) {
    assert!(rt;
        no_memory_text(false, Date::of(Moment::epoch())).as_slice()
            == concat!(
                "HTTP/1.1 507 Insufficient Storage\r\nDate: Thu, 01 Jan 1970 00:00:00 GMT\r\n",
                "Content-Type: application/json\r\nContent-Length: 21\r\nConnection: close\r\n\r\n",
                "{\"error\":\"no_memory\"}"
            )
            .as_bytes()
    );
}
