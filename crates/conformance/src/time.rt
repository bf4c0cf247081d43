// SPDX-License-Identifier: Apache-2.0 OR MIT
//! The moments that the clocks of a case give.

use crate::text::LineError;
use cr_base::Moment;

/// How many bytes a date has (RFC 9110, section 5.6.7).
const DATE: usize = 29;

/// A moment, and its date as a case spells it: no date is computed here.
#[derive(Clone, Copy)]
pub struct Time {
    pub moment: Moment,
    pub date: [u8; DATE],
}

impl Time {
    /// Returns the time of a case that tells none: the example of RFC 9110.
    pub fn usual() -> Result<Time, LineError> {
        Time::read("784111777 Sun, 06 Nov 1994 08:49:37 GMT")
    }

    /// Returns the one that `SECONDS DATE` tells.
    pub fn read(text: &str) -> Result<Time, LineError> {
        let (seconds, text) = text.split_once(' ').ok_or(LineError::NoForm)?;
        let Ok(seconds) = seconds.parse::<u64>() else {
            return Err(LineError::NoForm);
        };
        let moment = Moment::new(seconds).ok_or(LineError::NoForm)?;
        let mut date = [0; DATE];
        if text.len() != DATE {
            return Err(LineError::NoForm);
        }
        date.copy_from_slice(text.as_bytes());
        Ok(Time { moment, date })
    }
}
