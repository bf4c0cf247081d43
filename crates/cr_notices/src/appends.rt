// SPDX-License-Identifier: Apache-2.0 OR MIT
//! What standard error is told of appends.

use std::fmt::Display;

/// The state of appends: taken, or refused.
#[derive(Clone, Copy, PartialEq, Eq)]
enum Appends {
    /// The last one was kept.
    Taken,
    /// One was refused for a reason that may pass, as a full disk.
    Refused,
    /// No further one is taken until the program is started again: a sync failed, or what else leaves in doubt what
    /// the disk has.
    Over,
}

/// Tells standard error in a line where appends begin to be refused, and in one where they are taken again; or nobody.
pub struct Notices {
    rt: Option<HostRuntime>,
    /// As it was told last.
    appends: Appends,
}

// Written out, so that a caller doesn't prove again how each part is dropped.
impl Drop for Notices {
    fn drop(self) {
        let Notices { rt: _, appends: _ } = self;
    }
}

impl Notices {
    /// Returns notices that go nowhere.
    pub fn none() -> Notices {
        Notices {
            rt: None,
            appends: Appends::Taken,
        }
    }

    /// Returns notices that go to standard error.
    pub fn on_standard_error(rt: &HostRuntime) -> Notices {
        Notices {
            rt: Some(*rt),
            appends: Appends::Taken,
        }
    }

    /// Notes that an append was kept.
    pub fn taken(&mut self) {
        if self.has_changed(Appends::Taken) {
            self.tell_taken();
        }
    }

    /// Notes that an append was refused for this reason; none is taken any more if it `is_over`.
    pub fn refused<R: Display>(&mut self, reason: &R, is_over: bool) {
        if is_over {
            if self.has_changed(Appends::Over) {
                self.tell_over(reason);
            }
        } else if self.has_changed(Appends::Refused) {
            self.tell_refused(reason);
        }
    }

    /// Returns whether this is other than what was told last; it is noted as told.
    fn has_changed(&mut self, appends: Appends) -> bool {
        let changed = appends != self.appends;
        self.appends = appends;
        changed
    }

    // A line that can't be written is left out, since nobody waits for it.

    fn tell_taken(&self) {
        if let Some(rt) = &self.rt {
            let _ = eprintln!(rt; "confd: commands are taken again");
        }
    }

    fn tell_refused<R: Display>(&self, reason: &R) {
        if let Some(rt) = &self.rt {
            let _ = eprintln!(rt;
                "confd: commands are refused (503): {reason}; they are taken again as soon as one can be kept"
            );
        }
    }

    fn tell_over<R: Display>(&self, reason: &R) {
        if let Some(rt) = &self.rt {
            let _ = eprintln!(rt;
                "confd: commands are refused (503): {reason}; confd has to be started again, to see what the disk has"
            );
        }
    }
}
