// SPDX-License-Identifier: Apache-2.0 OR MIT
//! Who bids on a paper and who reviews it.

use crate::object::Object;
use crate::value::Value;
use cr_base::{Bidder, Reviewer};
use std::alloc::AllocError;

/// A bid, and whose it is.
impl Value for Bidder {
    ghost use Rattle.cr_json.specs.Reviewers.{bidder_text};

    ghost text = { bidder_text };

    fn append_to(&self, into: &mut Vec<u8>) -> Result<(), AllocError> {
        let mut object = Object::open(into)?;
        object.bid(into, "bid", self.bid)?;
        object.string(into, "user", self.user.as_slice())?;
        object.close(into)
    }
}

/// A reviewer, as far as the caller is told of the user.
impl Value for Reviewer {
    ghost use Rattle.cr_json.specs.Reviewers.{reviewer_text};

    ghost text = { reviewer_text };

    fn append_to(&self, into: &mut Vec<u8>) -> Result<(), AllocError> {
        let mut object = Object::open(into)?;
        object.truth(into, "done", self.done)?;
        object.told(into, "kind", &self.kind)?;
        object.label(into, "label", self.label)?;
        object.told(into, "user", &self.user)?;
        object.close(into)
    }
}
