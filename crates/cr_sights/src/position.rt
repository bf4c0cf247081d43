// SPDX-License-Identifier: Apache-2.0 OR MIT
//! Where an entry is among those of its series.
use std::marker::Model;

/// The place of an entry among those of its series: a paper's texts, its content, the forms under one of its labels,
/// or the decisions on it. An entry of any other kind is the first and the last of its own.
///
/// # Model
///
/// It as the visibility policy reads it.
#[derive(Clone, Copy)]
pub struct Position {
    /// True if no earlier entry is of its series.
    pub first: bool,
    /// True if no later one is.
    pub last: bool,
    /// True if the response wasn't opened before it, and no later entry of its series was made before that.
    pub last_before_response: bool,
    /// True if the discussion wasn't opened before it, and no later entry of its series was made before that.
    pub last_before_discussion: bool,
    /// True if the discussion was opened before it.
    pub from_discussion: bool,
}

impl Model for Position {
    ghost use Rattle.cr_policy.specs.Triggers.{Position as SeenPosition};

    ghost Value = { SeenPosition };

    ghost view = { λ p. record {
      first = p.first;
      last = p.last;
      last_before_response = p.last_before_response;
      last_before_discussion = p.last_before_discussion;
      from_discussion = p.from_discussion;
    } };

    ghost inverse = { λ p. record {
      first = p.first;
      last = p.last;
      last_before_response = p.last_before_response;
      last_before_discussion = p.last_before_discussion;
      from_discussion = p.from_discussion;
    } };
}
