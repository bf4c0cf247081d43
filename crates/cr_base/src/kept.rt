// SPDX-License-Identifier: Apache-2.0 OR MIT
//! A record whose only reader ticks. This module has nothing else, so that nothing else reads the field.
ghost use Rattle.std.specs.Prelude.{◌≡◌};
ghost use Rattle.cr_base.specs.Papers.{with_texts, as_withdrawn};
ghost use Rattle.cr_base.specs.Steps.{Takes};

use crate::paper::Paper;
use crate::steps::Steps;
use crate::texts::Text;
use std::marker::Model;
use std::sync::ledger::Ledger;

/// A stored record, which only calls that tick can read.
///
/// # Model
///
/// The record.
#[derive(Drop)]
pub struct Kept<V> {
    value: V,
}

impl<V> Model for Kept<V> {
    ghost Value = { V };

    ghost view = { λ k. k.value };
}

impl<V: Drop> Kept<V> {
    /// Returns the record, to be stored.
    pub fn new(value: V) -> Kept<V>
        ensures { result ≡ value }
    {
        Kept { value }
    }

    /// Returns the record, to be read.
    ///
    /// # Cost
    ///
    /// One step.
    pub fn get<L: Ledger>(&self, steps: &mut Steps<L>) -> &V
        ensures value { result.now ≡ self.now }
        ensures steps { Takes 1 steps.old steps.new }
    {
        steps.ticks(1);
        &self.value
    }

    /// Sets the record. Its old value can be read only by `get`.
    pub fn set(&mut self, value: V)
        ensures { self.new ≡ value }
    {
        self.value = value;
    }
}

impl Kept<Paper> {
    /// Gives the paper other texts.
    ///
    /// # Cost
    ///
    /// Nothing is read.
    pub fn revise(&mut self, title: Text, abstract_: Text)
        ensures { self.new ≡ with_texts title abstract_ self.old }
    {
        self.value.title = title;
        self.value.abstract_ = abstract_;
    }

    /// Withdraws the paper.
    ///
    /// # Cost
    ///
    /// Nothing is read.
    pub fn withdraw(&mut self)
        ensures { self.new ≡ as_withdrawn self.old }
    {
        self.value.withdrawn = true;
    }
}
