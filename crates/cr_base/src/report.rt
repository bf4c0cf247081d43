// SPDX-License-Identifier: Apache-2.0 OR MIT
//! Reports: what the committee and authors may have as plain text.
ghost use Rattle.std.specs.Prelude.{◌≡◌};
ghost use Rattle.cr_base.specs.Reports.{report_kind, report_on};

use crate::numbers::PaperNo;

/// A report, by its kind.
#[derive(Clone, Copy, PartialEq, Eq)]
pub enum ReportKind {
    /// All papers: GET or HEAD of `/reports/papers`.
    Papers,
    /// The scores of each paper: GET or HEAD of `/reports/scores`.
    Scores,
    /// Who reviews how much: GET or HEAD of `/reports/load`.
    Load,
    /// The decision on each paper: GET or HEAD of `/reports/decisions`.
    Decisions,
    /// The letter to a paper's authors: GET or HEAD of `/reports/letter/{p}`.
    Letter,
}

/// Which report is asked for.
#[derive(Clone, Copy)]
pub enum Report {
    /// All papers, a line each: for members, from the bidding on.
    Papers,
    /// The scores of each paper, a line each: for members, from the discussion on.
    Scores,
    /// How much each member reviews, a line each: for chairs, from the bidding on.
    Load,
    /// The decision on each paper, a line each: for members, from the discussion on.
    Decisions,
    /// The decision on a paper with its reviews: for its authors, from the notification on.
    Letter {
        /// The paper; `None` if the request names no valid paper number.
        paper: Option<PaperNo>,
    },
}

impl Report {
    /// Returns its kind.
    pub fn kind(&self) -> ReportKind
        ensures { result ≡ report_kind self.now }
    {
        match self {
            Report::Papers => ReportKind::Papers,
            Report::Scores => ReportKind::Scores,
            Report::Load => ReportKind::Load,
            Report::Decisions => ReportKind::Decisions,
            Report::Letter { .. } => ReportKind::Letter,
        }
    }
}

impl ReportKind {
    /// Returns the report of this kind. A letter is on the paper told.
    pub fn on(self, paper: Option<PaperNo>) -> Report
        ensures { result ≡ report_on self paper }
    {
        match self {
            ReportKind::Papers => Report::Papers,
            ReportKind::Scores => Report::Scores,
            ReportKind::Load => Report::Load,
            ReportKind::Decisions => Report::Decisions,
            ReportKind::Letter => Report::Letter { paper },
        }
    }
}
