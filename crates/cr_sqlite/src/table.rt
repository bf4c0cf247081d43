// SPDX-License-Identifier: Apache-2.0 OR MIT
//! The four tables of rows.

/// A text with the name of a table, which ends with the version of the tables.
macro_rules! naming {
    ($before:literal, $table:literal $(, $behind:literal)*) => {
        concat!($before, $table, "_v3" $(, $behind)*)
    };
}

pub(crate) use naming;

/// The text that adds a row to a table.
macro_rules! insert {
    ($table:literal) => {
        naming!(
            "INSERT INTO ",
            $table,
            " VALUES (?1, ?2, ?3, ?4, ?5, ?6, ?7, ?8, ?9, ?10, ?11, ?12, ?13, ?14)"
        )
    };
}

/// The text that reads so many rows of a table from a place on.
macro_rules! page {
    ($table:literal, $most:literal) => {
        naming!(
            "SELECT * FROM ",
            $table,
            " WHERE place >= ?1 ORDER BY place LIMIT ",
            $most
        )
    };
}

/// A table of rows, by the kinds of entry that it has.
#[derive(Clone, Copy, PartialEq, Eq)]
pub(crate) enum Table {
    /// Kinds 1 to 4, 18 and 19.
    People,
    /// Kinds 5 to 9, contents among them.
    Papers,
    /// Kinds 10 to 13, 20 and 21.
    Ties,
    /// Kinds 14 to 17 and 22.
    Talk,
}

impl Table {
    /// Returns the table of a kind; `None` if no table is for it.
    pub fn of_kind(kind: u64) -> Option<Table> {
        match kind {
            1..=4 | 18..=19 => Some(Table::People),
            5..=9 => Some(Table::Papers),
            10..=13 | 20..=21 => Some(Table::Ties),
            14..=17 | 22 => Some(Table::Talk),
            _ => None,
        }
    }

    /// Returns the statement that adds a row: its place, then its fields in their order.
    pub fn insert(self) -> &'static str {
        match self {
            Table::People => insert!("people"),
            Table::Papers => insert!("papers"),
            Table::Ties => insert!("ties"),
            Table::Talk => insert!("talk"),
        }
    }

    /// Returns the statement that reads a page of rows from a place on: 1,000, or 16 if contents of 4 MiB may be
    /// among them.
    pub fn page(self) -> &'static str {
        match self {
            Table::People => page!("people", "1000"),
            Table::Papers => page!("papers", "16"),
            Table::Ties => page!("ties", "1000"),
            Table::Talk => page!("talk", "1000"),
        }
    }

    /// Returns the statement that counts the rows.
    pub fn count(self) -> &'static str {
        match self {
            Table::People => naming!("SELECT count(*) FROM ", "people"),
            Table::Papers => naming!("SELECT count(*) FROM ", "papers"),
            Table::Ties => naming!("SELECT count(*) FROM ", "ties"),
            Table::Talk => naming!("SELECT count(*) FROM ", "talk"),
        }
    }
}
