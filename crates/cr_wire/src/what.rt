// SPDX-License-Identifier: Apache-2.0 OR MIT
//! What a request wishes.
ghost use Rattle.std.specs.Prelude.{◌≡◌};

use cr_base::{Ask, BulkRows, Command, Moment, Query, RetryKey};
use cr_bodies::Credentials;
use cr_routes::Resource;

/// What a whole request asks, by its path, its method, its number and its body, or its query string.
#[derive(Drop)]
pub enum What {
    /// The path is none of the server's: answered `no_route`.
    NoRoute,
    /// The path doesn't answer this method: answered `wrong_method`, with the methods that it answers.
    WrongMethod(Resource),
    /// The number of a command or a bulk is none: answered `bad_number`, whatever the body is. Its field Command-Number
    /// is there more than once, or isn't 1 to 18 digits, the first not 0, the spaces and tabs around them aside.
    BadNumber(Ask),
    /// The body, or the tag in the path, isn't what the request needs: answered `bad_body`.
    BadBody(Ask),
    /// The query string tells no search, or no plan that may be asked for: answered `bad_query`.
    BadQuery {
        /// What is asked for: a search or a plan.
        ask: Ask,
        /// The last offset in the search's text, in bytes from 0 to 1,024, up to which that can be the beginning of a
        /// search; 0 where there is no text, and of a plan.
        offset: usize,
    },
    /// To change something.
    Command {
        /// The command's number, with the mark of the request; `None` if it has none; a registration never has one.
        key: Option<RetryKey>,
        /// What is to change.
        command: Command,
    },
    /// To be told something.
    Query(Query),
    /// To change what these rows tell, all of it or nothing.
    Bulk {
        /// The bulk's number, with the mark of the request; `None` if it has none.
        key: Option<RetryKey>,
        /// The rows.
        rows: BulkRows,
    },
}

/// A request whole: what it asks, its credentials, the form of its answer, and its timestamp.
#[derive(Drop)]
pub struct Wish {
    /// What the field Authorization tells a request that reads it; `None` if another comes with it, and if there is no
    /// such field, more than one, or one that tells none.
    pub credentials: Option<Credentials>,
    /// The answer comes without its content: the method is HEAD.
    pub is_head: bool,
    /// The request asks that the connection be closed after its answer.
    pub asks_close: bool,
    /// When its request was whole, by the clock: its answer is dated by it, and its entries keep it.
    pub at: Moment,
    /// What is wished.
    pub what: What,
}

impl What {
    ghost use Rattle.cr_wire.specs.Caller.{ask_of, wants_login};

    /// Returns what its request asks for: `None` if it is no request of the server's.
    fn ask(&self) -> Option<Ask>
        ensures { result ≡ ask_of self.now }
    {
        match self {
            What::NoRoute | What::WrongMethod(_) => None,
            What::BadNumber(ask) | What::BadBody(ask) => Some(*ask),
            What::BadQuery { ask, .. } => Some(*ask),
            What::Command { command, .. } => Some(command.ask()),
            What::Query(query) => Some(query.ask()),
            What::Bulk { .. } => Some(Ask::Bulk),
        }
    }

    /// Returns whether authentication is required, so that an unauthenticated caller is answered `unauthorized`. It is
    /// for each command except a registration, and for a bulk, also with a bad number or body; for a paper's page,
    /// content, reviews, response and comments; for searches and plans, also bad ones; for reports; and for what the
    /// caller is told about themselves. Registration, the list of accounts, the state of the conference, its deadlines
    /// and the accepted papers require none, and what is no request of these is refused alike to everybody. That the
    /// page and content of a published paper are public isn't looked at here, since the request doesn't tell which
    /// papers are published.
    ///
    /// Only a request that requires it reads the field Authorization; the caller of any other is unauthenticated.
    pub fn wants_login(&self) -> bool
        ensures { result ≡ wants_login self.now }
    {
        self.ask().is_some_and(Ask::wants_login)
    }
}
