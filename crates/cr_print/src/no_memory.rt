// SPDX-License-Identifier: Apache-2.0 OR MIT
//! The answer to a lack of memory, which lies ready but for its date.
ghost use Rattle.std.specs.Prelude.{◌≡◌, ◌≤◌, ◌++◌, codes, length};
ghost use Rattle.cr_print.specs.Answers.{no_memory_text};
ghost use Rattle.cr_print.specs.Dates.{date_text};

use crate::date::{DATE_TEXT, Date};
use arrayvec::ArrayVec;
use std::marker::Model;

/// The bytes of the answer with its content: 41 ahead of the date, and 96 after it.
const ROOM: usize = 41 + DATE_TEXT + 96;

/// The bytes of the answer where memory ran out. They lie on the stack.
///
/// # Model
///
/// The bytes.
#[derive(Drop)]
pub struct NoMemoryText {
    text: ArrayVec<u8, ROOM>,
}

impl Model for NoMemoryText {
    ghost use Rattle.std.specs.Prelude.{ℕ, List};

    ghost Value = { List ℕ };

    ghost view = { λ n. n.text.items };
}

impl NoMemoryText {
    /// Returns the bytes.
    pub fn as_slice(&self) -> &[u8]
        ensures { result.now ≡ self.now }
    {
        self.text.as_slice()
    }
}

/// Returns the answer with this date, and after it what is given.
fn dated(date: Date, back: &[u8]) -> NoMemoryText
    requires { length back.now ≤ 96 }
    ensures { result ≡ codes "HTTP/1.1 507 Insufficient Storage\r\nDate: " ++ date_text date ++ back.now }
{
    let mut text: ArrayVec<u8, ROOM> = ArrayVec::new();
    text.try_extend_from_slice(b"HTTP/1.1 507 Insufficient Storage\r\nDate: ")
        .unwrap();
    text.try_extend_from_slice(date.as_bytes()).unwrap();
    text.try_extend_from_slice(back).unwrap();
    NoMemoryText { text }
}

/// Returns the answer where memory ran out, as `print_refusal` writes it with `closes`.
///
/// # Cost
///
/// It takes no memory and no room in any buffer.
pub fn no_memory_text(is_head: bool, date: Date) -> NoMemoryText
    ensures { result ≡ no_memory_text is_head date }
{
    if is_head {
        dated(
            date,
            b"\r\nContent-Type: application/json\r\nContent-Length: 21\r\nConnection: close\r\n\r\n",
        )
    } else {
        dated(
            date,
            b"\r\nContent-Type: application/json\r\nContent-Length: 21\r\nConnection: close\r\n\r\n{\"error\":\"no_memory\"}",
        )
    }
}
