// SPDX-License-Identifier: Apache-2.0 OR MIT
//! Replies.
ghost use Rattle.std.specs.Prelude.{◌≡◌, OnErr, map};
ghost use Rattle.cr_json.specs.Put.{HasRoom, Puts};
ghost use Rattle.cr_print.specs.Prints.{Prints};
ghost use Rattle.cr_print.specs.Answers.{bytes_head, content_front, text_head, report_front, served_text, list_text};
ghost use Rattle.cr_print.specs.Answers.{accounts_text, deadlines_text, papers_text, reviews_text, comments_text};
ghost use Rattle.cr_print.specs.Answers.{found_text, page_text, me_text, response_text};
ghost use Rattle.cr_print.specs.Answers.{front_text, block_text, IsBrief};

use crate::brief::ANSWER_ROOM;
use crate::conference::print_conference;
use crate::found::{append_found, print_count};
use crate::head::{AnswerHead, Extra, HEAD_ROOM, MediaType, json, print_head};
use crate::me::append_me;
use crate::page::{append_page, page_room};
use crate::put::put;
use crate::receipt::print_receipt;
use crate::refused::{Refused, print_refusal};
use crate::response::append_response;
use crate::sending::Sending;
use crate::status::Status;
use cr_base::{
    AcceptedPapers, AccountLines, CommentLines, FoundPapers, Me, Page, PhaseDeadlines, Reply,
    ReviewLines, Text,
};
use cr_json::{Value, append_list_alone};
use std::alloc::AllocError;

/// Appends the answer that has this content, whatever its length.
fn print_content(into: &mut Vec<u8>, content: &[u8], sending: Sending) -> Result<(), AllocError>
    ensures { Prints result into.old into.new (served_text content.now sending) }
{
    let sent = if sending.is_head {
        b"".as_slice()
    } else {
        content
    };
    into.reserve(HEAD_ROOM + sent.len())?;
    print_head(
        into,
        json(Status::Okay, Extra::Nothing),
        content.len(),
        sending,
    );
    put(into, sent);
    Ok(())
}

#[tactic(auto, unfolding(crate::specs::Answers::list_text))]
fn print_list<T: Value>(
    into: &mut Vec<u8>,
    key: &str,
    items: &[T],
    sending: Sending,
) -> Result<(), AllocError>
    ensures { Prints result into.old into.new (list_text key.now (map T.text items.now) sending) }
{
    let mut content = Vec::new(*into.allocator());
    append_list_alone(&mut content, key, items)?;
    print_content(into, content.as_slice(), sending)
}

// Each list has a function of its own, so that no proof has all of their texts before it.

#[tactic(auto, unfolding(crate::specs::Answers::accounts_text))]
fn print_accounts(
    into: &mut Vec<u8>,
    accounts: &AccountLines,
    sending: Sending,
) -> Result<(), AllocError>
    ensures { Prints result into.old into.new (accounts_text accounts.now sending) }
{
    print_list(into, "accounts", accounts.as_slice(), sending)
}

#[tactic(auto, unfolding(crate::specs::Answers::deadlines_text))]
fn print_deadlines(
    into: &mut Vec<u8>,
    deadlines: &PhaseDeadlines,
    sending: Sending,
) -> Result<(), AllocError>
    ensures { Prints result into.old into.new (deadlines_text deadlines.now sending) }
{
    print_list(into, "deadlines", deadlines.as_slice(), sending)
}

#[tactic(auto, unfolding(crate::specs::Answers::papers_text))]
fn print_accepted(
    into: &mut Vec<u8>,
    papers: &AcceptedPapers,
    sending: Sending,
) -> Result<(), AllocError>
    ensures { Prints result into.old into.new (papers_text papers.now sending) }
{
    print_list(into, "papers", papers.as_slice(), sending)
}

#[tactic(auto, unfolding(crate::specs::Answers::reviews_text))]
fn print_reviews(
    into: &mut Vec<u8>,
    reviews: &ReviewLines,
    sending: Sending,
) -> Result<(), AllocError>
    ensures { Prints result into.old into.new (reviews_text reviews.now sending) }
{
    print_list(into, "reviews", reviews.as_slice(), sending)
}

#[tactic(auto, unfolding(crate::specs::Answers::comments_text))]
fn print_comments(
    into: &mut Vec<u8>,
    comments: &CommentLines,
    sending: Sending,
) -> Result<(), AllocError>
    ensures { Prints result into.old into.new (comments_text comments.now sending) }
{
    print_list(into, "comments", comments.as_slice(), sending)
}

#[tactic(auto, unfolding(crate::specs::Answers::found_text))]
fn print_found(into: &mut Vec<u8>, papers: &FoundPapers, sending: Sending) -> Result<(), AllocError>
    ensures { Prints result into.old into.new (found_text papers.now sending) }
{
    let mut content = Vec::new(*into.allocator());
    append_found(&mut content, papers)?;
    print_content(into, content.as_slice(), sending)
}

#[tactic(auto, unfolding(crate::specs::Answers::page_text))]
fn print_page(into: &mut Vec<u8>, page: &Page, sending: Sending) -> Result<(), AllocError>
    ensures { Prints result into.old into.new (page_text page.now sending) }
{
    let mut content = Vec::with_capacity(*into.allocator(), page_room(page))?;
    append_page(&mut content, page)?;
    print_content(into, content.as_slice(), sending)
}

#[tactic(auto, unfolding(crate::specs::Answers::me_text))]
fn print_me(into: &mut Vec<u8>, me: &Me, sending: Sending) -> Result<(), AllocError>
    ensures { Prints result into.old into.new (me_text me.now sending) }
{
    let mut content = Vec::new(*into.allocator());
    append_me(&mut content, me)?;
    print_content(into, content.as_slice(), sending)
}

#[tactic(auto, unfolding(crate::specs::Answers::response_text))]
fn print_response(into: &mut Vec<u8>, text: &Text, sending: Sending) -> Result<(), AllocError>
    ensures { Prints result into.old into.new (response_text text.now sending) }
{
    let mut content = Vec::new(*into.allocator());
    append_response(&mut content, text)?;
    print_content(into, content.as_slice(), sending)
}

/// Returns the head of an answer whose content is unchanged bytes.
fn head_of_bytes() -> AnswerHead
    ensures { result ≡ bytes_head }
{
    AnswerHead {
        status: Status::Okay,
        media_type: MediaType::OctetStream,
        extra: Extra::Nothing,
    }
}

/// Appends what is in front of a content of so many bytes. It can't fail.
#[tactic(auto, unfolding(crate::specs::Answers::content_front))]
fn print_front(into: &mut Vec<u8>, length: usize, sending: Sending)
    requires { HasRoom into.old 224 }
    ensures { Puts into.old into.new (content_front length sending) 224 }
{
    print_head(into, head_of_bytes(), length, sending);
}

/// Returns the head of an answer whose content is text.
fn head_of_text() -> AnswerHead
    ensures { result ≡ text_head }
{
    AnswerHead {
        status: Status::Okay,
        media_type: MediaType::PlainText,
        extra: Extra::Nothing,
    }
}

/// Appends what is in front of a report of so many bytes. It can't fail.
#[tactic(auto, unfolding(crate::specs::Answers::report_front))]
fn print_report_front(into: &mut Vec<u8>, length: usize, sending: Sending)
    requires { HasRoom into.old 224 }
    ensures { Puts into.old into.new (report_front length sending) 224 }
{
    print_head(into, head_of_text(), length, sending);
}

/// Appends the answer of a reply, except what `block` lends: of a paper's content and of a report only the head is
/// appended. The content of a list, a page, a response, a search's result or the caller's own record is made in a
/// vector of its own, to HEAD too, and copied once.
///
/// # Errors
///
/// If memory runs out. `into` then has the bytes that it had; its room may have grown. With room for 512 bytes it
/// never fails for a receipt, a refusal, the conference, a count, a content or a report.
pub fn print_reply(into: &mut Vec<u8>, reply: &Reply, sending: Sending) -> Result<(), AllocError>
    ensures prints { Prints result into.old into.new (front_text sending reply.now) }
    ensures sure { OnErr result (IsBrief reply.now → HasRoom into.old 512 → ⊥) }
{
    match reply {
        Reply::Accepted(receipt) => {
            into.reserve(ANSWER_ROOM)?;
            print_receipt(into, receipt, sending);
            Ok(())
        }
        Reply::Refused(rule) => {
            into.reserve(ANSWER_ROOM)?;
            print_refusal(into, Refused::Rule(*rule), sending);
            Ok(())
        }
        Reply::RowRefused { row, rule } => {
            into.reserve(ANSWER_ROOM)?;
            let refused = Refused::Row {
                row: *row,
                rule: *rule,
            };
            print_refusal(into, refused, sending);
            Ok(())
        }
        Reply::Accounts(accounts) => print_accounts(into, accounts, sending),
        Reply::Deadlines(deadlines) => print_deadlines(into, deadlines, sending),
        Reply::AcceptedPapers(papers) => print_accepted(into, papers, sending),
        Reply::Reviews(reviews) => print_reviews(into, reviews, sending),
        Reply::Response(text) => print_response(into, text, sending),
        Reply::Comments(comments) => print_comments(into, comments, sending),
        Reply::Found(papers) => print_found(into, papers, sending),
        Reply::Count(count) => {
            into.reserve(ANSWER_ROOM)?;
            print_count(into, *count, sending);
            Ok(())
        }
        Reply::Page(page) => print_page(into, page, sending),
        Reply::Me(me) => print_me(into, me, sending),
        Reply::Conference(conference) => {
            into.reserve(ANSWER_ROOM)?;
            print_conference(into, *conference, sending);
            Ok(())
        }
        Reply::Content(content) => {
            into.reserve(HEAD_ROOM)?;
            print_front(into, content.as_slice().len(), sending);
            Ok(())
        }
        Reply::Report(text) => {
            into.reserve(HEAD_ROOM)?;
            print_report_front(into, text.as_slice().len(), sending);
            Ok(())
        }
    }
}

/// Returns what is to be written after what `print_reply` appended: a paper's content unchanged, or the text of a
/// report, unless the answer is to HEAD, and nothing of any other reply. It is lent, so this takes no memory and no
/// time.
pub fn block<'a>(reply: &'a Reply, sending: &Sending) -> &'a [u8]
    ensures { result.now ≡ block_text sending.now reply.now }
{
    match reply {
        Reply::Content(content) if !sending.is_head => content.as_slice(),
        Reply::Report(text) if !sending.is_head => text.as_slice(),
        _ => &[],
    }
}
