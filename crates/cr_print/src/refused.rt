// SPDX-License-Identifier: Apache-2.0 OR MIT
//! Refusals, which are written without memory.
ghost use Rattle.std.specs.Prelude.{◌≡◌, ◌≤◌, length};
ghost use Rattle.cr_json.specs.Put.{Appends, HasRoom, Puts, Takes};
ghost use Rattle.cr_json.specs.Json.{AddsMembers};
ghost use Rattle.cr_print.specs.Refused.{closing_name, rule_name, refused_name, closing_status, rule_status};
ghost use Rattle.cr_print.specs.Refused.{refused_status, extra_of, further_members, refusal_content};
ghost use Rattle.cr_print.specs.Answers.{refusal_text};
ghost use Rattle.cr_print.specs.declared.refused.Refused.TheVariants as refused;

use crate::brief::print_brief;
use crate::head::{Extra, json};
use crate::sending::Sending;
use crate::status::Status;
use cr_base::Rule;
use cr_http::Refusal;
use cr_json::Object;
use cr_routes::Resource;
use std::alloc::AllocError;

/// Why a request is refused.
#[derive(Clone, Copy, PartialEq, Eq)]
pub enum Refused {
    /// The connection closes before a whole request was read.
    Closing(Refusal),
    /// The path is none of the server's (404).
    NoRoute,
    /// The path doesn't answer the method (405); the answer names the methods that it answers.
    WrongMethod(Resource),
    /// The request has no user's name and secret, and what it asks for requires authentication (401); the answer has a
    /// challenge (RFC 9110, section 11.6.1), and doesn't depend on what was wrong.
    Unauthorized,
    /// The field Command-Number tells no number, or is there more than once (400).
    BadNumber,
    /// The body doesn't spell what the request asks for (400).
    BadBody,
    /// The query string spells no search, or not the numbers of a plan (400); the answer tells where.
    BadQuery {
        /// The last offset in the search's text, in bytes from 0 to 1,024, up to which that can be the beginning of a
        /// search; 0 where there is no text, and of a plan.
        offset: usize,
    },
    /// A rule of the conference is broken.
    Rule(Rule),
    /// A row of a bulk breaks a rule (409); the answer tells which row and which rule.
    Row {
        /// The row, 1 to 512.
        row: u64,
        /// The rule.
        rule: Rule,
    },
    /// What was accepted couldn't be kept (503).
    KeeperFault,
    /// Memory ran out (507).
    NoMemory,
}

#[tactic(auto, unfolding(crate::specs::Refused::rule_name))]
fn rule_name(rule: Rule) -> &'static str
    ensures value { result.now ≡ rule_name rule }
    ensures short { length result.now ≤ 17 }
{
    match rule {
        Rule::NameTaken => "name_taken",
        Rule::FullAccounts => "full_accounts",
        Rule::NotChair => "not_chair",
        Rule::WrongPhase => "wrong_phase",
        Rule::FullPapers => "full_papers",
        Rule::QuotaPapers => "quota_papers",
        Rule::NoPaper => "no_paper",
        Rule::NotMember => "not_member",
        Rule::NoUser => "no_user",
        Rule::AlreadyNamed => "already_named",
        Rule::NotAuthor => "not_author",
        Rule::NotAMember => "not_a_member",
        Rule::Conflict => "conflict",
        Rule::Withdrawn => "withdrawn",
        Rule::QuotaBytes => "quota_bytes",
        Rule::NoContent => "no_content",
        Rule::AuthorConflict => "author_conflict",
        Rule::TargetConflict => "target_conflict",
        Rule::AlreadyAssigned => "already_assigned",
        Rule::LabelsSpent => "labels_spent",
        Rule::NotAssigned => "not_assigned",
        Rule::HasReview => "has_review",
        Rule::NotReviewer => "not_reviewer",
        Rule::QuotaComments => "quota_comments",
        Rule::BadAction => "bad_action",
        Rule::BadTag => "bad_tag",
        Rule::BulkSelf => "bulk_self",
        Rule::Late => "late",
        Rule::NumberUsed => "number_used",
        Rule::PlanTooLarge => "plan_too_large",
        Rule::NoPlan => "no_plan",
        Rule::LastChair => "last_chair",
        Rule::IsMember => "is_member",
        Rule::AlreadyInvited => "already_invited",
        Rule::NotInvited => "not_invited",
        Rule::StillAssigned => "still_assigned",
        Rule::AlreadyResponded => "already_responded",
        Rule::NoResponse => "no_response",
    }
}

#[tactic(auto, unfolding(crate::specs::Refused::closing_name))]
fn closing_name(refusal: Refusal) -> &'static str
    ensures value { result.now ≡ closing_name refusal }
    ensures short { length result.now ≤ 16 }
{
    match refusal {
        Refusal::HeadTooLarge => "head_too_large",
        Refusal::BadHttp => "bad_http",
        Refusal::NoHost => "no_host",
        Refusal::LengthRequired => "length_required",
        Refusal::BadLength => "bad_length",
        Refusal::TooLarge => "too_large",
    }
}

#[tactic(auto, unfolding(crate::specs::Refused::refused_name))]
fn name(refused: Refused) -> &'static str
    ensures value { result.now ≡ refused_name refused }
    ensures short { length result.now ≤ 17 }
{
    match refused {
        Refused::Closing(refusal) => closing_name(refusal),
        Refused::NoRoute => "no_route",
        Refused::WrongMethod(_) => "wrong_method",
        Refused::Unauthorized => "unauthorized",
        Refused::BadNumber => "bad_number",
        Refused::BadBody => "bad_body",
        Refused::BadQuery { .. } => "bad_query",
        Refused::Rule(rule) => rule_name(rule),
        Refused::Row { .. } => "bulk_row",
        Refused::KeeperFault => "keeper_fault",
        Refused::NoMemory => "no_memory",
    }
}

#[tactic(auto, unfolding(crate::specs::Refused::rule_status))]
fn rule_status(rule: Rule) -> Status
    ensures { result ≡ rule_status rule }
{
    match rule {
        Rule::NotChair | Rule::NotMember | Rule::NotAuthor | Rule::NotReviewer | Rule::Conflict =>
            Status::Forbidden,
        Rule::NoPaper | Rule::NoUser | Rule::NoContent | Rule::NoResponse => Status::NotFound,
        Rule::NameTaken
        | Rule::FullAccounts
        | Rule::WrongPhase
        | Rule::FullPapers
        | Rule::QuotaPapers
        | Rule::AlreadyNamed
        | Rule::NotAMember
        | Rule::Withdrawn
        | Rule::QuotaBytes
        | Rule::AuthorConflict => Status::Conflict,
        Rule::TargetConflict
        | Rule::AlreadyAssigned
        | Rule::LabelsSpent
        | Rule::NotAssigned
        | Rule::HasReview
        | Rule::QuotaComments
        | Rule::BadAction
        | Rule::BadTag
        | Rule::BulkSelf
        | Rule::Late
        | Rule::NumberUsed
        | Rule::PlanTooLarge
        | Rule::NoPlan => Status::Conflict,
        Rule::LastChair
        | Rule::IsMember
        | Rule::AlreadyInvited
        | Rule::NotInvited
        | Rule::StillAssigned
        | Rule::AlreadyResponded => Status::Conflict,
    }
}

#[tactic(auto, unfolding(crate::specs::Refused::closing_status))]
fn closing_status(refusal: Refusal) -> Status
    ensures { result ≡ closing_status refusal }
{
    match refusal {
        Refusal::BadHttp | Refusal::NoHost | Refusal::BadLength => Status::BadRequest,
        Refusal::LengthRequired => Status::LengthRequired,
        Refusal::TooLarge => Status::ContentTooLarge,
        Refusal::HeadTooLarge => Status::HeaderFieldsTooLarge,
    }
}

#[tactic(auto, unfolding(crate::specs::Refused::refused_status))]
fn status(refused: Refused) -> Status
    ensures { result ≡ refused_status refused }
{
    match refused {
        Refused::Closing(refusal) => closing_status(refusal),
        Refused::NoRoute => Status::NotFound,
        Refused::WrongMethod(_) => Status::MethodNotAllowed,
        Refused::Unauthorized => Status::Unauthorized,
        Refused::BadNumber | Refused::BadBody | Refused::BadQuery { .. } => Status::BadRequest,
        Refused::Rule(rule) => rule_status(rule),
        Refused::Row { .. } => Status::Conflict,
        Refused::KeeperFault => Status::ServiceUnavailable,
        Refused::NoMemory => Status::InsufficientStorage,
    }
}

#[tactic(auto, unfolding(crate::specs::Refused::extra_of))]
fn extra(refused: Refused) -> Extra
    ensures { result ≡ extra_of refused }
{
    match refused {
        Refused::WrongMethod(resource) => Extra::Allow(resource),
        Refused::Unauthorized => Extra::Challenge,
        _ => Extra::Nothing,
    }
}

/// Writes which row of a bulk breaks which rule.
fn add_row(object: &mut Object, into: &mut Vec<u8>, row: u64, rule: Rule) -> Result<(), AllocError>
    ensures adds { AddsMembers result into.old into.new object.old.is_first object.new.is_first
        (further_members (refused.Row row rule)) }
    ensures room { Takes result into.old into.new 139 }
{
    object.number(into, "row", row)?;
    object.string(into, "rule", rule_name(rule).as_bytes())?;
    Ok(())
}

/// Writes what a refusal tells beside why.
#[tactic(auto, unfolding(crate::specs::Refused::further_members))]
fn add_further(object: &mut Object, into: &mut Vec<u8>, refused: Refused) -> Result<(), AllocError>
    ensures adds { AddsMembers result into.old into.new object.old.is_first object.new.is_first
        (further_members refused) }
    ensures room { Takes result into.old into.new 139 }
{
    match refused {
        Refused::BadQuery { offset } => object.number(into, "place", offset as u64),
        Refused::Row { row, rule } => add_row(object, into, row, rule),
        _ => Ok(()),
    }
}

/// Appends what a refusal tells: why, before all else.
fn append_refusal(into: &mut Vec<u8>, refused: Refused) -> Result<(), AllocError>
    ensures text { Appends result into.old into.new (refusal_content refused) }
    ensures room { Takes result into.old into.new 288 }
{
    let mut object = Object::open(into)?;
    object.string(into, "error", name(refused).as_bytes())?;
    add_further(&mut object, into, refused)?;
    object.close(into)
}

/// Appends the answer of a refused request, which can't fail and takes no memory: `into` has room for
/// 512 bytes.
#[tactic(auto, unfolding(crate::specs::Answers::refusal_text))]
pub fn print_refusal(into: &mut Vec<u8>, refused: Refused, sending: Sending)
    requires { HasRoom into.old 512 }
    ensures { Puts into.old into.new (refusal_text refused sending) 512 }
{
    let start = into.len();
    append_refusal(into, refused).unwrap();
    print_brief(into, start, json(status(refused), extra(refused)), sending);
}
