// SPDX-License-Identifier: Apache-2.0 OR MIT
//! The statuses that an answer has (RFC 9110, section 15).
ghost use Rattle.std.specs.Prelude.{◌≡◌, ◌≤◌, length};
ghost use Rattle.cr_print.specs.Status.{code_of, phrase_of};

use http::StatusCode;

/// A status that an answer has.
#[derive(Clone, Copy, PartialEq, Eq)]
pub(crate) enum Status {
    Okay,
    Created,
    BadRequest,
    Unauthorized,
    Forbidden,
    NotFound,
    MethodNotAllowed,
    Conflict,
    LengthRequired,
    ContentTooLarge,
    HeaderFieldsTooLarge,
    ServiceUnavailable,
    InsufficientStorage,
}

impl Status {
    /// Returns its code.
    #[tactic(auto, unfolding(crate::specs::Status::code_of))]
    pub(crate) fn code(self) -> StatusCode
        ensures { result ≡ code_of self }
    {
        match self {
            Status::Okay => StatusCode::OK,
            Status::Created => StatusCode::CREATED,
            Status::BadRequest => StatusCode::BAD_REQUEST,
            Status::Unauthorized => StatusCode::UNAUTHORIZED,
            Status::Forbidden => StatusCode::FORBIDDEN,
            Status::NotFound => StatusCode::NOT_FOUND,
            Status::MethodNotAllowed => StatusCode::METHOD_NOT_ALLOWED,
            Status::Conflict => StatusCode::CONFLICT,
            Status::LengthRequired => StatusCode::LENGTH_REQUIRED,
            Status::ContentTooLarge => StatusCode::PAYLOAD_TOO_LARGE,
            Status::HeaderFieldsTooLarge => StatusCode::REQUEST_HEADER_FIELDS_TOO_LARGE,
            Status::ServiceUnavailable => StatusCode::SERVICE_UNAVAILABLE,
            Status::InsufficientStorage => StatusCode::INSUFFICIENT_STORAGE,
        }
    }

    /// Returns its phrase, at most 31 bytes. `http` has an older name for 413, so the phrases are here.
    #[tactic(auto, unfolding(crate::specs::Status::phrase_of))]
    pub(crate) fn phrase(self) -> &'static str
        ensures value { result.now ≡ phrase_of self }
        ensures short { length result.now ≤ 31 }
    {
        match self {
            Status::Okay => "OK",
            Status::Created => "Created",
            Status::BadRequest => "Bad Request",
            Status::Unauthorized => "Unauthorized",
            Status::Forbidden => "Forbidden",
            Status::NotFound => "Not Found",
            Status::MethodNotAllowed => "Method Not Allowed",
            Status::Conflict => "Conflict",
            Status::LengthRequired => "Length Required",
            Status::ContentTooLarge => "Content Too Large",
            Status::HeaderFieldsTooLarge => "Request Header Fields Too Large",
            Status::ServiceUnavailable => "Service Unavailable",
            Status::InsufficientStorage => "Insufficient Storage",
        }
    }
}
