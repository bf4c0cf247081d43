// SPDX-License-Identifier: Apache-2.0 OR MIT
//! The bytes of requests and answers that a line of a case tells in short.

use crate::text::{LineError, add_text};
use crate::time::Time;
use std::alloc::{AllocError, Global};

// The phrase of a status code.
fn phrase(code: &str) -> Option<&'static str> {
    match code {
        "200" => Some("OK"),
        "201" => Some("Created"),
        "400" => Some("Bad Request"),
        "401" => Some("Unauthorized"),
        "403" => Some("Forbidden"),
        "404" => Some("Not Found"),
        "405" => Some("Method Not Allowed"),
        "409" => Some("Conflict"),
        "411" => Some("Length Required"),
        "413" => Some("Content Too Large"),
        "431" => Some("Request Header Fields Too Large"),
        "503" => Some("Service Unavailable"),
        "507" => Some("Insufficient Storage"),
        _ => None,
    }
}

// Adds texts, one after the other.
fn add_parts(into: &mut Vec<u8>, parts: &[&str]) -> Result<(), AllocError> {
    for part in parts {
        into.extend_from_slice(part.as_bytes())?;
    }
    Ok(())
}

// Adds the field that tells a content's length.
fn add_length(alloc: Global, into: &mut Vec<u8>, length: usize) -> Result<(), AllocError> {
    let digits = format!(in alloc; "{length}")?;
    add_parts(into, &["Content-Length: ", digits.as_str(), "\r\n"])
}

// Adds the field that tells who asks: nothing for `-`, a token as it is, and for a name its usual secret.
fn add_credentials(into: &mut Vec<u8>, name: &str) -> Result<(), AllocError> {
    if name == "-" {
        return Ok(());
    }
    if name.contains('.') {
        return add_parts(into, &["Authorization: Bearer ", name, "\r\n"]);
    }
    add_parts(
        into,
        &[
            "Authorization: Bearer ",
            name,
            ".",
            name,
            "-secret-000001\r\n",
        ],
    )
}

// Adds the field that tells the number of a command: nothing where the text is empty.
fn add_command_number(into: &mut Vec<u8>, number: &str) -> Result<(), LineError> {
    if number.is_empty() {
        return Ok(());
    }
    into.extend_from_slice(b"Command-Number: ")?;
    add_text(into, number)?;
    into.extend_from_slice(b"\r\n")?;
    Ok(())
}

/// Adds the request that `NAME METHOD PATH [BODY]` tells, with this number of a command, if it isn't empty.
pub fn add_request(
    alloc: Global,
    into: &mut Vec<u8>,
    number: &str,
    text: &str,
) -> Result<(), LineError> {
    let mut words = text.splitn(4, ' ');
    let (Some(name), Some(method), Some(path)) = (words.next(), words.next(), words.next()) else {
        return Err(LineError::NoForm);
    };
    add_parts(into, &[method, " ", path, " HTTP/1.1\r\nHost: c\r\n"])?;
    add_credentials(into, name)?;
    add_command_number(into, number)?;
    let mut body = Vec::new(alloc);
    add_text(&mut body, words.next().unwrap_or(""))?;
    add_length(alloc, into, body.len())?;
    into.extend_from_slice(b"\r\n")?;
    into.extend_from_slice(body.as_slice())?;
    Ok(())
}

// The fields that an answer has by its code: the challenge of a 401.
fn challenge(code: &str) -> &'static str {
    match code {
        "401" => "WWW-Authenticate: Bearer realm=\"confd\"\r\n",
        _ => "",
    }
}

// Adds the field `Allow` of an answer that has it, and gives what is told after it.
fn add_allow<'a>(into: &mut Vec<u8>, text: &'a str) -> Result<&'a str, LineError> {
    let Some(rest) = text.strip_prefix("Allow: ") else {
        return Ok(text);
    };
    let (methods, rest) = rest.split_once("; ").ok_or(LineError::NoForm)?;
    add_parts(into, &["Allow: ", methods, "\r\n"])?;
    Ok(rest)
}

// Adds the field that tells the date.
fn add_date(into: &mut Vec<u8>, time: &Time) -> Result<(), AllocError> {
    into.extend_from_slice(b"Date: ")?;
    into.extend_from_slice(time.date.as_slice())?;
    into.extend_from_slice(b"\r\n")?;
    Ok(())
}

/// Adds the answer of this time that `CODE [Allow: METHODS; ][HEAD ][bytes: |text: ]CONTENT` tells. After `HEAD` comes
/// the content of the answer to GET; an answer to HEAD has only its length. After `bytes:` comes a paper's content,
/// which is sent unchanged, after `text:` a report, and else an object of JSON.
pub fn add_answer(
    alloc: Global,
    into: &mut Vec<u8>,
    time: &Time,
    text: &str,
    closes: bool,
) -> Result<(), LineError> {
    let (code, rest) = text.split_once(' ').ok_or(LineError::NoForm)?;
    let phrase = phrase(code).ok_or(LineError::NoForm)?;
    add_parts(into, &["HTTP/1.1 ", code, " "])?;
    add_parts(into, &[phrase, "\r\n"])?;
    add_date(into, time)?;
    add_parts(into, &[challenge(code)])?;
    let rest = add_allow(into, rest)?;
    add_content(alloc, into, rest, closes)
}

// What kind of content a text tells, and the text after that.
fn media_type(text: &str) -> (&'static str, &str) {
    if let Some(rest) = text.strip_prefix("bytes:") {
        return (
            "application/octet-stream",
            rest.strip_prefix(' ').unwrap_or(rest),
        );
    }
    match text.strip_prefix("text:") {
        Some(rest) => (
            "text/plain; charset=utf-8",
            rest.strip_prefix(' ').unwrap_or(rest),
        ),
        None => ("application/json", text),
    }
}

// Adds what follows the fields that an answer's code has.
fn add_content(
    alloc: Global,
    into: &mut Vec<u8>,
    text: &str,
    closes: bool,
) -> Result<(), LineError> {
    let without = text.strip_prefix("HEAD ");
    let (media_type, text) = media_type(without.unwrap_or(text));
    let mut content = Vec::new(alloc);
    add_text(&mut content, text)?;
    add_parts(into, &["Content-Type: ", media_type, "\r\n"])?;
    add_length(alloc, into, content.len())?;
    let close = if closes { "Connection: close\r\n" } else { "" };
    add_parts(into, &[close, "\r\n"])?;
    if without.is_none() {
        into.extend_from_slice(content.as_slice())?;
    }
    Ok(())
}
