// SPDX-License-Identifier: Apache-2.0 OR MIT
//! Runs of bytes that stand in a string of JSON as they are (RFC 8259, section 7).
ghost use Rattle.std.specs.Prelude.{◌≡◌, ◌+◌, ◌≤◌, length};
ghost use Rattle.std.specs.Bool.{OnTrue};
ghost use Rattle.std.specs.List.{slice_range};
ghost use Rattle.json.specs.Print.{escape};
ghost use Rattle.json.specs.Run.{is_stop};
ghost use Rattle.json.specs.Written.{PlainBetween};

use std::simd::prelude::*;

/// Returns whether none of the 32 bytes from `at` on needs an escape.
fn is_plain_block(text: &[u8], at: usize) -> bool
    requires { at + 32 ≤ length text.now }
    ensures { OnTrue result (PlainBetween text.now at (at + 32)) }
{
    let block = u8x32::from_slice(&text[at..]);
    (block.simd_eq(u8x32::splat(b'"'))
        | block.simd_eq(u8x32::splat(b'\\'))
        | block.simd_lt(u8x32::splat(0x20))).to_bitmask()
        == 0
}

/// Returns where the blocks end that need no escape, from `start` on.
fn blocks_end(text: &[u8], start: usize) -> usize
    requires { start ≤ length text.now }
    ensures after { start ≤ result }
    ensures within { result ≤ length text.now }
    ensures plain { PlainBetween text.now start result }
{
    let mut end = start;
    'ahead: while text.len() - end >= 32 {
        if !is_plain_block(text, end) {
            return end;
        }
        end += 32;
    }
    end
}

fn needs_escape(byte: u8) -> bool
    ensures { result ≡ is_stop byte }
{
    byte == b'"' || byte == b'\\' || byte < 0x20
}

/// Returns where the run ends that begins at `start` and needs no escape: at the next byte that needs one, or at the
/// text's end. 32 bytes are looked at in one step where so many are left.
pub(crate) fn run_end(text: &[u8], start: usize) -> usize
    requires { start ≤ length text.now }
    ensures after { start ≤ result }
    ensures within { result ≤ length text.now }
    ensures plain { escape (slice_range text.now start result) ≡ slice_range text.now start result }
{
    let mut end = blocks_end(text, start);
    'bytes: while end < text.len() {
        if needs_escape(text[end]) {
            return end;
        }
        end += 1;
    }
    end
}
