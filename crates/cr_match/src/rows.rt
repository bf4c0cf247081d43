// SPDX-License-Identifier: Apache-2.0 OR MIT
//! Sets of places as bits, 64 a word: one set, or a row of a table.

ghost use Rattle.std.specs.Prelude.{◌≡◌, ◌≢◌, ℕ, ◌+◌, ◌*◌, ◌/◌, ◌%◌, ◌^◌, ◌<◌, ◌≤◌, ◌↔◌, IsTrue, IfSome, IfNone};
ghost use Rattle.std.specs.Prelude.{length, slice_index, ◌-◌, min, ltb, if◌then◌else◌};
ghost use Rattle.std.specs.Int.{bit_at};
ghost use Rattle.cr_match.specs.Rows.{Has, RowHas, OthersStay, Covers, gone};

/// Returns whether row r has place i.
pub fn has(words: &[u64], width: usize, r: usize, i: usize) -> bool
    requires inside { (i < 64 * width) × (r * width + width ≤ length words.now) }
    ensures { IsTrue result ↔ RowHas width words.now r i }
{
    (words[r * width + i / 64] >> (i % 64)) & 1 == 1
}

/// Puts place i into row r.
pub fn put(words: &mut [u64], width: usize, r: usize, i: usize)
    requires inside { (i < 64 * width) × (r * width + width ≤ length words.old) }
    ensures same { RowHas width words.new r i }
    ensures others { OthersStay width words.old words.new r i }
{
    words[r * width + i / 64] |= 1 << (i % 64);
}

/// Takes place i out of row r.
pub fn cut(words: &mut [u64], width: usize, r: usize, i: usize)
    requires inside { (i < 64 * width) × (r * width + width ≤ length words.old) }
    ensures same { ¬ (RowHas width words.new r i) }
    ensures others { OthersStay width words.old words.new r i }
{
    words[r * width + i / 64] &= !(1 << (i % 64));
}

/// Returns the bits of a word from place `from` on that the mask lacks.
fn fresh(word: u64, mask: u64, from: usize) -> u64
    requires { from < 64 }
    ensures { (k : ℕ) → k < 64
        → bit_at result k ≡ min (min (bit_at word k) (1 - bit_at mask k)) (if ltb k from then 0 else 1) }
{
    word & !mask & (u64::MAX << from)
}

/// Returns the first place from `from` on that row r has and the mask lacks, or `None` if there is none.
pub fn next(words: &[u64], width: usize, r: usize, mask: &[u64], from: usize) -> Option<usize>
    requires inside { r * width + width ≤ length words.now }
    requires long { width ≤ length mask.now }
    requires few { length mask.now < 2 ^ 32 }
    ensures some { IfSome result (λ i. (from ≤ i) × (i < 64 * width) × RowHas width words.now r i
        × (Has mask.now i → ⊥) × Covers width words.now r mask.now from i) }
    ensures none { IfNone result (Covers width words.now r mask.now from (64 * width)) }
{
    let mut at = from / 64;
    let mut first = from % 64;
    'words: while at < width {
        let word = fresh(words[r * width + at], mask[at], first);
        if word != 0 {
            return Some(at * 64 + word.trailing_zeros() as usize);
        }
        at += 1;
        first = 0;
    }
    None
}

/// Returns whether the set has place i.
pub fn marked(set: &[u64], i: usize) -> bool
    requires inside { i < 64 * length set.now }
    ensures { IsTrue result ↔ Has set.now i }
{
    (set[i / 64] >> (i % 64)) & 1 == 1
}

/// Puts place i into the set.
pub fn mark(set: &mut [u64], i: usize)
    requires inside { i < 64 * length set.old }
    ensures long { length set.new ≡ length set.old }
    ensures same { Has set.new i }
    ensures others { (j : ℕ) → j ≢ i → Has set.new j ↔ Has set.old j }
    ensures count { (n : ℕ) → (Has set.old i → ⊥) → i < n → gone set.new n ≡ gone set.old n + 1 }
{
    set[i / 64] |= 1 << (i % 64);
}

/// Empties the set.
pub fn clear(set: &mut [u64])
    ensures long { length set.new ≡ length set.old }
    ensures zero { (k : ℕ) → slice_index set.new k ≡ 0 }
{
    for word in set.iter_mut() {
        *word = 0;
    }
}

/// Puts place i into row r if `bit`, and else takes it out.
pub fn write(words: &mut [u64], width: usize, r: usize, i: usize, bit: bool)
    requires inside { (i < 64 * width) × (r * width + width ≤ length words.old) }
    ensures same { RowHas width words.new r i ↔ IsTrue bit }
    ensures others { OthersStay width words.old words.new r i }
{
    if bit {
        put(words, width, r, i);
    } else {
        cut(words, width, r, i);
    }
}
