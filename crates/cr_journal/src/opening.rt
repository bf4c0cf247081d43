// SPDX-License-Identifier: Apache-2.0 OR MIT
//! A journal out of a file.
ghost use Rattle.std.specs.Prelude.{◌≡◌, ◌≢◌, ◌↔◌, ◌≤◌, ◌<◌, ◌+◌, ◌-◌, ◌^◌, ◌++◌, [], ◌∷◌, List, ℕ, length, take, drop};
ghost use Rattle.std.specs.Prelude.{IfOk, OnErr, OnOk, IsTrue, Ok, Err};
ghost use Rattle.cr_base.specs.declared.row.Row.{Row};
ghost use Rattle.cr_disks.specs.Disk.{Only, HasCause, ReadHasCause};
ghost use Rattle.cr_ports.specs.Count.{Rises};
ghost use Rattle.cr_ports.specs.Stream.{FillsWithin};
ghost use Rattle.cr_journal.specs.Grammar.{magic, empty_journal, payload, FitsGroup, IsJournalOf};
ghost use Rattle.cr_journal.specs.Keeping.{rows_of, IsAtGate, GateRead, OpenCause, ReadsOn};
ghost use Rattle.cr_journal.specs.declared.opening.OpenError.TheVariants.{NoJournal, NotMade};
ghost use Rattle.cr_journal.specs.declared.opening.Gate.TheVariants.{Closed, Open};

use crate::reading::{number_at, read_rows};
use cr_base::Row;
use cr_disks::{Disk, DiskFailed};
use cr_ports::ReadStep;
use std::alloc::{AllocError, Global};

/// Why a file wasn't opened as a journal.
#[derive(Clone, Copy, Debug, PartialEq, Eq)]
pub enum OpenError {
    /// The disk failed, which it counted.
    Failed,
    /// The disk failed while an empty file was made a journal, which it counted. The file may have no bytes, or some.
    NotMade,
    /// The file is no journal.
    NoJournal,
    /// Out of memory.
    OutOfMemory,
}

impl From<DiskFailed> for OpenError {
    ghost use Rattle.std.specs.Prelude.{◌≡◌};
    ghost use Rattle.cr_journal.specs.declared.opening.OpenError.TheVariants.{Failed};

    ghost from_gives = { λ _ error. error ≡ Failed };

    fn from(_failed: DiskFailed) -> OpenError {
        OpenError::Failed
    }
}

impl From<AllocError> for OpenError {
    ghost use Rattle.std.specs.Prelude.{◌≡◌};
    ghost use Rattle.cr_journal.specs.declared.opening.OpenError.TheVariants.{OutOfMemory};

    ghost from_gives = { λ _ error. error ≡ OutOfMemory };

    fn from(_error: AllocError) -> OpenError {
        OpenError::OutOfMemory
    }
}

/// What is at a gate.
#[derive(Clone, Copy, PartialEq, Eq)]
pub(crate) enum Gate {
    /// A gate that isn't open: the journal ends here.
    Closed,
    /// An open gate, and after it a payload of so many bytes.
    Open(u64),
    /// No gate, or an open one with no whole payload after it.
    Cut,
}

/// The bytes with which a journal begins.
const MAGIC: [u8; 8] = *b"CONFDJ01";

/// A gate and the length after it.
const HEAD: usize = 9;

/// Reads once into the bytes after the first `filled`.
fn read_behind<D: Disk>(disk: &mut D, at: u64, bytes: &mut [u8], filled: usize) -> ReadStep
    requires some { filled < length bytes.old }
    requires near { at ≤ 2 ^ 62 }
    ensures len { length bytes.new ≡ length bytes.old }
    ensures size { FillsWithin result (length bytes.old - filled) }
    ensures told { IsTrue D.tells → ReadsOn result filled bytes.old bytes.new (drop at (D.seen disk.old)) }
    ensures seen { IsTrue D.tells → D.seen disk.new ≡ D.seen disk.old }
    ensures crash { IsTrue D.tells → (image : List ℕ) → D.may_leave disk.new image → D.may_leave disk.old image }
    ensures cause { ReadHasCause (D.faults disk.old) (D.faults disk.new) result }
{
    disk.read_at(at + filled as u64, &mut bytes[filled..])
}

/// Reads bytes from `at` on until there are as many as wanted, or there are no more. Returns how many there are.
fn fill<D: Disk>(disk: &mut D, at: u64, bytes: &mut [u8]) -> Result<usize, DiskFailed>
    requires { at ≤ 2 ^ 62 }
    ensures len { length bytes.new ≡ length bytes.old }
    ensures few { IfOk result (λ n. n ≤ length bytes.new) }
    ensures told { IsTrue D.tells
        → IfOk result (λ n. take n bytes.new ≡ take (length bytes.old) (drop at (D.seen disk.old))) }
    ensures seen { IsTrue D.tells → D.seen disk.new ≡ D.seen disk.old }
    ensures crash { IsTrue D.tells → (image : List ℕ) → D.may_leave disk.new image → D.may_leave disk.old image }
    ensures cause { HasCause (D.faults disk.old) (D.faults disk.new) result }
{
    let mut filled = 0;
    'reading: while filled < bytes.len() {
        match read_behind(disk, at, bytes, filled) {
            ReadStep::Got(n) => filled += n,
            ReadStep::End => return Ok(filled),
            ReadStep::Failed => return Err(DiskFailed),
        }
    }
    Ok(filled)
}

/// Reads the open gate with which some bytes begin, by the eight after it, or all if there are fewer, and by how many
/// bytes there are.
fn payload_in(behind: &[u8], many: u64) -> Gate
    ensures gate { (bytes : List ℕ) → take 9 bytes ≡ 1 ∷ behind.now → length bytes ≡ many → GateRead result bytes }
    ensures fits { (len : ℕ) → result ≡ Open len → 9 + len ≤ many }
    ensures shut { result ≢ Closed }
{
    let Some((len, _)) = number_at(behind) else {
        return Gate::Cut;
    };
    if many < 9 || many - 9 < len {
        return Gate::Cut;
    }
    Gate::Open(len)
}

/// Reads the gate with which some bytes begin, by the first nine of them, or all if there are fewer, and by how many
/// there are.
fn gate_in(head: &[u8], many: u64) -> Gate
    ensures gate { (bytes : List ℕ) → take 9 bytes ≡ head.now → length bytes ≡ many → GateRead result bytes }
    ensures fits { (len : ℕ) → result ≡ Open len → 9 + len ≤ many }
{
    match head {
        [] => Gate::Cut,
        [1, behind @ ..] => payload_in(behind, many),
        [_, ..] => Gate::Closed,
    }
}

/// Reads the gate at an offset of a file of `size` bytes.
fn read_gate<D: Disk>(disk: &mut D, at: u64, size: u64) -> Result<Gate, DiskFailed>
    requires within { (at ≤ size) × (size ≤ 2 ^ 62) }
    requires size { IsTrue D.tells → size ≡ length (D.seen disk.old) }
    ensures gate { IsTrue D.tells → IfOk result (λ gate. GateRead gate (drop at (D.seen disk.old))) }
    ensures fits { (len : ℕ) → result ≡ Ok (Open len) → at + 9 + len ≤ size }
    ensures inside { result ≡ Ok Closed → at < size }
    ensures seen { IsTrue D.tells → D.seen disk.new ≡ D.seen disk.old }
    ensures crash { IsTrue D.tells → (image : List ℕ) → D.may_leave disk.new image → D.may_leave disk.old image }
    ensures cause { HasCause (D.faults disk.old) (D.faults disk.new) result }
{
    if at == size {
        return Ok(Gate::Cut);
    }
    let mut head = [0; HEAD];
    let filled = fill(disk, at, &mut head)?;
    Ok(gate_in(&head[..filled], size - at))
}

/// Reads so many bytes from an offset on, which the file has.
fn read_payload<D: Disk>(
    alloc: Global,
    disk: &mut D,
    at: u64,
    len: u64,
) -> Result<Vec<u8>, OpenError>
    requires near { at + len ≤ 2 ^ 62 }
    requires inside { IsTrue D.tells → at + len ≤ length (D.seen disk.old) }
    ensures bytes { IsTrue D.tells → IfOk result (λ bytes. bytes.items ≡ take len (drop at (D.seen disk.old))) }
    ensures whole { IsTrue D.tells → result ≢ Err NoJournal }
    ensures seen { IsTrue D.tells → D.seen disk.new ≡ D.seen disk.old }
    ensures crash { IsTrue D.tells → (image : List ℕ) → D.may_leave disk.new image → D.may_leave disk.old image }
    ensures reads { result ≢ Err NotMade }
    ensures cause { OpenCause (D.faults disk.old) (D.faults disk.new) result }
{
    let mut bytes = Vec::new(alloc);
    bytes.resize(len as usize, 0)?;
    let filled = fill(disk, at, &mut bytes)?;
    if filled < bytes.len() {
        return Err(OpenError::NoJournal);
    }
    Ok(bytes)
}

/// Reads the group at an open gate, whose payload has so many bytes, and adds its rows to those that are there.
fn read_group<D: Disk>(
    alloc: Global,
    disk: &mut D,
    at: u64,
    len: u64,
    rows: &mut Vec<Row>,
) -> Result<(), OpenError>
    requires near { at + len ≤ 2 ^ 62 }
    requires inside { IsTrue D.tells → at + len ≤ length (D.seen disk.old) }
    ensures group { IsTrue D.tells → OnOk result ((group : List Row) × FitsGroup group
        × (take len (drop at (D.seen disk.old)) ≡ payload group) × (rows.new.items ≡ rows.old.items ++ group)) }
    ensures none { IsTrue D.tells → result ≡ Err NoJournal
        → (group : List Row) → FitsGroup group → take len (drop at (D.seen disk.old)) ≡ payload group → ⊥ }
    ensures seen { IsTrue D.tells → D.seen disk.new ≡ D.seen disk.old }
    ensures crash { IsTrue D.tells → (image : List ℕ) → D.may_leave disk.new image → D.may_leave disk.old image }
    ensures reads { result ≢ Err NotMade }
    ensures cause { OpenCause (D.faults disk.old) (D.faults disk.new) result }
{
    let bytes = read_payload(alloc, disk, at, len)?;
    if !read_rows(alloc, &bytes, rows)? {
        return Err(OpenError::NoJournal);
    }
    Ok(())
}

/// Reads the groups after the magic of a file of `size` bytes. Returns the offset of the closed gate.
fn read_groups<D: Disk>(
    alloc: Global,
    disk: &mut D,
    size: u64,
    rows: &mut Vec<Row>,
) -> Result<u64, OpenError>
    requires within { (8 ≤ size) × (size ≤ 2 ^ 62) }
    requires size { IsTrue D.tells → size ≡ length (D.seen disk.old) }
    requires begun { IsTrue D.tells → take 8 (D.seen disk.old) ≡ magic }
    ensures gate { IfOk result (λ gate. gate < 2 ^ 62) }
    ensures found { IsTrue D.tells → IfOk result (λ gate. (groups : List (List Row))
        × IsAtGate (D.seen disk.old) gate groups × GateRead Closed (drop gate (D.seen disk.old))
        × (rows.new.items ≡ rows.old.items ++ rows_of groups)) }
    ensures none { IsTrue D.tells → result ≡ Err NoJournal
        → (groups : List (List Row)) → IsJournalOf groups (D.seen disk.old) → ⊥ }
    ensures seen { IsTrue D.tells → D.seen disk.new ≡ D.seen disk.old }
    ensures crash { IsTrue D.tells → (image : List ℕ) → D.may_leave disk.new image → D.may_leave disk.old image }
    ensures reads { result ≢ Err NotMade }
    ensures cause { OpenCause (D.faults disk.old) (D.faults disk.new) result }
{
    let mut at = 8;
    'groups: while at < size {
        match read_gate(disk, at, size)? {
            Gate::Closed => return Ok(at),
            Gate::Cut => return Err(OpenError::NoJournal),
            Gate::Open(len) => {
                read_group(alloc, disk, at + 9, len, rows)?;
                at += 9 + len;
            }
        }
    }
    Err(OpenError::NoJournal)
}

/// Returns whether a file begins as a journal does.
fn begins<D: Disk>(disk: &mut D) -> Result<bool, DiskFailed>
    ensures begun { IsTrue D.tells → IfOk result (λ is. IsTrue is ↔ (take 8 (D.seen disk.old) ≡ magic)) }
    ensures seen { IsTrue D.tells → D.seen disk.new ≡ D.seen disk.old }
    ensures crash { IsTrue D.tells → (image : List ℕ) → D.may_leave disk.new image → D.may_leave disk.old image }
    ensures cause { HasCause (D.faults disk.old) (D.faults disk.new) result }
{
    let mut head = [0; 8];
    let filled = fill(disk, 0, &mut head)?;
    let front = &head[..filled];
    Ok(front == MAGIC.as_slice())
}

/// Makes a journal of no groups of an empty file. Returns the offset of its gate.
fn make<D: Disk>(disk: &mut D) -> Result<u64, DiskFailed>
    requires { IsTrue D.tells → D.seen disk.old ≡ [] }
    ensures gate { IfOk result (λ gate. gate ≡ 8) }
    ensures made { IsTrue D.tells → OnOk result (D.seen disk.new ≡ empty_journal) }
    ensures durable { IsTrue D.tells → OnOk result (Only (D.seen disk.new) (D.may_leave disk.new)) }
    ensures cause { HasCause (D.faults disk.old) (D.faults disk.new) result }
{
    disk.write_at(0, &[67, 79, 78, 70, 68, 74, 48, 49, 0])?;
    disk.sync()?;
    Ok(8)
}

/// Syncs a file of `size` bytes, which isn't empty, and reads its groups. Returns the offset of its gate.
fn read_all<D: Disk>(
    alloc: Global,
    disk: &mut D,
    size: u64,
    rows: &mut Vec<Row>,
) -> Result<u64, OpenError>
    requires within { size ≤ 2 ^ 62 }
    requires size { IsTrue D.tells → size ≡ length (D.seen disk.old) }
    ensures gate { IfOk result (λ gate. gate < 2 ^ 62) }
    ensures found { IsTrue D.tells → IfOk result (λ gate. (groups : List (List Row))
        × IsAtGate (D.seen disk.old) gate groups × GateRead Closed (drop gate (D.seen disk.old))
        × (rows.new.items ≡ rows.old.items ++ rows_of groups)) }
    ensures none { IsTrue D.tells → result ≡ Err NoJournal
        → (groups : List (List Row)) → IsJournalOf groups (D.seen disk.old) → ⊥ }
    ensures seen { IsTrue D.tells → D.seen disk.new ≡ D.seen disk.old }
    ensures durable { IsTrue D.tells → OnOk result (Only (D.seen disk.new) (D.may_leave disk.new)) }
    ensures reads { result ≢ Err NotMade }
    ensures cause { OpenCause (D.faults disk.old) (D.faults disk.new) result }
{
    disk.sync()?;
    if size < 8 || !begins(disk)? {
        return Err(OpenError::NoJournal);
    }
    read_groups(alloc, disk, size, rows)
}

/// Makes a journal of an empty file, or reads the groups of one that isn't empty. Returns the offset of its gate.
pub(crate) fn open_or_make<D: Disk>(
    alloc: Global,
    disk: &mut D,
    rows: &mut Vec<Row>,
) -> Result<u64, OpenError>
    ensures gate { IfOk result (λ gate. gate < 2 ^ 62) }
    ensures found { IsTrue D.tells → IfOk result (λ gate. (groups : List (List Row))
        × IsAtGate (D.seen disk.new) gate groups × GateRead Closed (drop gate (D.seen disk.new))
        × (rows.new.items ≡ rows.old.items ++ rows_of groups)) }
    ensures seen { IsTrue D.tells → D.seen disk.old ≢ [] → D.seen disk.new ≡ D.seen disk.old }
    ensures made { IsTrue D.tells → D.seen disk.old ≡ [] → OnOk result (D.seen disk.new ≡ empty_journal) }
    ensures spared { IsTrue D.tells → OnErr result (result ≢ Err NotMade → D.seen disk.new ≡ D.seen disk.old) }
    ensures empty { IsTrue D.tells → result ≡ Err NotMade → D.seen disk.old ≡ [] }
    ensures none { IsTrue D.tells → result ≡ Err NoJournal → (D.seen disk.old ≢ [])
        × ((groups : List (List Row)) → IsJournalOf groups (D.seen disk.old) → ⊥) }
    ensures durable { IsTrue D.tells → OnOk result (Only (D.seen disk.new) (D.may_leave disk.new)) }
    ensures cause { result ≢ Err NotMade → OpenCause (D.faults disk.old) (D.faults disk.new) result }
    ensures not_made { result ≡ Err NotMade → Rises (D.faults disk.old) (D.faults disk.new) }
{
    let size = disk.len()?;
    if size == 0 {
        return match make(disk) {
            Ok(gate) => Ok(gate),
            Err(DiskFailed) => Err(OpenError::NotMade),
        };
    }
    read_all(alloc, disk, size, rows)
}
