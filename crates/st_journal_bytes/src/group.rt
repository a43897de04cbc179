// What is written into a journal's file.
ghost use Rattle.std.specs.Prelude.{◌≡◌, ◌<◌, ◌≤◌, ◌^◌, ◌++◌, ◌∷◌, [], IfOk, drop, length};
ghost use Rattle.st_journal_bytes.specs.Headers as headers;
ghost use Rattle.st_journal_bytes.specs.Plain.{plain};
ghost use Rattle.st_journal_file.specs.Layout as layout;

use crate::area::{CLOSED, OPEN};
use crate::header::{Header, header_of};
use crate::part::put_part;
use std::alloc::{AllocError, Global};

/// A record after an open gate.
pub fn opened_of(alloc: Global, record_bytes: &[u8]) -> Result<Vec<u8>, AllocError>
    requires { length record_bytes.now < 2 ^ 32 }
    ensures { IfOk result (λ v. v.items ≡ layout.opened plain record_bytes.now) }
{
    let mut out = Vec::new(alloc);
    out.push(OPEN)?;
    put_part(&mut out, record_bytes)?;
    Ok(out)
}

/// What is written after the closed gate to keep these records, each of which is after an open
/// gate: all but the first gate, and a closed gate.
pub fn group_of(alloc: Global, opened: &[u8]) -> Result<Vec<u8>, AllocError>
    requires { 1 ≤ length opened.now }
    ensures { IfOk result (λ v. v.items ≡ drop 1 opened.now ++ layout.CLOSED ∷ []) }
{
    let mut out = Vec::from_slice(alloc, &opened[1..])?;
    out.push(CLOSED)?;
    Ok(out)
}

/// What is written at the beginning of an area: a snapshot, and a closed gate.
pub fn area_of(alloc: Global, snapshot: &[u8]) -> Result<Vec<u8>, AllocError>
    requires { length snapshot.now < 2 ^ 32 }
    ensures { IfOk result (λ v. v.items ≡ layout.part plain snapshot.now ++ layout.CLOSED ∷ []) }
{
    let mut out = Vec::new(alloc);
    put_part(&mut out, snapshot)?;
    out.push(CLOSED)?;
    Ok(out)
}

/// What is written at the beginning of a new file: its header, closed marks, and a first area with
/// this snapshot.
pub fn file_of(alloc: Global, header: &Header, snapshot: &[u8]) -> Result<Vec<u8>, AllocError>
    requires { length snapshot.now < 2 ^ 32 }
    ensures { IfOk result (λ v. v.items ≡ headers.header header.now ++ (layout.CLOSED ∷ layout.CLOSED ∷ (layout.part plain snapshot.now ++ layout.CLOSED ∷ []))) }
{
    let area = area_of(alloc, snapshot)?;
    let mut out = header_of(alloc, header)?;
    out.push(CLOSED)?;
    out.push(CLOSED)?;
    out.extend_from_slice(area.as_slice())?;
    Ok(out)
}
