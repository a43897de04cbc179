// The moments at which snapshots and records were made.
ghost use Rattle.std.specs.Prelude.{◌≡◌, ◌<◌, ◌≤◌, ◌^◌, List, Ok, None, Some, ℕ, IfErr, IfNone, IfOk, IfSome, OnOk, length};
ghost use Rattle.st_journal_bytes.specs.Areas.{IsDamaged, StopsAt};
ghost use Rattle.st_journal_bytes.specs.Moments as moments;
ghost use Rattle.st_journal_bytes.specs.Moments.{HasMoment, HaveMoment};
ghost use Rattle.st_journal_bytes.specs.Plain.{plain};
ghost use Rattle.st_journal_file.specs.Layout.{IsArea};

use crate::area::{Damaged, read_gate};
use crate::part::read_part;
use crate::words::{put_word64, split_word64};
use std::alloc::{AllocError, Global};
use thiserror::Error;

/// Why a journal is not opened at a moment.
#[derive(Clone, Copy, Debug, PartialEq, Eq, Error)]
pub enum MomentFault {
    #[error("a record of the journal has no moment, or one before that of the record before it")]
    Undated,
    #[error("the journal's last change was made at {last}, which is later")]
    Earlier { last: u64 },
}

/// What was made at a moment: the moment, and these bytes.
pub fn dated_of(alloc: Global, moment: u64, bytes: &[u8]) -> Result<Vec<u8>, AllocError>
    ensures { IfOk result (λ v. v.items ≡ moments.dated_bytes moment bytes.now) }
{
    let mut out = Vec::new(alloc);
    put_word64(&mut out, moment)?;
    out.extend_from_slice(bytes)?;
    Ok(out)
}

/// The moment with which bytes begin, and what was made then; `None` if they are too short.
pub fn read_dated(bytes: &[u8]) -> Option<(u64, &[u8])>
    ensures found { IfSome result (λ x. bytes.now ≡ moments.dated_bytes x.0 x.1.now) }
    ensures none { IfNone result (length bytes.now < 8) }
{
    if bytes.len() < 8 {
        return None;
    }
    Some(split_word64(bytes))
}

/// The moment with which bytes begin.
fn moment_of(bytes: &[u8]) -> Option<u64>
    ensures { result ≡ moments.moment_of bytes.now }
{
    if bytes.len() < 8 {
        return None;
    }
    let (front, _) = bytes.split_at(8);
    Some(u64::from_be_bytes([
        front[0], front[1], front[2], front[3], front[4], front[5], front[6], front[7],
    ]))
}

/// The last moment after one more record, which must not be an earlier one. In the loop that calls
/// it, the prover would lose what each branch found.
fn after_record(last: Option<u64>, record_bytes: &[u8]) -> Option<u64>
    ensures { result ≡ moments.after_record last record_bytes.now }
{
    let last = last?;
    let next = moment_of(record_bytes)?;
    if next < last { None } else { Some(next) }
}

/// Reads records to their end: the moment of the last one.
fn read_moments(bytes: &[u8], first: Option<u64>) -> Result<Option<u64>, Damaged>
    requires { length bytes.now < 2 ^ 32 }
    ensures ok { IfOk result (HaveMoment bytes.now first) }
    ensures damaged { IfErr result (λ d. StopsAt bytes.now d.at) }
{
    let mut rest = bytes;
    let mut gate = 0;
    let mut last = first;
    'records: while let Some((record_bytes, more)) = read_gate(rest, gate)? {
        last = after_record(last, record_bytes);
        gate += (rest.len() - more.len()) as u64;
        rest = more;
    }
    Ok(last)
}

/// The moment of the last record of an area of less than 2^32 bytes, or of its snapshot if there is
/// no record; `None` if one of them has no moment, or an earlier one than the one before it.
pub fn last_moment(area: &[u8]) -> Result<Option<u64>, Damaged>
    requires { length area.now < 2 ^ 32 }
    ensures ok { IfOk result (HasMoment area.now) }
    ensures damaged { IfErr result (λ d. IsDamaged area.now d.at) }
    ensures exact { (snapshot : List ℕ) (records : List (List ℕ)) → IsArea plain area.now snapshot records → result ≡ Ok (moments.after_records (moments.moment_of snapshot) records) }
{
    let Some((snapshot, rest)) = read_part(area) else {
        return Err(Damaged { at: 0 });
    };
    let front = (area.len() - rest.len()) as u64;
    match read_moments(rest, moment_of(snapshot)) {
        Ok(last) => Ok(last),
        Err(damaged) => Err(Damaged {
            at: front + damaged.at,
        }),
    }
}

/// Whether a journal with this last moment may be opened now.
///
/// # Errors
/// `Undated`, and `Earlier` if now is before the last moment.
pub fn check_moment(last: Option<u64>, now: u64) -> Result<(), MomentFault>
    ensures ok { OnOk result ((m : ℕ) × (last ≡ Some m) × (m ≤ now)) }
    ensures err { IfErr result (moments.IsEarly last now) }
{
    let Some(last) = last else {
        return Err(MomentFault::Undated);
    };
    if now < last {
        return Err(MomentFault::Earlier { last });
    }
    Ok(())
}
