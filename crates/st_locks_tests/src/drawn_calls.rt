use crate::arguments::{CONFIG, Row, client, install_three, lock};
use crate::draws::Draws;
use crate::plain_table::{Answer, Plain, mode};
use st_base::{ClientId, Epoch, GrantNo, Life, ServerId, Stamp};
use st_locks::{LockRefusal, LockTable, Verdict};
use std::alloc::{AllocError, Global};
use std::test::Fail;

/// One call: a client, its life, a file, a mode as a number, and a moment.
#[derive(Clone, Copy)]
struct Ask {
    client: u16,
    life: u64,
    ino: u32,
    mode: u8,
    now: u64,
}

/// Asks both for a lock; whether the table's answer is what the plain rows say: a grant, the others
/// in the way, or a refusal.
fn acquire(
    alloc: Global,
    locks: &mut LockTable,
    plain: &mut Plain,
    ask: Ask,
    grants: bool,
) -> Result<bool, AllocError> {
    let Some(id) = client(ask.client) else {
        return Ok(false);
    };
    let Some(asked) = lock(ask.mode) else {
        return Ok(false);
    };
    if !locks.has_room() {
        return Ok(false);
    }
    let others = plain.in_the_way(alloc, ask.client, ask.ino, ask.mode)?;
    let given = locks.acquire(id, Life(ask.life), ask.ino, asked, grants);
    let wanted = plain.acquire(ask.client, ask.life, ask.ino, ask.mode, grants)?;
    Ok(match (&given, wanted) {
        (Ok(Verdict::Granted(g, m)), Answer::Granted(number, lock)) => {
            g.0 == number && *m == mode(lock)
        }
        (Ok(Verdict::Queued(clients)), Answer::Queued) => clients.as_slice() == others.as_slice(),
        (Err(LockRefusal::TooManyLocks), Answer::TooMany) => true,
        _ => false,
    })
}

/// One of the last rows, or what was asked.
fn drawn_target(plain: &Plain, draws: &mut Draws, ask: Ask) -> Ask {
    let place = plain.rows.len().wrapping_sub(draws.draw(80) as usize);
    match plain.rows.get(place) {
        Some(row) => Ask {
            client: row.client,
            life: row.life,
            ino: row.ino,
            ..ask
        },
        None => ask,
    }
}

/// The grant number of the client's row of the file, or rarely the one below.
fn drawn_grant(plain: &Plain, draws: &mut Draws, ask: Ask) -> u64 {
    match plain.row(ask.client, ask.ino) {
        Some(row) => row.g.wrapping_sub(draws.draw(8).max(6) - 6),
        None => 9,
    }
}

fn release(locks: &mut LockTable, plain: &mut Plain, draws: &mut Draws, ask: Ask) -> bool {
    let g = drawn_grant(plain, draws, ask);
    let to = draws.draw(2) as u8;
    let given = locks.released(
        ClientId(ask.client),
        Life(ask.life),
        ask.ino,
        GrantNo(g),
        mode(to),
    );
    given == plain.release(ask.client, ask.life, ask.ino, g, to)
}

/// All locks of the client go. Client 1 keeps its locks, so that it comes to have too many.
fn forget(locks: &mut LockTable, plain: &mut Plain, ask: Ask) {
    if ask.client != 1 {
        locks.forget(ClientId(ask.client));
        plain.forget(ask.client);
    }
}

/// A row of the client's, in a drawn mode.
fn drawn_row(draws: &mut Draws, ino: u32, ask: Ask) -> Row {
    (ino, ask.now, 1 + draws.draw(2) as u8)
}

/// Three rows, of rising files that are near each other, take the place of the client's locks, or
/// all of its locks are gone.
fn install(
    locks: &mut LockTable,
    plain: &mut Plain,
    draws: &mut Draws,
    ask: Ask,
) -> Result<bool, AllocError> {
    let Some(id) = client(ask.client) else {
        return Ok(false);
    };
    forget(locks, plain, ask);
    if locks.has_rows(id) {
        return Ok(true);
    }
    let first = 1 + draws.draw(100) as u32;
    let second = first + 1 + draws.draw(3) as u32;
    let third = second + 1 + draws.draw(3) as u32;
    let rows = [
        drawn_row(draws, first, ask),
        drawn_row(draws, second, ask),
        drawn_row(draws, third, ask),
    ];
    let Some(given) = install_three(locks, id, Life(ask.life), rows) else {
        return Ok(false);
    };
    match plain.install(ask.client, ask.life, &rows)? {
        Some((ino, holder)) => Ok(given == Err(LockRefusal::Conflict(ino, ClientId(holder)))),
        None => Ok(given == Ok(())),
    }
}

fn grants(alloc: Global, locks: &mut LockTable, plain: &mut Plain) -> Result<bool, AllocError> {
    if !locks.has_room_for_waiters() {
        return Ok(false);
    }
    let given = locks.next_grants()?;
    let wanted = plain.grants(alloc)?;
    Ok(given.as_slice() == wanted.as_slice())
}

fn demands(
    alloc: Global,
    locks: &mut LockTable,
    plain: &mut Plain,
    ask: Ask,
    tick: bool,
) -> Result<bool, AllocError> {
    let given = locks.demands_due(Stamp(ask.now), tick, plain.suspects.as_slice(), &CONFIG)?;
    let wanted = plain.demands(alloc, ask.now, tick)?;
    Ok(given.as_slice() == wanted.as_slice())
}

fn answered(locks: &mut LockTable, plain: &mut Plain, draws: &mut Draws, ask: Ask) -> bool {
    let g = drawn_grant(plain, draws, ask);
    locks.answered(ClientId(ask.client), ask.ino, GrantNo(g));
    plain.answered(ask.client, ask.ino, g);
    true
}

/// What takes waits away.
fn drop_waits(locks: &mut LockTable, plain: &mut Plain, draws: &mut Draws, ask: Ask) -> bool {
    if draws.draw(2) == 0 {
        locks.drop_waits(ClientId(ask.client));
        plain.drop_waits(ask.client);
    } else {
        locks.drop_file_waits(ask.ino);
        plain.drop_file_waits(ask.ino);
    }
    true
}

/// A call that is drawn rarely.
fn rare(
    alloc: Global,
    locks: &mut LockTable,
    plain: &mut Plain,
    draws: &mut Draws,
    ask: Ask,
) -> Result<bool, AllocError> {
    match draws.draw(8) {
        // 70 files in a row, of which nothing is granted: more than the passes keep one by one.
        0 => {
            for place in 0..70 {
                let ino = ask.ino.wrapping_add(place);
                if !acquire(alloc, locks, plain, Ask { ino, ..ask }, false)? {
                    return Ok(false);
                }
            }
            Ok(true)
        }
        // The client is a suspect from now on, or nobody is.
        1 | 2 | 3 => {
            if draws.draw(3) == 0 {
                plain.suspects.clear();
            } else {
                plain.suspects.push(ClientId(ask.client))?;
            }
            Ok(true)
        }
        _ => Ok(drop_waits(locks, plain, draws, ask)),
    }
}

/// One call on both; whether the answers are the same.
fn same(
    alloc: Global,
    locks: &mut LockTable,
    plain: &mut Plain,
    draws: &mut Draws,
    ask: Ask,
) -> Result<bool, AllocError> {
    match draws.draw(14) {
        0 | 1 | 2 | 3 => acquire(alloc, locks, plain, ask, true),
        4 => acquire(alloc, locks, plain, ask, false),
        5 => Ok(release(locks, plain, draws, ask)),
        6 | 7 => {
            let target = drawn_target(plain, draws, ask);
            Ok(release(locks, plain, draws, target))
        }
        8 => install(locks, plain, draws, ask),
        9 => grants(alloc, locks, plain),
        10 => demands(alloc, locks, plain, ask, false),
        11 => demands(alloc, locks, plain, ask, true),
        12 => {
            let target = drawn_target(plain, draws, ask);
            Ok(answered(locks, plain, draws, target))
        }
        _ => rare(alloc, locks, plain, draws, ask),
    }
}

/// Whether the demands that wait for an answer are those of the plain rows.
fn same_since(locks: &LockTable, plain: &Plain) -> bool {
    let mut count = 0usize;
    for row in plain.rows.iter() {
        if let Some(since) = row.since() {
            if !locks
                .by_since()
                .contains(&(Stamp(since), row.ino, ClientId(row.client)))
            {
                return false;
            }
            count = count.saturating_add(1);
        }
    }
    count == locks.by_since().len()
}

/// Whether the table and the plain rows know the same of a client, a file and a moment.
fn agree(alloc: Global, locks: &LockTable, plain: &Plain, ask: Ask) -> Result<bool, AllocError> {
    let id = ClientId(ask.client);
    let row = plain
        .row(ask.client, ask.ino)
        .map(|row| (GrantNo(row.g), mode(row.mode)));
    let holders = locks.holders(ask.ino)?;
    let of = locks.of(id)?;
    let late = locks.unanswered(Stamp(ask.now), &CONFIG)?;
    Ok(
        locks.row(id, ask.ino) == row
            && locks.has_rows(id) == plain.has_rows(ask.client)
            && locks.has_rows_from(id, Life(ask.life)) == plain.has_rows_from(ask.client, ask.life)
            && holders.as_slice() == plain.holders(alloc, ask.ino)?.as_slice()
            && of.as_slice() == plain.of(alloc, ask.client)?.as_slice()
            && late.as_slice() == plain.unanswered(alloc, ask.now)?.as_slice()
            && same_since(locks, plain),
    )
}

/// Half of the calls are client 1's. They are on a file for which many clients ask, or on one of
/// many files, for most of which only client 1 asks.
fn drawn_ask(draws: &mut Draws, now: u64) -> Ask {
    let client = match draws.draw(2) {
        0 => 1,
        _ => 1 + draws.draw(16) as u16,
    };
    let life = 1 + draws.draw(2);
    let ino = if client == 1 && draws.draw(4) != 0 {
        17 + draws.draw(4_000) as u32
    } else {
        1 + draws.draw(16) as u32
    };
    Ask {
        client,
        life,
        ino,
        mode: 1 + draws.draw(2) as u8,
        now,
    }
}

#[test]
fn locks_are_plain_rows(rt: HostRuntime) -> Result<(), Fail> {
    let mut locks = LockTable::new(rt.alloc(), ServerId(1), Epoch(3));
    let mut plain = Plain::new(rt.alloc());
    let mut draws = Draws::new(1);
    for now in 0..10_000 {
        let call = drawn_ask(&mut draws, now);
        let agreed = same(rt.alloc(), &mut locks, &mut plain, &mut draws, call)?;
        assert!(rt; agreed, "call {now}");
        let look = drawn_ask(&mut draws, now);
        let told = agree(rt.alloc(), &locks, &plain, look)?;
        assert!(rt; told, "after call {now}");
    }
    assert!(rt; plain.refused > 100);
    Ok(())
}
