use crate::draws::Draws;
use st_base::{ClientId, Epoch, Life};
use st_messages::Body;
use st_sessions::{Hello, Sessions, Taken};
use std::alloc::{AllocError, Global};
use std::test::Fail;

/// A session as a plain row. `reply` is the kept reply: 0 is none, 1 an ack, 2 `reasserted`.
#[derive(Clone, Copy)]
struct Row {
    client: u16,
    life: u64,
    live: bool,
    last: u64,
    reply: u8,
}

fn row_of(rows: &[Row], client: u16) -> Option<Row> {
    rows.iter().copied().find(|row| row.client == client)
}

fn put(rows: &mut Vec<Row>, row: Row) -> Result<(), AllocError> {
    rows.retain(|old| old.client != row.client);
    rows.push(row)?;
    Ok(())
}

fn begun(client: u16, life: u64) -> Row {
    Row {
        client,
        life,
        live: true,
        last: 0,
        reply: 0,
    }
}

/// A greeting by the rules' words, over plain rows.
fn hello(rows: &mut Vec<Row>, client: u16, life: u64, locks: bool) -> Result<Hello, AllocError> {
    let Some(row) = row_of(rows, client) else {
        put(rows, begun(client, life))?;
        return Ok(Hello::Welcome);
    };
    let hello = if !row.live {
        if life > row.life {
            Hello::Welcome
        } else {
            Hello::Old
        }
    } else if life < row.life {
        Hello::Old
    } else if life == row.life {
        Hello::Welcome
    } else if locks {
        Hello::Wait
    } else {
        Hello::Replaced
    };
    let stays = row.live && life == row.life;
    if hello == Hello::Replaced || hello == Hello::Welcome && !stays {
        put(rows, begun(client, life))?;
    }
    Ok(hello)
}

/// What became of a request, as a number.
fn code(taken: Taken<&Body>) -> u8 {
    match taken {
        Taken::OtherEpoch => 1,
        Taken::NoSession => 2,
        Taken::Stale => 3,
        Taken::Again(Body::Reasserted) => 4,
        Taken::Again(_) => 5,
        Taken::Fresh => 6,
        Taken::OutOfOrder => 7,
    }
}

/// A request by the rules' words, over plain rows.
fn take(rows: &[Row], client: u16, life: u64, epoch: u64, number: u64) -> u8 {
    if epoch != 7 {
        return 1;
    }
    let Some(row) = row_of(rows, client) else {
        return 2;
    };
    if life > row.life {
        return 2;
    }
    if life < row.life || !row.live {
        return 3;
    }
    if number < row.last {
        return 3;
    }
    if number > row.last {
        return if number - 1 == row.last { 6 } else { 7 };
    }
    match row.reply {
        0 => 3,
        1 => 5,
        _ => 4,
    }
}

/// Changes a living row, if the client has one.
fn change(rows: &mut Vec<Row>, client: u16, live: bool, last: u64) -> Result<(), AllocError> {
    let Some(row) = row_of(rows, client) else {
        return Ok(());
    };
    if !row.live {
        return Ok(());
    }
    put(
        rows,
        Row {
            client,
            life: row.life,
            live,
            last,
            reply: 1,
        },
    )
}

/// Whether the sessions and the plain rows know the same of a client.
fn agree(sessions: &Sessions, rows: &[Row], client: u16, life: u64) -> bool {
    let id = ClientId(client);
    let Some(row) = row_of(rows, client) else {
        return sessions.life(id).is_none()
            && !sessions.knows(id, Life(life))
            && !sessions.serves(id, Life(life));
    };
    let serves = row.live && row.life == life;
    sessions.life(id) == Some(Life(row.life))
        && sessions.serves(id, Life(life)) == serves
        && sessions.knows(id, Life(life)) == (serves || row.life > life)
}

/// The number of a client: each from 0 to 17, 40,000 or the greatest one.
fn client_of(draws: &mut Draws) -> u16 {
    match draws.draw(20) as u16 {
        18 => 40_000,
        19 => u16::MAX,
        client => client,
    }
}

/// One call on both; whether the answers are the same.
fn same(
    sessions: &mut Sessions,
    rows: &mut Vec<Row>,
    draws: &mut Draws,
) -> Result<bool, AllocError> {
    let client = client_of(draws);
    let id = ClientId(client);
    let life = 1 + draws.draw(4);
    let number = draws.draw(5);
    match draws.draw(8) {
        0 | 1 => {
            let locks = draws.draw(2) == 0;
            let given = sessions.hello(id, Life(life), locks)?;
            let wanted = hello(rows, client, life, locks)?;
            Ok(given == wanted)
        }
        2 | 3 | 4 => {
            let epoch = 6 + draws.draw(8).min(1);
            let given = code(sessions.take(id, Life(life), Epoch(epoch), number));
            Ok(given == take(rows, client, life, epoch, number))
        }
        5 => {
            sessions.store(id, number, &Body::Ack)?;
            change(rows, client, true, number)?;
            Ok(true)
        }
        6 => {
            sessions.end(id);
            change(rows, client, false, 0)?;
            Ok(true)
        }
        _ => {
            sessions.reasserted(id, Life(life))?;
            let row = Row {
                client,
                life,
                live: true,
                last: 1,
                reply: 2,
            };
            put(rows, row)?;
            Ok(true)
        }
    }
}

#[test]
fn sessions_are_plain_rows(rt: HostRuntime) -> Result<(), Fail> {
    let mut sessions = Sessions::new(rt.alloc(), Epoch(7));
    let mut rows = Vec::new(rt.alloc());
    let mut draws = Draws::new(1);
    for _ in 0..10_000 {
        let agreed = same(&mut sessions, &mut rows, &mut draws)?;
        assert!(rt; agreed);
        let client = client_of(&mut draws);
        let life = 1 + draws.draw(4);
        let told = agree(&sessions, &rows, client, life);
        assert!(rt; told);
    }
    Ok(())
}
