use crate::draws::Draws;
use st_base::{ClientId, Config, Stamp};
use st_lease_server::Authority;
use std::alloc::{AllocError, Global};
use std::test::Fail;

/// Settings under which a timer lasts 152 ticks.
const CONFIG: Config = Config {
    lease: 100,
    renew: 50,
    quiesce: 70,
    flush: 85,
    demand: 10,
    retry: 5,
    num: 3,
    den: 2,
    grain: 2,
};

/// A client and the start of its timer.
type Row = (u16, u64);

fn start_of(rows: &[Row], client: u16) -> Option<u64> {
    rows.iter()
        .copied()
        .find(|row| row.0 == client)
        .map(|row| row.1)
}

/// The clients of these rows, in rising order.
fn clients(alloc: Global, rows: &[Row], until: u64) -> Result<Vec<ClientId>, AllocError> {
    let mut found = Vec::new(alloc);
    for client in 1..17 {
        if let Some(start) = start_of(rows, client) {
            if start <= until {
                found.push(ClientId(client))?;
            }
        }
    }
    Ok(found)
}

/// One call on both; whether the answers are the same.
fn same(
    alloc: Global,
    authority: &mut Authority,
    rows: &mut Vec<Row>,
    draws: &mut Draws,
    now: u64,
) -> Result<bool, AllocError> {
    if draws.draw(4) == 0 {
        let given = authority.over(Stamp(now))?;
        if now < 152 {
            return Ok(given.is_empty());
        }
        let wanted = clients(alloc, rows, now - 152)?;
        rows.retain(|row| row.1 > now - 152);
        return Ok(given.as_slice() == wanted.as_slice());
    }
    let client = 1 + draws.draw(16) as u16;
    authority.suspect(ClientId(client), Stamp(now))?;
    if start_of(rows, client).is_none() {
        rows.push((client, now))?;
    }
    Ok(true)
}

/// Whether the authority and the plain rows know the same.
fn agree(
    alloc: Global,
    authority: &Authority,
    rows: &[Row],
    client: u16,
) -> Result<bool, AllocError> {
    let id = ClientId(client);
    let start = start_of(rows, client).map(Stamp);
    let wanted = clients(alloc, rows, u64::MAX)?;
    Ok(
        authority.started(id) == start
            && authority.may_ack(id) == start.is_none()
            && authority.suspects() == wanted.as_slice(),
    )
}

#[test]
fn suspects_are_plain_rows(rt: HostRuntime) -> Result<(), Fail> {
    let config = CONFIG;
    assert!(rt; config.check().is_ok());
    let mut authority = Authority::new(rt.alloc(), &config);
    let mut rows = Vec::new(rt.alloc());
    let mut draws = Draws::new(1);
    let mut now = 0u64;
    for _step in 0..10_000 {
        now = now.wrapping_add(4 * draws.draw(5));
        let agreed = same(rt.alloc(), &mut authority, &mut rows, &mut draws, now)?;
        assert!(rt; agreed);
        let client = 1 + draws.draw(16) as u16;
        let told = agree(rt.alloc(), &authority, &rows, client)?;
        assert!(rt; told);
    }
    Ok(())
}
