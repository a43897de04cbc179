use crate::arguments;
use st_base::{ClientId, GrantNo, Life, Mode};
use std::alloc::{AllocError, Global};

/// What a demand asks for, when it was sent, and since when it waits for an answer, if it does.
#[derive(Clone, Copy)]
pub struct Asked {
    to: u8,
    sent: u64,
    since: Option<u64>,
}

/// A lock as a plain row; its mode is 1 if it is shared, and 2 if it is exclusive.
#[derive(Clone, Copy)]
pub struct Row {
    pub client: u16,
    pub ino: u32,
    pub life: u64,
    pub g: u64,
    pub mode: u8,
    pub asked: Option<Asked>,
}

/// A wait as a plain row.
#[derive(Clone, Copy)]
pub struct Wait {
    client: u16,
    ino: u32,
    life: u64,
    mode: u8,
}

/// A grant or a demand, as the lock table tells it.
pub type Sent = (ClientId, Life, u32, GrantNo, Mode);

/// What a request for a lock is answered: its grant number and mode, a wait, or that the client has
/// too many.
#[derive(Clone, Copy, PartialEq, Eq)]
pub enum Answer {
    Granted(u64, u8),
    Queued,
    TooMany,
}

/// The locks of epoch 3 as plain rows, with the number of the last grant.
#[derive(Drop)]
pub struct Plain {
    pub rows: Vec<Row>,
    waits: Vec<Wait>,
    last: u64,
    /// The clients of which nothing is demanded.
    pub suspects: Vec<ClientId>,
    /// How many requests were refused.
    pub refused: u64,
}

/// The mode of a number.
pub fn mode(number: u8) -> Mode {
    match number {
        0 => Mode::None,
        1 => Mode::S,
        _ => Mode::X,
    }
}

fn stands(row: Row, client: u16, ino: u32, mode: u8) -> bool {
    row.ino == ino && row.client != client && (row.mode == 2 || mode == 2)
}

fn sent(client: u16, life: u64, ino: u32, g: u64, to: u8) -> Sent {
    (ClientId(client), Life(life), ino, GrantNo(g), mode(to))
}

impl Row {
    /// Since when the demand on this row waits for an answer, if it does.
    pub fn since(&self) -> Option<u64> {
        self.asked?.since
    }
}

impl Plain {
    pub fn new(alloc: Global) -> Plain {
        Plain {
            rows: Vec::new(alloc),
            waits: Vec::new(alloc),
            last: 12_884_901_888,
            suspects: Vec::new(alloc),
            refused: 0,
        }
    }

    pub fn row(&self, client: u16, ino: u32) -> Option<Row> {
        self.rows
            .iter()
            .copied()
            .find(|row| row.client == client && row.ino == ino)
    }

    fn is_against(&self, client: u16, ino: u32, mode: u8) -> bool {
        self.rows
            .iter()
            .copied()
            .any(|row| stands(row, client, ino, mode))
    }

    fn waits_for(&self, client: u16, ino: u32) -> bool {
        self.waits
            .iter()
            .copied()
            .any(|wait| wait.client == client && wait.ino == ino)
    }

    fn waits_beside(&self, client: u16, ino: u32) -> bool {
        self.waits
            .iter()
            .copied()
            .any(|wait| wait.ino == ino && wait.client != client)
    }

    fn grant(&mut self, client: u16, life: u64, ino: u32, mode: u8) -> Result<u64, AllocError> {
        self.last = self.last.wrapping_add(1);
        self.waits
            .retain(|wait| wait.client != client || wait.ino != ino);
        let g = self.last;
        self.rows
            .retain(|row| row.client != client || row.ino != ino);
        self.rows.push(Row {
            client,
            ino,
            life,
            g,
            mode,
            asked: None,
        })?;
        Ok(g)
    }

    /// The other clients that wait for the file or conflict on it, by rising number.
    pub fn in_the_way(
        &self,
        alloc: Global,
        client: u16,
        ino: u32,
        mode: u8,
    ) -> Result<Vec<ClientId>, AllocError> {
        let mut found = Vec::new(alloc);
        for wait in self.waits.iter() {
            if wait.ino == ino && wait.client != client {
                found.push(ClientId(wait.client))?;
            }
        }
        for row in self.rows.iter() {
            if stands(*row, client, ino, mode) {
                found.push(ClientId(row.client))?;
            }
        }
        found.sort()?;
        found.dedup();
        Ok(found)
    }

    /// How many files there are on which the client has a row or waits.
    fn files(&self, client: u16) -> usize {
        let rows = self.rows.iter().filter(|row| row.client == client).count();
        let waits = self
            .waits
            .iter()
            .filter(|wait| wait.client == client && self.row(client, wait.ino).is_none())
            .count();
        rows.saturating_add(waits)
    }

    /// Asks for a lock.
    pub fn acquire(
        &mut self,
        client: u16,
        life: u64,
        ino: u32,
        mode: u8,
        grants: bool,
    ) -> Result<Answer, AllocError> {
        if let Some(row) = self.row(client, ino) {
            if row.mode >= mode {
                return Ok(Answer::Granted(row.g, row.mode));
            }
        } else if !self.waits_for(client, ino) && self.files(client) >= 1_024 {
            self.refused = self.refused.saturating_add(1);
            return Ok(Answer::TooMany);
        }
        if grants && !self.waits_beside(client, ino) && !self.is_against(client, ino, mode) {
            let g = self.grant(client, life, ino, mode)?;
            return Ok(Answer::Granted(g, mode));
        }
        for wait in self.waits.iter_mut() {
            if wait.client == client && wait.ino == ino {
                wait.mode = wait.mode.max(mode);
                return Ok(Answer::Queued);
            }
        }
        self.waits.push(Wait {
            client,
            ino,
            life,
            mode,
        })?;
        Ok(Answer::Queued)
    }

    /// Lowers or takes away a lock; whether there was one of this life and grant number.
    pub fn release(&mut self, client: u16, life: u64, ino: u32, g: u64, to: u8) -> bool {
        let Some(row) = self.row(client, ino) else {
            return false;
        };
        if row.life != life || row.g != g {
            return false;
        }
        if to == 0 {
            self.rows
                .retain(|old| old.client != client || old.ino != ino);
        } else {
            self.lower(client, ino);
        }
        true
    }

    fn lower(&mut self, client: u16, ino: u32) {
        for row in self.rows.iter_mut() {
            if row.client == client && row.ino == ino {
                row.mode = 1;
                row.asked = match row.asked {
                    Some(Asked { to: 1, .. }) => None,
                    other => seen(other),
                };
            }
        }
    }

    pub fn forget(&mut self, client: u16) {
        self.rows.retain(|row| row.client != client);
        self.waits.retain(|wait| wait.client != client);
    }

    pub fn drop_waits(&mut self, client: u16) {
        self.waits.retain(|wait| wait.client != client);
    }

    pub fn drop_file_waits(&mut self, ino: u32) {
        self.waits.retain(|wait| wait.ino != ino);
    }

    /// The least other client that conflicts on the file.
    fn holder(&self, client: u16, ino: u32, mode: u8) -> Option<u16> {
        self.rows
            .iter()
            .copied()
            .filter(|row| stands(*row, client, ino, mode))
            .map(|row| row.client)
            .min()
    }

    /// The file of the first of these rows that conflicts with another client's, and that client.
    fn conflict(&self, client: u16, rows: &[arguments::Row]) -> Option<(u32, u16)> {
        for row in rows {
            if let Some(holder) = self.holder(client, row.0, row.2) {
                return Some((row.0, holder));
            }
        }
        None
    }

    /// Puts the rows of a client that has none, or tells which one conflicts, and with whom.
    pub fn install(
        &mut self,
        client: u16,
        life: u64,
        rows: &[arguments::Row],
    ) -> Result<Option<(u32, u16)>, AllocError> {
        if let Some(conflict) = self.conflict(client, rows) {
            return Ok(Some(conflict));
        }
        for row in rows {
            self.rows.push(Row {
                client,
                ino: row.0,
                life,
                g: row.1,
                mode: row.2,
                asked: None,
            })?;
        }
        Ok(None)
    }

    fn grant_on(&mut self, ino: u32, told: &mut Vec<Sent>) -> Result<(), AllocError> {
        for _ in 0..17 {
            let Some(wait) = self.waits.iter().copied().find(|wait| wait.ino == ino) else {
                return Ok(());
            };
            if self.is_against(wait.client, ino, wait.mode) {
                return Ok(());
            }
            let g = self.grant(wait.client, wait.life, ino, wait.mode)?;
            told.push(sent(wait.client, wait.life, ino, g, wait.mode))?;
        }
        Ok(())
    }

    /// The files for which a client waits, in rising order.
    fn waited(&self, alloc: Global) -> Result<Vec<u32>, AllocError> {
        let mut files = Vec::new(alloc);
        for wait in self.waits.iter() {
            files.push(wait.ino)?;
        }
        files.sort()?;
        files.dedup();
        Ok(files)
    }

    /// All grants that can be made.
    pub fn grants(&mut self, alloc: Global) -> Result<Vec<Sent>, AllocError> {
        let mut told = Vec::new(alloc);
        for ino in self.waited(alloc)?.iter().copied() {
            self.grant_on(ino, &mut told)?;
        }
        Ok(told)
    }

    fn demand_of(
        &mut self,
        now: u64,
        tick: bool,
        row: Row,
        to: u8,
        told: &mut Vec<Sent>,
    ) -> Result<(), AllocError> {
        if let Some(asked) = due(row.asked, now, tick, to) {
            for old in self.rows.iter_mut() {
                if old.client == row.client && old.ino == row.ino {
                    old.asked = Some(asked);
                }
            }
            told.push(sent(row.client, row.life, row.ino, row.g, asked.to))?;
        }
        Ok(())
    }

    /// The rows of a file, by rising client.
    fn rows_of(&self, alloc: Global, ino: u32) -> Result<Vec<Row>, AllocError> {
        let mut found = Vec::new(alloc);
        for row in self.rows.iter() {
            if row.ino == ino {
                found.push(*row)?;
            }
        }
        found.sort_by_key(|row| row.client)?;
        Ok(found)
    }

    fn demand_on(
        &mut self,
        alloc: Global,
        now: u64,
        tick: bool,
        ino: u32,
        told: &mut Vec<Sent>,
    ) -> Result<(), AllocError> {
        let Some(wait) = self.waits.iter().copied().find(|wait| wait.ino == ino) else {
            return Ok(());
        };
        let to = if wait.mode == 2 { 0 } else { 1 };
        for row in self.rows_of(alloc, ino)?.iter().copied() {
            let suspect = self.suspects.iter().any(|suspect| suspect.0 == row.client);
            if !suspect && stands(row, wait.client, ino, wait.mode) {
                self.demand_of(now, tick, row, to, told)?;
            }
        }
        Ok(())
    }

    /// All demands that are due.
    pub fn demands(
        &mut self,
        alloc: Global,
        now: u64,
        tick: bool,
    ) -> Result<Vec<Sent>, AllocError> {
        let mut told = Vec::new(alloc);
        for ino in self.waited(alloc)?.iter().copied() {
            self.demand_on(alloc, now, tick, ino, &mut told)?;
        }
        Ok(told)
    }

    /// The demand on this row was answered.
    pub fn answered(&mut self, client: u16, ino: u32, g: u64) {
        for row in self.rows.iter_mut() {
            if row.client == client && row.ino == ino && row.g == g {
                row.asked = seen(row.asked);
            }
        }
    }

    /// The clients with a demand that waits for 10 ticks or longer.
    pub fn unanswered(&self, alloc: Global, now: u64) -> Result<Vec<ClientId>, AllocError> {
        let mut found = Vec::new(alloc);
        for row in self.rows.iter() {
            if let Some(since) = row.since() {
                if now >= since && now - since >= 10 {
                    found.push(ClientId(row.client))?;
                }
            }
        }
        found.sort()?;
        found.dedup();
        Ok(found)
    }

    /// The rows of a file, by rising client.
    pub fn holders(
        &self,
        alloc: Global,
        ino: u32,
    ) -> Result<Vec<(ClientId, GrantNo, Mode)>, AllocError> {
        let mut found = Vec::new(alloc);
        for row in self.rows_of(alloc, ino)?.iter() {
            found.push((ClientId(row.client), GrantNo(row.g), mode(row.mode)))?;
        }
        Ok(found)
    }

    /// The rows of a client, by rising file.
    pub fn of(&self, alloc: Global, client: u16) -> Result<Vec<(u32, GrantNo, Mode)>, AllocError> {
        let mut found = Vec::new(alloc);
        for row in self.rows.iter() {
            if row.client == client {
                found.push((row.ino, GrantNo(row.g), mode(row.mode)))?;
            }
        }
        found.sort_by_key(|row| row.0)?;
        Ok(found)
    }

    pub fn has_rows(&self, client: u16) -> bool {
        self.rows.iter().any(|row| row.client == client)
    }

    pub fn has_rows_from(&self, client: u16, life: u64) -> bool {
        self.rows
            .iter()
            .any(|row| row.client == client && row.life >= life)
    }
}

fn seen(asked: Option<Asked>) -> Option<Asked> {
    let asked = asked?;
    Some(Asked {
        to: asked.to,
        sent: asked.sent,
        since: None,
    })
}

/// The demand that is sent now, if one is.
fn due(asked: Option<Asked>, now: u64, tick: bool, to: u8) -> Option<Asked> {
    let Some(old) = asked else {
        return Some(Asked {
            to,
            sent: now,
            since: Some(now),
        });
    };
    let again = tick && now >= old.sent && now - old.sent >= 5;
    if to < old.to || again {
        return Some(Asked {
            to: to.min(old.to),
            sent: now,
            since: Some(old.since.unwrap_or(now)),
        });
    }
    None
}
