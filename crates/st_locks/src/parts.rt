// A lock table with what its passes keep: which files were touched, and when they look at files
// again.
ghost use Rattle.std.specs.Prelude.{◌≡◌, ◌&&◌, IfOk, OnOk};
ghost use Rattle.std.specs.Bool.{OnTrue};
ghost use Rattle.st_rules.specs.Locks as locks;
ghost use Rattle.st_locks.specs.Calls.{demanding};
ghost use Rattle.st_lock_tables.specs.WaitedFiles.{is_waited};
ghost use Rattle.st_locks.specs.SettledFiles.{NotesSuspects, IsSettled, MarksAll, MarksWaited, is_file_of, is_held_up, is_shared_wait, is_wanted_of, walked};

use crate::demands::demand_files;
use crate::touched_files::TouchedFiles;
use crate::wake_times::WakeTimes;
use st_base::{ClientId, GrantNo, Mode};
use st_lock_tables::{Pass, PlainTable, Sent};
use std::alloc::{AllocError, Global};
use std::mem;

/// A lock table; the files that calls touched since each pass; when the demanding pass looks at
/// files again; and the clients of which it demanded nothing when it last ran.
#[derive(Drop)]
pub(crate) struct LockTableParts {
    pub(crate) alloc: Global,
    pub(crate) table: PlainTable,
    pub(crate) granting: TouchedFiles,
    pub(crate) demanding: TouchedFiles,
    pub(crate) waking: WakeTimes,
    pub(crate) besides: Vec<ClientId>,
    /// A list whose room a pass uses for the files that it walks.
    pub(crate) spare: Vec<u32>,
}

/// The files that a pass walks, in rising order: all that are waited for, or those that were
/// touched. The room of the spare list is used for them.
pub(crate) fn walked(
    alloc: Global,
    table: &PlainTable,
    marks: &TouchedFiles,
    spare: Vec<u32>,
) -> Result<Vec<u32>, AllocError>
    ensures { IfOk result (λ v. v.items ≡ walked marks.now (locks.waited_files table.now)) }
{
    if marks.is_all() {
        table.waited_files()
    } else {
        marks.rising(alloc, spare)
    }
}

/// Whether two lists have the same clients in the same order.
fn are_same(a: &[ClientId], b: &[ClientId]) -> bool
    ensures { OnTrue result (a.now ≡ b.now) }
{
    a == b
}

/// The clients of which the next pass demands nothing; if they are not those of the last pass,
/// all files are touched.
fn note_suspects(
    besides: &mut Vec<ClientId>,
    marks: &mut TouchedFiles,
    suspects: &[ClientId],
) -> Result<(), AllocError>
    ensures noted { OnOk result (besides.new.items ≡ suspects.now) }
    ensures kept { NotesSuspects marks.old besides.old.items marks.new besides.new.items }
{
    if are_same(besides.as_slice(), suspects) {
        Ok(())
    } else {
        marks.touch_all();
        besides.clear();
        besides.extend_from_slice(suspects)?;
        Ok(())
    }
}

/// The file was touched, if somebody waits for it.
pub(crate) fn touch_waited(
    table: &PlainTable,
    granting: &mut TouchedFiles,
    demanding: &mut TouchedFiles,
    ino: u32,
)
    ensures granting { MarksWaited table.now ino granting.old granting.new }
    ensures demanding { MarksWaited table.now ino demanding.old demanding.new }
{
    let waited = table.is_waited(ino);
    granting.touch_if(ino, waited);
    demanding.touch_if(ino, waited);
}

/// The files of some rows were touched, if somebody waits for them.
pub(crate) fn touch_rows(
    table: &PlainTable,
    marks: &mut TouchedFiles,
    rows: &[(u32, GrantNo, Mode)],
)
    ensures { MarksAll (λ j. is_file_of rows.now j && is_waited table.now j) marks.old marks.new }
{
    for row in rows {
        marks.touch_if(row.0, table.is_waited(row.0));
    }
}

/// Files of a client were touched, if another client waits for them.
pub(crate) fn touch_files(
    table: &PlainTable,
    marks: &mut TouchedFiles,
    client: ClientId,
    files: &[u32],
)
    ensures { MarksAll (is_wanted_of table.now client files.now) marks.old marks.new }
{
    for ino in files {
        marks.touch_if(*ino, table.is_waited_besides(client, *ino));
    }
}

/// The files of which the client has a row were touched, if another client waits for them.
pub(crate) fn touch_locks(table: &PlainTable, marks: &mut TouchedFiles, client: ClientId)
    ensures { MarksAll (is_held_up table.now client) marks.old marks.new }
{
    touch_files(table, marks, client, table.row_files(client));
}

/// The files for which the client waits were touched, if another client waits for them too.
pub(crate) fn touch_waits(table: &PlainTable, marks: &mut TouchedFiles, client: ClientId)
    ensures { MarksAll (is_shared_wait table.now client) marks.old marks.new }
{
    touch_files(table, marks, client, table.wait_files(client));
}

impl LockTableParts {
    /// All demands that are due now.
    pub(crate) fn demands_due(
        &mut self,
        pass: Pass,
        suspects: &[ClientId],
    ) -> Result<Vec<Sent>, AllocError>
        requires { IsSettled self.old.table self.old.granting self.old.demanding self.old.waking self.old.besides.items }
        ensures settled { IsSettled self.new.table self.new.granting self.new.demanding self.new.waking self.new.besides.items }
        ensures due { IfOk result (λ v. locks.demands_due self.old.table pass.now pass.tick suspects.now pass.config ≡ demanding self.new.table v.items) }
    {
        note_suspects(&mut self.besides, &mut self.demanding, suspects)?;
        self.waking.wake(&mut self.demanding, pass)?;
        let spare = mem::replace(&mut self.spare, Vec::new(self.alloc));
        let files = walked(self.alloc, &self.table, &self.demanding, spare)?;
        let mut due = Vec::new(self.alloc);
        match demand_files(
            &mut self.table,
            &mut self.waking,
            &mut due,
            pass,
            suspects,
            files.as_slice(),
        ) {
            Ok(()) => {
                self.demanding.clear();
                self.spare = files;
                Ok(due)
            }
            Err(error) => {
                self.granting.touch_all();
                self.demanding.touch_all();
                Err(error)
            }
        }
    }
}
