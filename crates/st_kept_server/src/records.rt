// The record of a change, which waits to be kept.
ghost use Rattle.std.specs.Prelude.{◌≡◌, true, IfSome, OnErr, OnOk};
ghost use Rattle.std.specs.Option.{option_copied};
ghost use Rattle.std.specs.Result.{IsErrOf};
ghost use Rattle.st_journal.specs.Changes.{fits};
ghost use Rattle.st_kept_histories.specs.Kept.{IsFullOf, with_change};
ghost use Rattle.st_kept_journal.specs.declared.task.KeepFault.TheVariants.{Full};

use st_journal::Change;
use st_kept_journal::{JournalKeeper, KeepFault};
use st_stable_file::change_bytes;
use std::alloc::Global;

/// The record of a change that was made at this moment waits, if there is one.
pub(crate) fn wait(
    alloc: Global,
    journal: &mut JournalKeeper,
    moment: u64,
    change: Option<&Change>,
) -> Result<(), KeepFault>
    requires { IfSome (option_copied change) (λ x. fits x ≡ true) }
    ensures ok { OnOk result (journal.new ≡ with_change journal.old moment (option_copied change.entry)) }
    ensures full { IsErrOf result Full → IsFullOf journal.old moment (option_copied change.entry) }
    ensures err { OnErr result (journal.new ≡ journal.old) }
{
    let Some(change) = change else {
        return Ok(());
    };
    let Ok(bytes) = change_bytes(alloc, moment, change) else {
        return Err(KeepFault::Memory);
    };
    journal.add(bytes.as_slice())
}
