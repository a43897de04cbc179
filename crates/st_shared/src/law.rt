// The law of all histories.
ghost use Rattle.st_shared.specs.History.{EveryHistoryIsRight};

/// Every history of a fresh file is right, over every list of calls. What a read returns are the
/// bytes of the last write to its page whose effect comes before the read's own, or zeros. A write
/// that is reported hard had its effect before. While a client is in, no client has a lock row. No
/// command of a client that expired since has its effect, and none has it while a client has a lock
/// row.
pub fn every_history_is_right()
    ensures { EveryHistoryIsRight }
{}
