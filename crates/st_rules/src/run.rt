ghost use Rattle.st_rules.specs.History.{TracedRunIsRun};
ghost use Rattle.st_rules.specs.Run.{RunsInParts};
ghost use Rattle.st_rules.specs.Safety.{StepsEndWithTheRun, StepsTakeTheEvents, StepsTellTheRun};

/// A run over some events and then others is the run over the others that begins where the first
/// events end.
pub fn runs_go_on_in_parts()
    ensures { RunsInParts }
{}

/// Recording a history beside the world does not change the run.
pub fn traced_runs_are_runs()
    ensures { TracedRunIsRun }
{}

/// The steps of which promises speak are the run: they take its events in order, up to the first
/// that is refused (`events`), what is observed at them is what is observed in the run (`seen`),
/// and the last of them leaves the run's last world (`world`).
pub fn steps_are_the_run()
    ensures events { StepsTakeTheEvents }
    ensures seen { StepsTellTheRun }
    ensures world { StepsEndWithTheRun }
{}
