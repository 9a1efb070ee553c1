// Transition systems of circuits and claims, and what a backward search says of their runs.
#![tactic(auto)]

ghost use Rattle.runs.specs.Systems.{System};
ghost use Rattle.runs.specs.Facts.{Worked};
ghost use Rattle.runs.specs.Valuations.{FunctionsExact};
ghost use Rattle.runs.specs.Models.{DescriptionsValid, SystemsAgree};
ghost use Rattle.runs.specs.Steps.{StepsBack, InputsQuantified, SetsSame, Spreads};
ghost use Rattle.runs.specs.Verdicts.{Sets, VerdictsMean, TracesRun};

// What the sets of the search hold.
pub fn sets_are_exact()
    ensures { (s : System) → Sets s }
{}

// What each verdict says of all runs.
pub fn verdicts_speak_of_runs()
    ensures { VerdictsMean }
{}

// The trace of an unsafe verdict is a run.
pub fn traces_are_runs()
    ensures { TracesRun }
{}

// One step back in functions of truth values.
pub fn steps_back_are_exact()
    ensures steps { StepsBack }
    ensures inputs { InputsQuantified }
    ensures sets { SetsSame }
    ensures spreads { Spreads }
{}

// The system of a circuit, an assumption and a property, and its functions.
pub fn circuits_are_systems()
    ensures valid { DescriptionsValid }
    ensures systems { SystemsAgree }
    ensures functions { FunctionsExact }
{}

// Circuits whose verdicts and traces are worked out, and two wrong ways that come out otherwise.
pub fn examples_work_out()
    ensures { Worked }
{}
