//! The law that reports are functions of the bytes of files.
ghost use Rattle.forms.specs.declared.file.File.TheVariants as file;
ghost use Rattle.{verdict.specs.declared.rules.Rules.Rules, evtext.specs.{Log.read_log_of, Script.read_script_of}};
ghost use Rattle.{certificate.specs.Reading.read_certificate_of, commands.specs.declared.choices.OnAccept.OnAccept};
ghost use Rattle.report.specs.{Answers.{Checks, Verifies}, OneAnswer.{RunsInMemory, ThreeHaveOneAnswer, TwoHaveOneAnswer}, Replays.Replays};

/// Proves that the answers of `check`, `verify`, `replay` and `run` are functions of the bytes of
/// the files: text and status are the same whenever and wherever a command reads them. For a run
/// this holds if no call was refused memory. It doesn't hold for a split run: its log is any of
/// those that the cores' events may give, each core's in their order.
pub fn reports_are_functions_of_the_bytes()
    ensures check { (set : Rules) (written : OnAccept) → TwoHaveOneAnswer (Checks set written) }
    ensures verify { (set : Rules) → ThreeHaveOneAnswer file.Certificate read_certificate_of (Verifies set) }
    ensures replay { ThreeHaveOneAnswer file.Log (λ t. read_log_of) Replays }
    ensures run { (set : Rules) → ThreeHaveOneAnswer file.Script (λ t. read_script_of) (RunsInMemory set) }
{}
