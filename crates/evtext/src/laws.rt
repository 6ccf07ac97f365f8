//! Laws about the texts of scripts and logs.
ghost use Rattle.std.specs.{List.AllByRecursion, Prelude.{ℕ, ◌↔◌, ◌≡◌, List, Ok}};
ghost use Rattle.machine.specs.declared.call.{Event.Event, Outcome.Outcome};
ghost use Rattle.evtext.specs.{Event.HasNumbers, Log.{IsEntry, IsLog, log_text, read_log_of}, Script.script_text};

/// A law: the text of a script is the text of no other one.
///
/// The script's numbers are of 64 bits, as all that the code has are, and its rights are sets of
/// the four, as all that are read.
pub fn a_text_is_of_one_script()
    ensures { (script other : List Event)
        → AllByRecursion HasNumbers script → AllByRecursion HasNumbers other
        → script_text script ≡ script_text other → script ≡ other }
{}

/// A law: the text of a log is the text of no other one.
///
/// The log's numbers and rights are as those of scripts.
pub fn a_text_is_of_one_log()
    ensures { (log other : List (Event × Outcome))
        → AllByRecursion IsEntry log → AllByRecursion IsEntry other
        → log_text log ≡ log_text other → log ≡ other }
{}

/// A law: a text is read as a log just where it is that log's text.
pub fn logs_are_read_back()
    ensures { (text : List ℕ) (log : List (Event × Outcome))
        → (read_log_of text ≡ Ok log) ↔ (IsLog log × (text ≡ log_text log)) }
{}
