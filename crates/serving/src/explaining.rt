//! The text for a person on standard error: sentences on findings, and with `--explain` the reasons, runs and notes.
use crate::opening::Opened;
use crate::sheets::{Sourced, minting_of};
use crate::swapped::{Swapped, is_description};
use base::Refusal;
use captext::{PolicyDraft, object_name};
use claims::{Broken, ClaimLines, Failure};
use diff::{Change, changes};
use explain_claims::{
    Judged, Lead, breach_lines, explain_breach, explain_breaches, explain_changers,
    explain_difference, explain_differences, explain_escape, explain_flows, explain_flows_beside,
    explain_readers, explain_run, explain_shared_memory, may_be_shown,
};
use explain_denials::{
    Names, explain_closing, explain_denial, explain_outside, explain_surplus, explain_unlabelled,
    explain_why, explain_why_allowed,
};
use explain_lines::{DroppedEdge, explain_dropped, explain_fault};
use explain_notes::{Note, explain_notes as explain_left_out, notes_of, notes_on_label};
use explain_refusals::{Caller, explain_illegal, explain_refusal};
use explain_rules::Sheet;
use explain_systems::{explain_changes, explain_notes};
use machine::{Event, Outcome};
use policy::Policy;
use reach::{Extent, Reach};
use report::{
    Answer, Asked, Described, End, Fault, File, Files, Finding, Given, Listener, Made, Minting,
    OfPolicy, OfSystem, OnClose, Open, Rules, Use, answer_at,
};
use requests::{Format, Invocation, OfThree, Request};
use std::alloc::{AllocError, Global};
use std::fmt;
use std::io::{self, ErrorKind};
use std::marker::PhantomData;
use std::rt::Clock;
use std::thread::Threads;
use std::time::Instant;
use table::Table;
use verdict::{Denial, judge_by};

/// The warning on an answer by a policy alone.
const BY_POLICY_ALONE: &str =
    "confine: this is what the policy allows: each label counts as one whose threads make calls, \
so the answer says nothing about runs";

/// The note on a denial by P1 to P8 of a policy that the sharp rules accept.
const NEEDLESSLY_STRICT: &str =
    "no run leaves the policy, so the rule is stricter than this system needs: `check --rules sharp` accepts it.";

/// The number of broken claims on pairs of labels, from the first, for which a run is searched.
const SEARCHES: usize = 10;

/// Tells a person on standard error what a command finds. Nothing changes if standard error can't
/// be written to, or memory is refused to a sentence.
#[derive(Drop)]
pub struct Explainer<'a, R> {
    rt: &'a R,
    invocation: Invocation<'a>,
}

impl<'a, R: AllocGlobal + Clock + Eprint> Explainer<'a, R> {
    /// Returns an explainer of this invocation, with the runtime that it uses.
    pub fn new(rt: &'a R, invocation: Invocation<'a>) -> Explainer<'a, R> {
        Explainer { rt, invocation }
    }

    /// Returns whether sentences are told: without `--quiet`, or if they were asked for.
    fn tells(&self) -> bool {
        let manner = self.invocation.manner;
        manner.explains || !manner.is_quiet
    }

    /// Returns whether sentences on findings and faults are told here. With `--format short` they are in the answer.
    fn tells_findings(&self) -> bool {
        self.tells() && self.invocation.manner.format != Format::Short
    }

    /// Tells which file couldn't be read, if one couldn't, and why.
    pub fn hear_end<F>(&self, end: End, files: &Request<'_, Opened<F>>) {
        if let (true, End::CannotRead(file)) = (self.tells(), end) {
            let name = self.invocation.request.name_of(file);
            let alloc = self.rt.alloc();
            let why = match files.file(file) {
                Some(file) => file.why_unread(),
                None => None,
            };
            self.tell(match why {
                Some(kind) => {
                    let why = Unread(kind);
                    format!(in alloc; "can't read the {file} `{name}`: {why}")
                }
                None => format!(in alloc; "can't read the {file} `{name}`"),
            });
        }
    }

    /// Warns on an answer by a policy alone, whether or not anything is to be explained.
    fn warn(&self) {
        if let Request::OfPolicy(OfPolicy::Why { .. } | OfPolicy::Draw(_), _, _, _) = self
            .invocation
            .request
        {
            let _ = self.rt.eprintln(BY_POLICY_ALONE);
        }
    }

    /// Tells what the table of an imported description doesn't show: all of it if that is to be
    /// explained, or else how much.
    fn tell_left_out(&self, described: &Described) {
        let alloc = self.rt.alloc();
        if self.invocation.manner.is_quiet {
            return;
        }
        if let Ok(notes) = self.notes_on(described) {
            if self.invocation.manner.explains {
                let file = self.invocation.request.name_of(File::Description);
                self.tell_lines(explain_left_out(alloc, file, &notes));
            } else {
                self.tell_counted(File::Description, &notes, "--explain");
            }
        }
    }

    /// Tells how much the table of a description, in this file, doesn't show.
    fn tell_how_much_is_left_out(&self, file: File, described: &Described) {
        if self.invocation.manner.is_quiet {
            return;
        }
        if let Ok(notes) = self.notes_on(described) {
            self.tell_counted(file, &notes, "confine import --explain");
        }
    }

    /// Tells how many notes on a description there are, and which option prints them.
    fn tell_counted(&self, file: File, notes: &[Note<'_>], option: &str) {
        let alloc = self.rt.alloc();
        let file = self.invocation.request.name_of(file);
        let them = if notes.len() == 1 { "it" } else { "them" };
        let counted = Counted {
            notes: notes.len(),
            on_memory: notes.iter().filter(|note| note.is_on_memory()).count(),
        };
        self.tell(format!(in alloc; "{file}: {counted}. `{option}` prints {them}."));
    }

    /// Returns the notes on what the table of a description doesn't show.
    fn notes_on<'b>(&self, described: &'b Described) -> Result<Vec<Note<'b>>, AllocError> {
        let minting = minting_of(&self.invocation.request).unwrap_or(Minting::Least);
        notes_of(
            self.rt.alloc(),
            &described.description,
            minting,
            &described.table,
        )
    }

    /// Tells which lines of a policy were dropped.
    fn tell_dropped(&self, table: &Table, draft: &PolicyDraft) {
        if !self.tells() {
            return;
        }
        let alloc = self.rt.alloc();
        let name = self.invocation.request.name_of(File::Policy);
        for line in draft.dropped() {
            let dropped = DroppedEdge {
                line: line.line(),
                from: line.from(),
                kind: line.kind(),
                to: line.to(),
            };
            self.tell(explain_dropped(alloc, name, table, dropped));
        }
    }

    /// Tells a sentence, which has no line feed.
    fn tell<E: Drop>(&self, sentence: Result<String, E>) {
        if let Ok(sentence) = sentence {
            let _ = self.rt.eprintln(sentence);
        }
    }

    /// Tells lines, if there are any.
    fn tell_lines<E: Drop>(&self, lines: Result<String, E>) {
        if let Ok(lines) = lines {
            let _ = self.rt.eprint(lines);
        }
    }

    /// Tells what is wrong and, if that was asked for, the reasons and runs.
    fn tell_finding(&self, leave: &(impl Threads + Sync), files: Files<'_>, finding: &Finding) {
        match (finding, files) {
            (Finding::Broken(broken), Files::Claims(given, lines)) => {
                let _ = self.tell_broken(given, lines, broken);
            }
            _ if self.tells_findings() => self.tell(self.sentence_on(files, finding)),
            _ => {}
        }
        if let (true, Finding::Denied(denial), Files::Policy(given, policy)) = (
            self.invocation.manner.explains,
            finding,
            files,
        ) {
            if let Ok(system) = self.sourced(given) {
                self.tell_escape(leave, system.sheet(), policy, denial);
            }
        }
    }

    /// Tells which claims don't hold and, if that was asked for, the reasons and runs.
    fn tell_broken(
        &self,
        given: &Given,
        lines: &ClaimLines,
        broken: &[Broken],
    ) -> Result<(), Refusal> {
        if self.invocation.manner.explains {
            let alloc = self.rt.alloc();
            let system = self.sourced(given)?;
            let reach = Reach::of(alloc, given.table())?;
            self.tell_reasons(&reach, &self.judged(system.sheet(), lines), broken);
        } else if self.tells_findings() {
            self.tell_lines(self.broken_told(given, lines, broken));
        }
        Ok(())
    }

    /// Tells the reasons why claims don't hold, and then runs, each as it is found.
    fn tell_reasons(&self, reach: &Reach<'_>, judged: &Judged<'_>, broken: &[Broken]) {
        let lead = if self.tells_findings() {
            Lead::Sentence
        } else {
            Lead::Place
        };
        let alloc = self.rt.alloc();
        self.tell_lines(explain_breaches(alloc, reach, judged, broken, lead));
        self.tell_runs(reach, judged, broken);
    }

    /// Tells a run for each of the first broken claims on a pair of labels, as it is found, while there is time.
    fn tell_runs(&self, reach: &Reach<'_>, judged: &Judged<'_>, broken: &[Broken]) {
        let alloc = self.rt.alloc();
        let begun = Instant::now(self.rt);
        let mut searched: usize = 0;
        let mut left: usize = 0;
        for one in broken {
            if let Failure::Pair(breach) = one.failure {
                if searched < SEARCHES && !self.is_late(&begun) {
                    self.tell_lines(explain_breach(alloc, reach, judged, one.line, breach));
                    searched = searched.saturating_add(1);
                } else {
                    left = left.saturating_add(1);
                }
            }
        }
        if left > 0 {
            self.tell_unsearched(judged.claims, left, searched);
        }
    }

    /// Tells the number of broken claims for which no run was searched after a number of searches, and why.
    fn tell_unsearched(&self, claims: &str, left: usize, searched: usize) {
        let alloc = self.rt.alloc();
        let seconds = self.invocation.manner.seconds;
        self.tell(if searched < SEARCHES {
            format!(in alloc;
                "{claims}: for {left} of the broken claims no run was looked for: `--seconds {seconds}` was over. \
                 `confine show` looks for one."
            )
        } else {
            format!(in alloc;
                "{claims}: for {left} of the broken claims no run was looked for: that is done for the first {SEARCHES}. \
                 `confine show` looks for one."
            )
        });
    }

    /// Returns whether the time for searches is over. Without a clock it never is.
    fn is_late(&self, begun: &io::Result<Instant>) -> bool {
        let seconds = self.invocation.manner.seconds;
        match begun {
            Ok(begun) => match begun.elapsed(self.rt) {
                Ok(elapsed) => seconds > 0 && elapsed.as_secs() >= seconds,
                Err(_) => false,
            },
            Err(_) => false,
        }
    }

    /// Returns the sentence on what is wrong, without a line feed. For claims it returns a line for
    /// each that doesn't hold.
    pub fn sentence_on(&self, files: Files<'_>, finding: &Finding) -> Result<String, Refusal> {
        let alloc = self.rt.alloc();
        match (finding, files) {
            (Finding::Broken(broken), Files::Claims(given, lines)) => {
                self.broken_told(given, lines, broken)
            }
            (Finding::Illegal(entry), Files::Log(table, _, log)) => {
                Ok(self.illegal_told(table, log, *entry)?)
            }
            (Finding::Outside(denial), Files::Log(table, _, log)) => {
                let name = self.invocation.request.name_of(File::Log);
                Ok(explain_outside(alloc, name, log.len(), table, denial)?)
            }
            (Finding::Denied(denial), Files::Policy(given, policy)) => {
                let system = self.sourced(given)?;
                self.denied_told(system.sheet(), policy, denial)
            }
            (
                Finding::Denied(denial),
                Files::Certificate(table, policy) | Files::Script(table, policy, _),
            ) => self.denied_told(self.sheet_of(table), policy, denial),
            // No other finding has such files.
            _ => Ok(String::new(alloc)),
        }
    }

    /// Returns a system with what its table comes from.
    fn sourced<'b>(&'b self, given: &'b Given) -> Result<Sourced<'b>, AllocError> {
        let request = self.invocation.request;
        let file = request.name_of(File::Table);
        Sourced::of(self.rt.alloc(), &request, file, given)
    }

    /// Returns a table that was given as one.
    fn sheet_of<'b>(&'b self, table: &'b Table) -> Sheet<'b> {
        Sheet {
            file: self.invocation.request.name_of(File::Table),
            table,
            made: None,
        }
    }

    /// Returns the sentence on a denial.
    fn denied_told(
        &self,
        sheet: Sheet<'_>,
        policy: &Policy,
        denial: &Denial,
    ) -> Result<String, Refusal> {
        let alloc = self.rt.alloc();
        explain_denial(alloc, &self.names(), sheet, policy, self.rules(), denial)
    }

    /// Returns a line for each claim that doesn't hold.
    fn broken_told(
        &self,
        given: &Given,
        lines: &ClaimLines,
        broken: &[Broken],
    ) -> Result<String, Refusal> {
        let alloc = self.rt.alloc();
        let system = self.sourced(given)?;
        let reach = Reach::of(alloc, given.table())?;
        breach_lines(alloc, &reach, &self.judged(system.sheet(), lines), broken)
    }

    /// The system and the lines of claims that were judged.
    fn judged<'b>(&'b self, sheet: Sheet<'b>, lines: &'b ClaimLines) -> Judged<'b> {
        Judged {
            sheet,
            claims: self.invocation.request.name_of(File::Claims),
            lines,
        }
    }

    /// The rules by which the policy is judged.
    fn rules(&self) -> Rules {
        match self.invocation.request {
            Request::Check(check, _, _) => check.rules,
            Request::OfPolicy(OfPolicy::Close(rules, _), _, _, _) => rules,
            Request::OfThree(OfThree::Verify(rules) | OfThree::Run(rules), _, _, _) => rules,
            _ => Rules::Closed,
        }
    }

    /// Returns the sentence on a fault of a file's text, without a line feed.
    pub fn fault_told(
        &self,
        file: File,
        text: &[u8],
        table: Option<&Table>,
        fault: Fault,
    ) -> Result<String, AllocError> {
        let alloc = self.rt.alloc();
        let request = self.invocation.request;
        let name = request.name_of(file);
        if let Some(swapped) = Swapped::of(&request, file, text) {
            let line = fault.line;
            return format!(in alloc; "{name}:{line}: {swapped}");
        }
        match file {
            File::Description => explain_descriptions::explain_fault(alloc, name, text, fault),
            File::New if is_description(text) => explain_descriptions::explain_fault(
                alloc, name, text, fault,
            ),
            File::New => explain_fault(alloc, File::Table, name, name, text, table, fault),
            _ => {
                let system = request.name_of(File::Table);
                explain_fault(alloc, file, name, system, text, table, fault)
            }
        }
    }

    /// Tells a run that leaves the policy, if `check` denies it by a rule on policies; or that
    /// there is none, if the sharp rules accept it.
    fn tell_escape(
        &self,
        leave: &(impl Threads + Sync),
        sheet: Sheet<'_>,
        policy: &Policy,
        denial: &Denial,
    ) {
        let alloc = self.rt.alloc();
        match (denial, self.invocation.request) {
            (Denial::Policy(_), Request::Check(..)) if is_sharp(leave, alloc, sheet, policy) => {
                self.tell(String::from_str(alloc, NEEDLESSLY_STRICT));
            }
            (Denial::Policy(_) | Denial::Sharp(_), Request::Check(..)) => {
                self.tell_lines(explain_escape(alloc, sheet, policy));
            }
            _ => {}
        }
    }

    /// The names of the files of a denial, beside the table's.
    fn names(&self) -> Names<'a> {
        let request = self.invocation.request;
        Names {
            policy: request.name_of(File::Policy),
            certificate: request.name_of(File::Certificate),
        }
    }

    /// The sentence on an entry of a log that is no step, and what the kernel answers there, unless
    /// memory for that is refused.
    fn illegal_told(
        &self,
        table: &Table,
        log: &[(Event, Outcome)],
        entry: usize,
    ) -> Result<String, AllocError> {
        let alloc = self.rt.alloc();
        let name = self.invocation.request.name_of(File::Log);
        // Entries are counted from 1.
        let at = entry.wrapping_sub(1);
        let came = answer_at(alloc, table, log, at);
        if let (Some((event, told)), Ok(Some(came))) = (log.get(at), came) {
            let caller = caller_of(table, event);
            return explain_illegal(alloc, caller, name, entry, event, told, &came);
        }
        format!(in alloc; "{name}: entry {entry} is not a step of the system")
    }

    /// Tells why calls are refused: those of a script by its lines, those that workers made by the
    /// lines of the log.
    fn tell_refusals(&self, table: &Table, events: &[Event], made: &Made) {
        match made {
            Made::InTurn(outcomes) => {
                let script = self.invocation.request.name_of(File::Script);
                for (index, (event, outcome)) in events.iter().zip(outcomes).enumerate() {
                    self.tell_refusal(table, script, index, event, outcome);
                }
            }
            Made::ByWorkers(log) => {
                for (index, (event, outcome)) in log.iter().enumerate() {
                    self.tell_refusal(table, "log", index, event, outcome);
                }
            }
        }
    }

    /// Tells why a call is refused, if it is.
    fn tell_refusal(
        &self,
        table: &Table,
        name: &str,
        index: usize,
        event: &Event,
        outcome: &Outcome,
    ) {
        if let Outcome::Refused(refusal) = outcome {
            // The header is a line too.
            let line = index.wrapping_add(2);
            let caller = caller_of(table, event);
            let alloc = self.rt.alloc();
            self.tell(explain_refusal(alloc, caller, name, line, event, *refusal));
        }
    }

    /// Tells what claims that hold don't say.
    fn tell_held(&self, given: &Given, lines: &ClaimLines) -> Result<(), Refusal> {
        let system = self.sourced(given)?;
        let reach = Reach::of(self.rt.alloc(), given.table())?;
        self.tell_unsaid(&reach, &self.judged(system.sheet(), lines));
        Ok(())
    }

    /// Tells notes on memory, and on flows between labels of which claims say that the one changes nothing of the other.
    fn tell_unsaid(&self, reach: &Reach<'_>, judged: &Judged<'_>) {
        let alloc = self.rt.alloc();
        self.tell_lines(explain_shared_memory(alloc, reach, judged));
        self.tell_lines(explain_flows_beside(alloc, reach, judged));
    }

    /// Tells more of a system that has no fault.
    fn tell_of_system(
        &self,
        leave: &(impl Threads + Sync),
        asked: OfSystem<'_>,
        sheet: Sheet<'_>,
        answer: &Answer,
    ) {
        let alloc = self.rt.alloc();
        match asked {
            OfSystem::Start(rules, OnClose::Policy | OnClose::Missing) => {
                let policy = Policy::new(alloc);
                self.tell_closing(leave, rules, sheet, &policy);
                drop(policy);
            }
            OfSystem::Why { .. } | OfSystem::Users { .. } | OfSystem::Flows { .. } => {
                self.tell_lines(self.edges_told(asked, sheet));
            }
            OfSystem::Show { .. } => {
                if let Some(script) = &answer.script {
                    self.tell_lines(explain_run(alloc, sheet, script));
                }
            }
            _ => {}
        }
    }

    /// Tells by which rules edges are added to a policy.
    fn tell_closing(
        &self,
        leave: &(impl Threads + Sync),
        rules: Rules,
        sheet: Sheet<'_>,
        policy: &Policy,
    ) {
        let alloc = self.rt.alloc();
        self.tell_lines(explain_closing(leave, alloc, rules, sheet, policy));
    }

    /// Returns where the edges of an answer come from, by the reach of the table.
    fn edges_told(&self, asked: OfSystem<'_>, sheet: Sheet<'_>) -> Result<String, Refusal> {
        let reach = Reach::of(self.rt.alloc(), sheet.table)?;
        self.reach_told(asked, sheet, &reach)
    }

    /// Returns where the edges of an answer come from: of a reason, of those by which labels use another, or of flows.
    fn reach_told(
        &self,
        asked: OfSystem<'_>,
        sheet: Sheet<'_>,
        reach: &Reach<'_>,
    ) -> Result<String, Refusal> {
        let alloc = self.rt.alloc();
        match asked {
            OfSystem::Why { actor, object, .. } => self.why_told(sheet, reach, actor, object),
            OfSystem::Users { usage, object } => match usage {
                Use::Changes => explain_changers(alloc, sheet, reach, object),
                Use::Reads => explain_readers(alloc, sheet, reach, object),
            },
            OfSystem::Flows { from, to } => explain_flows(alloc, sheet, reach, from, to),
            _ => Ok(String::new(alloc)),
        }
    }

    /// Returns where the edges of a reason come from. Without a reason, notes on devices follow.
    fn why_told(
        &self,
        sheet: Sheet<'_>,
        reach: &Reach<'_>,
        actor: &str,
        object: &str,
    ) -> Result<String, Refusal> {
        let mut lines = explain_why(self.rt.alloc(), sheet, reach, actor, object)?;
        if !self.invocation.manner.is_quiet {
            lines.push_str(&self.devices_told(sheet, reach, actor, object)?)?;
        }
        Ok(lines)
    }

    /// Returns the notes on regions with the label `object` that devices may write, if the label `actor` may not.
    fn devices_told(
        &self,
        sheet: Sheet<'_>,
        reach: &Reach<'_>,
        actor: &str,
        object: &str,
    ) -> Result<String, Refusal> {
        let alloc = self.rt.alloc();
        let table = sheet.table;
        if let (Some(made), Some(actor), Some(object)) = (
            sheet.made,
            table.label_named(actor),
            table.label_named(object),
        ) {
            if reach.extent(actor, object) == Extent::Nothing {
                let notes = notes_on_label(alloc, made.description, made.origins, table, object)?;
                return Ok(explain_left_out(alloc, sheet.file, &notes)?);
            }
        }
        Ok(String::new(alloc))
    }

    /// Tells what may be unintended in an accepted system, and whom each label may change.
    fn tell_accepted(&self, sheet: Sheet<'_>, policy: &Policy) {
        let alloc = self.rt.alloc();
        if let Ok(reach) = Reach::of(alloc, sheet.table) {
            if !self.invocation.manner.is_quiet {
                self.tell_lines(explain_notes(alloc, sheet, &reach));
                self.tell_lines(self.surplus_told(sheet.table, policy));
            }
            self.tell_lines(explain_changes(alloc, sheet.file, &reach));
        }
    }

    /// Returns a note on the edges of an accepted policy that aren't needed.
    fn surplus_told(&self, table: &Table, policy: &Policy) -> Result<String, Refusal> {
        let alloc = self.rt.alloc();
        let table_file = self.invocation.request.name_of(File::Table);
        let policy_file = self.invocation.request.name_of(File::Policy);
        explain_surplus(alloc, table_file, policy_file, self.rules(), table, policy)
    }

    /// Tells more of a system and a policy that have no fault.
    fn tell_of_policy(
        &self,
        leave: &(impl Threads + Sync),
        asked: OfPolicy<'_>,
        sheet: Sheet<'_>,
        policy: &Policy,
    ) {
        let alloc = self.rt.alloc();
        match asked {
            OfPolicy::Close(rules, OnClose::Policy | OnClose::Missing) => {
                self.tell_closing(leave, rules, sheet, policy);
            }
            OfPolicy::Why { actor, object, .. } => {
                self.tell_lines(explain_why_allowed(leave, alloc, sheet, policy, actor, object));
            }
            _ => {}
        }
    }

    /// Tells more of what has no fault.
    fn tell_more(&self, leave: &(impl Threads + Sync), files: Files<'_>, answer: &Answer) {
        match (self.invocation.request, files) {
            (Request::OfSystem(asked, _, _), Files::System(given)) => {
                if let Ok(system) = self.sourced(given) {
                    self.tell_of_system(leave, asked, system.sheet(), answer);
                }
            }
            (Request::OfPolicy(asked, _, _, _), Files::Policy(given, policy)) => {
                if let Ok(system) = self.sourced(given) {
                    self.tell_of_policy(leave, asked, system.sheet(), policy);
                }
            }
            (Request::OfPolicy(asked, _, _, _), Files::Draft(given, draft)) => {
                if let Ok(system) = self.sourced(given) {
                    self.tell_of_policy(leave, asked, system.sheet(), draft.policy());
                }
            }
            (Request::Check(..), Files::Policy(given, policy)) => {
                if let Ok(system) = self.sourced(given) {
                    self.tell_accepted(system.sheet(), policy);
                }
            }
            (_, Files::Script(table, _, events)) => {
                if let Some(made) = &answer.made {
                    self.tell_refusals(table, events, made);
                }
            }
            (_, Files::Claims(given, lines)) => {
                if !self.invocation.manner.is_quiet {
                    let _ = self.tell_held(given, lines);
                }
            }
            (_, Files::Compared(old, new)) => {
                let _ = self.tell_compared(old, new);
            }
            _ => {}
        }
    }

    /// Tells what the new system adds to the old one.
    fn tell_compared(&self, old: &Given, new: &Given) -> Result<(), Refusal> {
        let alloc = self.rt.alloc();
        let request = self.invocation.request;
        let system = Sourced::of(alloc, &request, request.name_of(File::New), new)?;
        let before = Reach::of(alloc, old.table())?;
        self.tell_added(&before, system.sheet())
    }

    /// Tells by which edges a system adds to an earlier one, and runs that show it.
    fn tell_added(&self, before: &Reach<'_>, sheet: Sheet<'_>) -> Result<(), Refusal> {
        let alloc = self.rt.alloc();
        let reach = Reach::of(alloc, sheet.table)?;
        let found = changes(alloc, before, &reach)?;
        self.tell_lines(explain_differences(alloc, before, sheet, &reach, &found));
        self.tell_shown(before, sheet, &reach, &found);
        Ok(())
    }

    /// Tells runs that show changes, each as it is found, while there is time.
    fn tell_shown(
        &self,
        before: &Reach<'_>,
        sheet: Sheet<'_>,
        reach: &Reach<'_>,
        found: &[Change],
    ) {
        let alloc = self.rt.alloc();
        let begun = Instant::now(self.rt);
        let mut searched: usize = 0;
        for change in found {
            if may_be_shown(change) && searched < SEARCHES && !self.is_late(&begun) {
                self.tell_lines(explain_difference(alloc, before, sheet, reach, change));
                searched = searched.saturating_add(1);
            }
        }
    }
}

impl<R: AllocGlobal + Clock + Eprint + Threads + Sync> Listener for Explainer<'_, R> {
    fn hear_fault(&mut self, file: File, text: &[u8], table: Option<&Table>, fault: Fault) {
        if self.tells_findings() {
            self.tell(self.fault_told(file, text, table, fault));
        }
    }

    fn hear_answer(&mut self, files: Files<'_>, answer: &Answer) {
        self.warn();
        match files {
            Files::Description(described) => self.tell_left_out(described),
            Files::Draft(given, draft) => self.tell_dropped(given.table(), draft),
            _ => {}
        }
        let leave = Leave::<R> { of: PhantomData };
        match &answer.finding {
            Some(finding) => self.tell_finding(&leave, files, finding),
            None if self.invocation.manner.explains => {
                self.tell_more(&leave, files, answer);
                if let Some((file, described)) = described_of(files) {
                    self.tell_how_much_is_left_out(file, described);
                }
            }
            None => {}
        }
    }

    fn hear_unlabelled(&mut self, table: &Table, asked: Asked) {
        if self.tells() {
            let request = self.invocation.request;
            let (file, word) = (request.name_of(File::Table), request.word_of(asked));
            self.tell(explain_unlabelled(self.rt.alloc(), file, table, word));
        }
    }
}

/// A handle that may start threads because the runtime may. It holds nothing, so threads can share it whatever the
/// runtime is: a method of a [`Listener`] can't require that the runtime can be shared.
#[derive(Clone, Copy)]
struct Leave<R> {
    of: PhantomData<R>,
}

impl<R: Threads> Threads for Leave<R> {}

/// The reason why a file can't be read, as the system reports it.
#[derive(Clone, Copy)]
struct Unread(ErrorKind);

impl fmt::Display for Unread {
    fn fmt<W: fmt::Write>(&self, f: &mut fmt::Formatter<W>) -> fmt::Result {
        let words = match self.0 {
            ErrorKind::NotFound => "there is no such file",
            ErrorKind::PermissionDenied => "permission is denied",
            ErrorKind::IsADirectory => "it is a folder",
            ErrorKind::NotADirectory => "the part before a `/` isn't a folder",
            ErrorKind::FileTooLarge => "it has more than 1 GiB",
            ErrorKind::InvalidFilename => "the name is too long for a file",
            kind => return write!(f, "{kind}"),
        };
        f.write_str(words)
    }
}

/// Whether the sharp rules accept a policy. It counts as not accepted if memory is refused to the test.
fn is_sharp(
    leave: &(impl Threads + Sync),
    alloc: Global,
    sheet: Sheet<'_>,
    policy: &Policy,
) -> bool {
    let answer = judge_by(leave, alloc, sheet.table, policy, Rules::Sharp, 1, &Open);
    matches!(&answer, Ok(Ok(())))
}

/// The description that a question is about, if any, and its file. Of two systems it is the new
/// one's.
fn described_of(files: Files<'_>) -> Option<(File, &Described)> {
    let (file, given) = match files {
        Files::System(given)
        | Files::Policy(given, _)
        | Files::Draft(given, _)
        | Files::Claims(given, _) => (File::Description, given),
        Files::Compared(_, new) => (File::New, new),
        _ => return None,
    };
    match given {
        Given::Description(described) => Some((file, described)),
        Given::Table(_) => None,
    }
}

/// The number of notes on what a table doesn't show, and how many of them are on regions that devices may write.
#[derive(Clone, Copy)]
struct Counted {
    notes: usize,
    on_memory: usize,
}

impl fmt::Display for Counted {
    fn fmt<W: fmt::Write>(&self, f: &mut fmt::Formatter<W>) -> fmt::Result {
        match self.notes {
            1 => f.write_str("1 note on what the table doesn't show")?,
            notes => write!(f, "{notes} notes on what the table doesn't show")?,
        }
        match self.on_memory {
            0 => Ok(()),
            regions => write!(f, ", {regions} on DMA"),
        }
    }
}

/// The object that an event names as the caller, by the table.
fn caller_of<'a>(table: &'a Table, event: &Event) -> Caller<'a> {
    Caller {
        id: event.thread,
        name: object_name(table, event.thread),
        kind: table.kind(event.thread),
    }
}
