//! The request that the words of a command line make.
ghost use Rattle.std.specs.Prelude.{◌≡◌, ◌≢◌, ◌≤◌, IfNone, IfSome};
ghost use Rattle.requests.specs.Requests.{HasFewWorkers, OnInTurn};
ghost use Rattle.requests.specs.Meaning.{closing_of, command_line_of, diff_of, drawing_of, flows_of, form_of, format_beside, format_for, format_of};
ghost use Rattle.requests.specs.Meaning.{imported_of, in_turn, manner_of, minting_of, number_in, of_policy, of_system, of_three};
ghost use Rattle.requests.specs.Meaning.{on_accept_of, on_close_of, on_import_of, picture_of, rights_of, rules_of, search_of};
ghost use Rattle.requests.specs.Meaning.{seconds_of, set_of, split_of, taken_of, taken_of_two, usage_of, users_of, verb_name, why_of, why_one};

use crate::request::{Check, CommandLine, Format, Invocation, Manner, OfThree, Request, SplitRun};
use commands::{
    Form, Imported, Minting, OfPolicy, OfSystem, OnAccept, OnClose, OnImport, Picture, Rules,
    Search, Taken, Use,
};
use words::decimal_of;

/// A command of the program.
#[derive(Clone, Copy)]
pub enum Verb {
    Import,
    Check,
    Verify,
    Run,
    Replay,
    Close,
    Why,
    Show,
    Draw,
    Summary,
    Flows,
    Diff,
    Claims,
    List,
}

impl Verb {
    /// Returns the command of this name, if there is one.
    pub fn from_name(name: &str) -> Option<Verb>
        ensures found { IfSome result (λ verb. name.now ≡ verb_name verb) }
        ensures none { IfNone result ((verb : Verb) → name.now ≢ verb_name verb) }
    {
        match name {
            "import" => Some(Verb::Import),
            "check" => Some(Verb::Check),
            "verify" => Some(Verb::Verify),
            "run" => Some(Verb::Run),
            "replay" => Some(Verb::Replay),
            "close" => Some(Verb::Close),
            "why" => Some(Verb::Why),
            "show" => Some(Verb::Show),
            "draw" => Some(Verb::Draw),
            "summary" => Some(Verb::Summary),
            "flows" => Some(Verb::Flows),
            "diff" => Some(Verb::Diff),
            "claims" => Some(Verb::Claims),
            "list" => Some(Verb::List),
            _ => None,
        }
    }

    /// Returns the format of the command's reports by this word, if the word is one for it.
    pub fn format(self, word: &str) -> Option<Format>
        ensures { result ≡ format_for self word.now }
    {
        match self {
            Verb::Why | Verb::Summary | Verb::Diff => Format::beside(word),
            _ => Format::from_name(word),
        }
    }
}

/// The words and options of a command line, each by the id that the program's command has for it.
#[derive(Clone, Copy)]
pub struct Words<'a> {
    pub verb: Verb,
    /// The first file: a description, a system or a table.
    pub system: Option<&'a str>,
    /// The second system of a comparison.
    pub newer: Option<&'a str>,
    pub policy: Option<&'a str>,
    pub certificate: Option<&'a str>,
    pub script: Option<&'a str>,
    pub log: Option<&'a str>,
    pub claims: Option<&'a str>,
    pub actor: Option<&'a str>,
    pub object: Option<&'a str>,
    pub workers: Option<&'a str>,
    pub steps: Option<&'a str>,
    pub seconds: Option<&'a str>,
    pub rights: Option<&'a str>,
    pub rules: Option<&'a str>,
    pub format: Option<&'a str>,
    pub explain: bool,
    pub quiet: bool,
    pub cert: bool,
    pub missing: bool,
    pub surplus: bool,
    pub split: bool,
    pub all: bool,
    pub take: bool,
    pub reads: bool,
    pub as_claims: bool,
}

impl<'a> Words<'a> {
    /// Returns the command line that the words make, or `None` if a word is missing, or isn't a
    /// number within the limits of its option, or one of the option's words.
    pub fn line(self) -> Option<CommandLine<'a>>
        ensures meaning { result ≡ command_line_of self.entry }
        ensures limits { IfSome result (λ line. OnInTurn line HasFewWorkers) }
    {
        match self.verb {
            Verb::Import => self.in_turn(Request::OfDescription(self.on_import()?, self.system?)),
            Verb::Check => {
                let rules = self.rules()?;
                let workers = number_in(1, 16, self.workers?)? as usize;
                let on_accept = self.on_accept();
                let check = Check {
                    rules,
                    workers,
                    on_accept,
                };
                self.in_turn(Request::Check(check, self.system?, self.policy?))
            }
            Verb::Verify => self.of_three(OfThree::Verify(self.rules()?), self.certificate),
            Verb::Run if self.split => self.split_run(),
            Verb::Run => self.of_three(OfThree::Run(self.rules()?), self.script),
            Verb::Replay => self.of_three(OfThree::Replay, self.log),
            Verb::Close => self.close(self.rules()?),
            Verb::Why => self.why(self.form()?, self.actor?, self.object?),
            Verb::Show => {
                let search = self.search()?;
                let (actor, object) = (self.actor?, self.object?);
                self.of_system(OfSystem::Show {
                    search,
                    actor,
                    object,
                })
            }
            Verb::Draw => self.draw(),
            Verb::Summary => self.of_system(OfSystem::Summary(self.form()?)),
            Verb::Flows => self.flows(),
            Verb::Diff => self.diff(),
            Verb::Claims if self.all => self.of_system(OfSystem::Strongest),
            Verb::Claims => self.in_turn(Request::OfClaims(
                self.taken()?,
                self.system?,
                self.claims?,
            )),
            Verb::List => self.of_system(OfSystem::List),
        }
    }

    // A request that waits for nothing.
    fn in_turn(self, request: Request<'a, &'a str>) -> Option<CommandLine<'a>>
        ensures meaning { result ≡ in_turn self.entry request.entry }
        ensures limits { HasFewWorkers request.entry → IfSome result (λ line. OnInTurn line HasFewWorkers) }
    {
        Some(CommandLine::InTurn(Invocation {
            request,
            manner: self.manner()?,
        }))
    }

    // The manner in which the command reports its findings.
    fn manner(self) -> Option<Manner>
        ensures { result ≡ manner_of self.entry }
    {
        Some(Manner {
            explains: self.explain,
            is_quiet: self.quiet,
            format: self.verb.format(self.format?)?,
            seconds: self.seconds()?,
        })
    }

    // The number of seconds for which runs are searched that explain findings.
    fn seconds(self) -> Option<u64>
        ensures { result ≡ seconds_of self.entry }
    {
        match self.seconds {
            Some(word) => number_in(0, 86_400, word),
            None => Some(10),
        }
    }

    // The form of the answer.
    fn form(self) -> Option<Form>
        ensures { result ≡ form_of self.entry }
    {
        if self.format? == "json" {
            Some(Form::Json)
        } else {
            Some(Form::Text)
        }
    }

    // A policy is closed, if there is one; else a policy is made for the table.
    fn close(self, rules: Rules) -> Option<CommandLine<'a>>
        ensures meaning { result ≡ closing_of self.entry rules }
        ensures limits { IfSome result (λ line. OnInTurn line HasFewWorkers) }
    {
        match self.policy {
            Some(_) => self.of_policy(OfPolicy::Close(rules, self.on_close())),
            None => self.of_system(OfSystem::Start(rules, self.on_close())),
        }
    }

    // The authority of a label over another, or of all labels over it.
    fn why(self, form: Form, actor: &'a str, object: &'a str) -> Option<CommandLine<'a>>
        ensures meaning { result ≡ why_of self.entry form actor.entry object.entry }
        ensures limits { IfSome result (λ line. OnInTurn line HasFewWorkers) }
    {
        if actor == "*" {
            self.users(form, object)
        } else if self.reads {
            None
        } else {
            self.why_one(form, actor, object)
        }
    }

    // The labels that use another, in runs of the table.
    fn users(self, form: Form, object: &'a str) -> Option<CommandLine<'a>>
        ensures meaning { result ≡ users_of self.entry form object.entry }
        ensures limits { IfSome result (λ line. OnInTurn line HasFewWorkers) }
    {
        match (form, self.policy) {
            (Form::Text, None) => {
                let usage = self.usage();
                self.of_system(OfSystem::Users { usage, object })
            }
            _ => None,
        }
    }

    // The users that `why` lists.
    fn usage(self) -> Use
        ensures { result ≡ usage_of self.entry }
    {
        if self.reads { Use::Reads } else { Use::Changes }
    }

    // The authority of a label over another: by a policy if there is one, else in runs of the table.
    fn why_one(self, form: Form, actor: &'a str, object: &'a str) -> Option<CommandLine<'a>>
        ensures meaning { result ≡ why_one self.entry form actor.entry object.entry }
        ensures limits { IfSome result (λ line. OnInTurn line HasFewWorkers) }
    {
        match self.policy {
            Some(_) => self.of_policy(OfPolicy::Why {
                form,
                actor,
                object,
            }),
            None => self.of_system(OfSystem::Why {
                form,
                actor,
                object,
            }),
        }
    }

    // The drawing of a table or of a policy.
    fn draw(self) -> Option<CommandLine<'a>>
        ensures meaning { result ≡ drawing_of self.entry }
        ensures limits { IfSome result (λ line. OnInTurn line HasFewWorkers) }
    {
        match self.policy {
            Some(_) => self.of_policy(OfPolicy::Draw(self.picture())),
            None => self.of_system(OfSystem::Draw(self.picture())),
        }
    }

    // The flows from one label to another, or between all programs.
    fn flows(self) -> Option<CommandLine<'a>>
        ensures meaning { result ≡ flows_of self.entry }
        ensures limits { IfSome result (λ line. OnInTurn line HasFewWorkers) }
    {
        match (self.actor, self.object) {
            (Some(from), Some(to)) => self.of_system(OfSystem::Flows { from, to }),
            (None, None) => self.of_system(OfSystem::AllFlows),
            _ => None,
        }
    }

    // The changes from one system to another.
    fn diff(self) -> Option<CommandLine<'a>>
        ensures meaning { result ≡ diff_of self.entry }
        ensures limits { IfSome result (λ line. OnInTurn line HasFewWorkers) }
    {
        self.in_turn(Request::OfTwo(
            self.form()?,
            self.taken_of_two()?,
            self.system?,
            self.newer?,
        ))
    }

    // A command on a system alone.
    fn of_system(self, asked: OfSystem<'a>) -> Option<CommandLine<'a>>
        ensures meaning { result ≡ of_system self.entry asked.entry }
        ensures limits { IfSome result (λ line. OnInTurn line HasFewWorkers) }
    {
        self.in_turn(Request::OfSystem(asked, self.taken()?, self.system?))
    }

    // A command on a system and a policy.
    fn of_policy(self, asked: OfPolicy<'a>) -> Option<CommandLine<'a>>
        ensures meaning { result ≡ of_policy self.entry asked.entry }
        ensures limits { IfSome result (λ line. OnInTurn line HasFewWorkers) }
    {
        self.in_turn(Request::OfPolicy(asked, self.taken()?, self.system?, self.policy?))
    }

    // A command on a table, a policy and a third file.
    fn of_three(self, asked: OfThree, third: Option<&'a str>) -> Option<CommandLine<'a>>
        ensures meaning { result ≡ of_three self.entry asked third.entry }
        ensures limits { IfSome result (λ line. OnInTurn line HasFewWorkers) }
    {
        self.in_turn(Request::OfThree(asked, self.system?, self.policy?, third?))
    }

    // The form in which a system is given.
    fn taken(self) -> Option<Taken>
        ensures { result ≡ taken_of self.entry }
    {
        match self.rights {
            Some(word) => Some(Taken::System(Some(minting(word)?))),
            None => Some(Taken::System(None)),
        }
    }

    // The form in which one of two systems is given.
    fn taken_of_two(self) -> Option<Taken>
        ensures { result ≡ taken_of_two self.entry }
    {
        match self.rights {
            Some(word) => Some(Taken::Either(Some(minting(word)?))),
            None => Some(Taken::Either(None)),
        }
    }

    // A run by workers.
    fn split_run(self) -> Option<CommandLine<'a>>
        ensures meaning { result ≡ split_of self.entry }
        ensures limits { IfSome result (λ line. OnInTurn line HasFewWorkers) }
    {
        Some(CommandLine::Split(SplitRun {
            table: self.system?,
            policy: self.policy?,
            script: self.script?,
            manner: self.manner()?,
        }))
    }

    // The text that `check` writes.
    fn on_accept(self) -> OnAccept
        ensures { result ≡ on_accept_of self.entry }
    {
        if self.cert {
            OnAccept::Certificate
        } else {
            OnAccept::Report
        }
    }

    // The rules by which a policy is judged.
    fn rules(self) -> Option<Rules>
        ensures { result ≡ set_of self.entry }
    {
        rules(self.rules?)
    }

    // The text that `close` writes.
    fn on_close(self) -> OnClose
        ensures { result ≡ on_close_of self.entry }
    {
        if self.missing {
            OnClose::Missing
        } else if self.surplus {
            OnClose::Surplus
        } else {
            OnClose::Policy
        }
    }

    // The labels that `draw` draws.
    fn picture(self) -> Picture
        ensures { result ≡ picture_of self.entry }
    {
        if self.all {
            Picture::Labels
        } else {
            Picture::Programs
        }
    }

    // The run that `show` looks for, and with how many calls.
    fn search(self) -> Option<Search>
        ensures { result ≡ search_of self.entry }
    {
        Some(Search {
            takes: self.take,
            steps: number_in(1, 1_000_000, self.steps?)?,
        })
    }

    // The rights with which `import` reads a description, and the text that it writes.
    fn on_import(self) -> Option<OnImport>
        ensures { result ≡ on_import_of self.entry }
    {
        Some(OnImport {
            minting: minting(self.rights?)?,
            writes: self.imported(),
        })
    }

    // The text that `import` writes.
    fn imported(self) -> Imported
        ensures { result ≡ imported_of self.entry }
    {
        if self.as_claims {
            Imported::Claims
        } else {
            Imported::Table
        }
    }
}

impl Format {
    /// Returns the format of this name, if there is one.
    fn from_name(name: &str) -> Option<Format>
        ensures { result ≡ format_of name.now }
    {
        if name == "json" {
            Some(Format::Json)
        } else if name == "short" {
            Some(Format::Short)
        } else {
            None
        }
    }

    // The format of reports by this word, for a command whose answer has two forms.
    fn beside(word: &str) -> Option<Format>
        ensures { result ≡ format_beside word.now }
    {
        if word == "text" {
            Some(Format::Json)
        } else {
            Format::from_name(word)
        }
    }
}

// The rules of this name.
fn rules(word: &str) -> Option<Rules>
    ensures { result ≡ rules_of word.now }
{
    if word == "closed" {
        Some(Rules::Closed)
    } else if word == "sharp" {
        Some(Rules::Sharp)
    } else {
        None
    }
}

// The rights that capabilities get by this word.
fn minting(word: &str) -> Option<Minting>
    ensures { result ≡ minting_of word.now }
{
    if word == "least" {
        Some(Minting::Least)
    } else if word == "all" {
        Some(Minting::All)
    } else {
        None
    }
}

// The number within these limits that a word spells in decimal.
fn number_in(least: u64, most: u64, word: &str) -> Option<u64>
    ensures meaning { result ≡ number_in least most word.now }
    ensures limits { IfSome result (λ number. (least ≤ number) × (number ≤ most)) }
{
    let number = decimal_of(word.as_bytes())?;
    if least <= number && number <= most {
        Some(number)
    } else {
        None
    }
}
