//! The forms of the lines of files.
use crate::file::File;
use crate::lines::{has_word, part, word};

/// Returns the form by whose word a line of the file is known, if there is one.
pub fn form_of(file: File, line: &str) -> Option<Form> {
    let word = word(line, file.words_before())?;
    for form in &Form::ALL {
        if file.has(*form) && form.word() == word {
            return Some(*form);
        }
    }
    None
}

/// Returns the call of this word, if there is one.
pub fn call_named(word: &str) -> Option<Form> {
    for form in &Form::ALL {
        if form.file() == File::Script && form.word() == word {
            return Some(*form);
        }
    }
    None
}

/// A form of the lines of a file.
#[derive(Clone, Copy, PartialEq, Eq)]
pub enum Form {
    Label,
    Untyped,
    CNode,
    Tcb,
    Endpoint,
    Notification,
    Reply,
    Frame,
    Context,
    Control,
    Cap,
    Child,
    Bind,
    Edge,
    CertifiedCap,
    CertifiedSpace,
    CertifiedDerive,
    CertifiedRuns,
    Signal,
    Poll,
    Wait,
    Send,
    Call,
    Receive,
    Answer,
    Fetch,
    Copy,
    Mint,
    Move,
    Delete,
    Revoke,
    Retype,
    Read,
    Write,
    SetSpace,
    ClearSpace,
    Suspend,
    Resume,
    Configure,
    BindContext,
    Unbind,
    ClaimNothing,
    ClaimTake,
    ClaimOnly,
    ClaimWithin,
    ClaimReaders,
    ClaimApart,
    ClaimThrough,
    ClaimWithout,
}

impl Form {
    /// All forms, those of a file in the order in which its lines may come.
    pub const ALL: [Form; 49] = [
        Form::Label,
        Form::Untyped,
        Form::CNode,
        Form::Tcb,
        Form::Endpoint,
        Form::Notification,
        Form::Reply,
        Form::Frame,
        Form::Context,
        Form::Control,
        Form::Cap,
        Form::Child,
        Form::Bind,
        Form::Edge,
        Form::CertifiedCap,
        Form::CertifiedSpace,
        Form::CertifiedDerive,
        Form::CertifiedRuns,
        Form::Signal,
        Form::Poll,
        Form::Wait,
        Form::Send,
        Form::Call,
        Form::Receive,
        Form::Answer,
        Form::Fetch,
        Form::Copy,
        Form::Mint,
        Form::Move,
        Form::Delete,
        Form::Revoke,
        Form::Retype,
        Form::Read,
        Form::Write,
        Form::SetSpace,
        Form::ClearSpace,
        Form::Suspend,
        Form::Resume,
        Form::Configure,
        Form::BindContext,
        Form::Unbind,
        Form::ClaimNothing,
        Form::ClaimTake,
        Form::ClaimOnly,
        Form::ClaimWithin,
        Form::ClaimReaders,
        Form::ClaimApart,
        Form::ClaimThrough,
        Form::ClaimWithout,
    ];

    /// Returns the file that has such lines.
    pub fn file(self) -> File {
        match self {
            Form::Edge => File::Policy,
            Form::ClaimNothing
            | Form::ClaimTake
            | Form::ClaimOnly
            | Form::ClaimWithin
            | Form::ClaimReaders
            | Form::ClaimApart
            | Form::ClaimThrough
            | Form::ClaimWithout => File::Claims,
            Form::CertifiedCap
            | Form::CertifiedSpace
            | Form::CertifiedDerive
            | Form::CertifiedRuns => File::Certificate,
            Form::Signal
            | Form::Poll
            | Form::Wait
            | Form::Send
            | Form::Call
            | Form::Receive
            | Form::Answer
            | Form::Fetch
            | Form::Copy
            | Form::Mint
            | Form::Move
            | Form::Delete
            | Form::Revoke
            | Form::Retype
            | Form::Read
            | Form::Write
            | Form::SetSpace
            | Form::ClearSpace
            | Form::Suspend
            | Form::Resume
            | Form::Configure
            | Form::BindContext
            | Form::Unbind => File::Script,
            _ => File::Table,
        }
    }

    /// Returns the word by which the form is known: the first word of a line, but the third of a script's line.
    pub fn word(self) -> &'static str {
        match self {
            Form::Label => "label",
            Form::Untyped => "untyped",
            Form::CNode => "cnode",
            Form::Tcb => "tcb",
            Form::Endpoint => "endpoint",
            Form::Notification => "notification",
            Form::Reply => "reply",
            Form::Frame => "frame",
            Form::Context => "context",
            Form::Control => "control",
            Form::Cap | Form::CertifiedCap => "cap",
            Form::Child => "child",
            Form::Bind | Form::BindContext => "bind",
            Form::Edge => "edge",
            Form::CertifiedSpace => "space",
            Form::CertifiedDerive => "derive",
            Form::CertifiedRuns => "runs",
            Form::Signal => "signal",
            Form::Poll => "poll",
            Form::Wait => "wait",
            Form::Send => "send",
            Form::Call => "call",
            Form::Receive => "recv",
            Form::Answer => "reply",
            Form::Fetch => "fetch",
            Form::Copy => "copy",
            Form::Mint => "mint",
            Form::Move => "move",
            Form::Delete => "delete",
            Form::Revoke => "revoke",
            Form::Retype => "retype",
            Form::Read => "read",
            Form::Write => "write",
            Form::SetSpace => "setspace",
            Form::ClearSpace => "clearspace",
            Form::Suspend => "suspend",
            Form::Resume => "resume",
            Form::Configure => "configure",
            Form::Unbind => "unbind",
            Form::ClaimNothing => "none",
            Form::ClaimTake => "take",
            Form::ClaimOnly => "only",
            Form::ClaimWithin => "within",
            Form::ClaimReaders => "readers",
            Form::ClaimApart => "apart",
            Form::ClaimThrough => "through",
            Form::ClaimWithout => "without",
        }
    }

    /// Returns the words of such a line, in backquotes.
    pub fn words(self) -> &'static str {
        match self {
            Form::Label => "`label NAME`",
            Form::Untyped => "`untyped NAME LABEL HEX DEC`",
            Form::CNode => "`cnode NAME LABEL HEX DEC`",
            Form::Tcb => "`tcb NAME LABEL HEX ready` or `.. inactive`",
            Form::Endpoint => "`endpoint NAME LABEL HEX`",
            Form::Notification => "`notification NAME LABEL HEX`",
            Form::Reply => "`reply NAME LABEL HEX`",
            Form::Frame => "`frame NAME LABEL HEX`",
            Form::Context => "`context NAME LABEL HEX DEC DEC DEC` or `context NAME LABEL HEX -`",
            Form::Control => "`control NAME LABEL DEC`",
            Form::Cap => "`cap SLOT NAME` and at most two words, each RIGHTS, DEC or HEX",
            Form::Child => "`child SLOT SLOT`",
            Form::Bind => "`bind NAME NAME`",
            Form::Edge => "`edge LABEL KIND LABEL`",
            Form::CertifiedCap => "`cap SLOT LABEL KINDS LABEL`",
            Form::CertifiedSpace => "`space SLOT LABEL LABEL`",
            Form::CertifiedDerive => "`derive SLOT SLOT LABEL LABEL`",
            Form::CertifiedRuns => "`runs NAME NAME LABEL LABEL`",
            Form::Signal => "`DEC DEC signal DEC`",
            Form::Poll => "`DEC DEC poll DEC`",
            Form::Wait => "`DEC DEC wait DEC`",
            Form::Send => "`DEC DEC send DEC DEC DEC DEC DEC`, then DEC or `-`",
            Form::Call => "`DEC DEC call DEC DEC DEC DEC DEC`, then DEC or `-`",
            Form::Receive => {
                "`DEC DEC recv DEC`, then DEC or `-`, and then `DEC DEC DEC` or `-`"
            }
            Form::Answer => "`DEC DEC reply DEC DEC DEC DEC DEC`",
            Form::Fetch => "`DEC DEC fetch`",
            Form::Copy => "`DEC DEC copy DEC DEC DEC DEC DEC DEC RIGHTS`",
            Form::Mint => {
                "`DEC DEC mint DEC DEC DEC DEC DEC DEC RIGHTS` and `badge DEC` or `guard DEC DEC`"
            }
            Form::Move => "`DEC DEC move DEC DEC DEC DEC DEC DEC`",
            Form::Delete => "`DEC DEC delete DEC DEC DEC`",
            Form::Revoke => "`DEC DEC revoke DEC DEC DEC`",
            Form::Retype => "`DEC DEC retype DEC KIND DEC DEC DEC DEC`",
            Form::Read => "`DEC DEC read DEC DEC`",
            Form::Write => "`DEC DEC write DEC DEC DEC`",
            Form::SetSpace => "`DEC DEC setspace DEC DEC`",
            Form::ClearSpace => "`DEC DEC clearspace DEC`",
            Form::Suspend => "`DEC DEC suspend DEC`",
            Form::Resume => "`DEC DEC resume DEC`",
            Form::Configure => "`DEC DEC configure DEC DEC DEC DEC`",
            Form::BindContext => "`DEC DEC bind DEC DEC`",
            Form::Unbind => "`DEC DEC unbind DEC`",
            Form::ClaimNothing => "`none LABEL LABEL`, with `*` for at most one LABEL",
            Form::ClaimTake => "`take LABEL LABEL`, with `*` for at most one LABEL",
            Form::ClaimOnly => "`only LABEL LABEL ..`",
            Form::ClaimWithin => "`within LABEL LABEL ..`",
            Form::ClaimReaders => "`readers LABEL ..`",
            Form::ClaimApart => "`apart LABEL LABEL`",
            Form::ClaimThrough => "`through LABEL LABEL ..`",
            Form::ClaimWithout => "`without LABEL KIND LABEL`, with `*` for at most one LABEL",
        }
    }

    /// Returns the section of its file that such lines are in.
    ///
    /// Sections come one after another.
    pub fn section(self) -> u8 {
        match self {
            Form::Cap => 2,
            Form::Child => 3,
            Form::Bind => 4,
            Form::Untyped
            | Form::CNode
            | Form::Tcb
            | Form::Endpoint
            | Form::Notification
            | Form::Reply
            | Form::Frame
            | Form::Context
            | Form::Control => 1,
            _ => 0,
        }
    }

    /// Returns the words that such a line must have, as [`Wanted::of`](crate::wanted::Wanted::of) reads them.
    pub fn pattern(self, line: &str) -> &'static str {
        match self {
            Form::Tcb => "tcb NAME LABEL HEX START",
            Form::Context if has_word(line, 4, "-") => "context NAME LABEL HEX -",
            Form::Context => "context NAME LABEL HEX DEC DEC DEC",
            Form::Cap => match (word(line, 3), word(line, 4)) {
                (None, _) => "cap SLOT NAME",
                (Some(_), None) => "cap SLOT NAME TERM",
                _ => "cap SLOT NAME TERM TERM",
            },
            Form::Send => "DEC DEC send DEC DEC DEC DEC DEC OPTIONAL",
            Form::Call => "DEC DEC call DEC DEC DEC DEC DEC OPTIONAL",
            Form::Receive if has_word(line, 5, "-") => "DEC DEC recv DEC OPTIONAL -",
            Form::Receive => "DEC DEC recv DEC OPTIONAL DEC DEC DEC",
            Form::Mint if has_word(line, 10, "guard") => {
                "DEC DEC mint DEC DEC DEC DEC DEC DEC RIGHTS MINTING DEC DEC"
            }
            Form::Mint => "DEC DEC mint DEC DEC DEC DEC DEC DEC RIGHTS MINTING DEC",
            Form::Retype => "DEC DEC retype DEC MATERIAL DEC DEC DEC DEC",
            Form::ClaimNothing => "none END END",
            Form::ClaimTake => "take END END",
            Form::ClaimWithout => "without END KIND END",
            form => match part(form.words(), '`', 1) {
                Some(pattern) => pattern,
                None => "",
            },
        }
    }
}
