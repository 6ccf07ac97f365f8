//! Words on the layout of a line, and on an outcome.
use crate::file::File;
use crate::form::Form;
use crate::layout::{LayoutFlaw, OfLayout};
use crate::nearest::{LISTED, write_more};
use crate::outcomes::OutcomeFlaw;
use crate::wanted::WordFlaw;
use std::fmt::{self, Display};

impl fmt::Display for OfLayout<'_> {
    fn fmt<W: fmt::Write>(&self, f: &mut fmt::Formatter<W>) -> fmt::Result {
        match self.flaw {
            LayoutFlaw::HeaderOf(other) => tell_header(f, other, self.file),
            LayoutFlaw::OldClaims if self.file == File::Claims => f.write_str(OLD_CLAIMS),
            LayoutFlaw::OldClaims => tell_header(f, File::Claims, self.file),
            LayoutFlaw::NoHeader => tell_headers(f, self.file),
            LayoutFlaw::Empty => {
                f.write_str("the file is empty: ")?;
                tell_headers(f, self.file)
            }
            LayoutFlaw::Capitals(word) => write!(f, "`{word}` must be in small letters"),
            LayoutFlaw::Misplaced(call) => tell_place(f, call),
            LayoutFlaw::UnknownCall(word) => tell_calls(f, word),
            LayoutFlaw::Unknown(word, before) => tell_lines(f, self.file, word, before),
            LayoutFlaw::NearCall(word, near) => {
                write!(f, "`{word}` isn't a call: did you mean `{near}`?")
            }
            LayoutFlaw::NearLine(word, near) => tell_near_line(f, self.file, word, near),
            LayoutFlaw::Below(form, above) => tell_order(f, form, above),
            flaw => f.write_str(plain(flaw)),
        }
    }
}

/// What is said of the header of claims of version 1.
const OLD_CLAIMS: &str =
    "claims of version 1 aren't read any more: write `confine-claims 2` here. The other lines can stay as they are";

/// What is said of a line of a script that has no third word.
const EVENT: &str =
    "an event is the numbers of a core and a thread, and then a call, as in `0 1 fetch`";

/// What is said of a line of a log that has no event or no outcome.
const ENTRY: &str = "an entry is an event, ` = ` and an outcome, as in `0 1 poll 0 = done word 4`";

// Where a call must stand.
fn tell_place<W: fmt::Write>(f: &mut fmt::Formatter<W>, call: Form) -> fmt::Result {
    let word = call.word();
    let operands = match call {
        Form::Fetch => "",
        _ => " ..",
    };
    write!(
        f,
        "`{word}` must be the third word, after the numbers of a core and a thread, as in `0 1 {word}{operands}`"
    )
}

// That a line is the header of another text.
fn tell_header<W: fmt::Write>(f: &mut fmt::Formatter<W>, is: File, wanted: File) -> fmt::Result {
    let (name, wanted) = (is.name(), wanted.name());
    write!(f, "this is the header of a {name}, not of a {wanted}")
}

// Which headers a text may have.
fn tell_headers<W: fmt::Write>(f: &mut fmt::Formatter<W>, file: File) -> fmt::Result {
    let (name, header) = (file.name(), file.header());
    write!(f, "a {name} begins with `{header}`")?;
    match file.later_header() {
        Some(later) => write!(f, " or `{later}`"),
        None => Ok(()),
    }
}

// Which calls there are, in place of a word.
fn tell_calls<W: fmt::Write>(f: &mut fmt::Formatter<W>, word: &str) -> fmt::Result {
    write!(f, "`{word}` isn't a call: the calls are ")?;
    let mut count = 0usize;
    let mut between = "";
    for form in &Form::ALL {
        if form.file() == File::Script {
            if count < LISTED {
                f.write_str(between)?;
                f.write_str(form.word())?;
                between = ", ";
            }
            count = count.saturating_add(1);
        }
    }
    write_more(f, count)
}

// Which line is meant, in place of one that begins with a word.
fn tell_near_line<W: fmt::Write>(
    f: &mut fmt::Formatter<W>,
    file: File,
    word: &str,
    near: &str,
) -> fmt::Result {
    let name = file.name();
    write!(
        f,
        "no line of a {name} begins with `{word}`: did you mean `{near}`?"
    )
}

// Which lines may stand there, in place of one that begins with a word.
fn tell_lines<W: fmt::Write>(
    f: &mut fmt::Formatter<W>,
    file: File,
    word: &str,
    before: Option<Form>,
) -> fmt::Result {
    let name = file.name();
    write!(f, "no line of a {name} begins with `{word}`: expected `")?;
    let section = match before {
        Some(form) => form.section(),
        None => 0,
    };
    words_of(f, file, section, "`, `")?;
    f.write_str("` or `end`")
}

// That lines of a form don't stand below those of another.
fn tell_order<W: fmt::Write>(f: &mut fmt::Formatter<W>, form: Form, above: Form) -> fmt::Result {
    let (word, above) = (form.word(), above.word());
    write!(f, "`{word}` lines must come before all `{above}` lines")
}

// What is wrong with a line, where nothing of it is named.
fn plain(flaw: LayoutFlaw<'_>) -> &'static str {
    match flaw {
        LayoutFlaw::Mark => "the file begins with a byte-order mark: save it as UTF-8 without one",
        LayoutFlaw::WideMark =>
            "the file begins with a byte-order mark of UTF-16: save it as UTF-8 without one",
        LayoutFlaw::NoCall => EVENT,
        LayoutFlaw::NoEntry => ENTRY,
        LayoutFlaw::NoLineFeed => "the line must end with a line feed",
        LayoutFlaw::AfterEnd => "nothing may follow the line `end`",
        LayoutFlaw::Blank => "blank lines aren't allowed",
        LayoutFlaw::Comment => "comments aren't allowed",
        LayoutFlaw::OtherComment => "a comment must have a line of its own that begins with `#`",
        LayoutFlaw::MoreThanEnd => "the line `end` has no other words",
        LayoutFlaw::CarriageReturn =>
            "lines must end with a line feed only, without a carriage return",
        LayoutFlaw::Tab => "words are separated by a space; tabs aren't allowed",
        LayoutFlaw::NoAscii => "only printable ASCII is allowed",
        LayoutFlaw::SpaceFirst => "a line can't begin with a space",
        LayoutFlaw::SpaceLast => "a line can't end with a space",
        LayoutFlaw::TwoSpaces => "words are separated by one space",
        _ => "",
    }
}

// The words of the lines that a text has from a section on.
fn words_of<W: fmt::Write>(
    f: &mut fmt::Formatter<W>,
    file: File,
    section: u8,
    separator: &str,
) -> fmt::Result {
    let mut between = "";
    for form in &Form::ALL {
        if file.has(*form) && form.section() >= section {
            f.write_str(between)?;
            f.write_str(form.word())?;
            between = separator;
        }
    }
    Ok(())
}

impl fmt::Display for OutcomeFlaw<'_> {
    fn fmt<W: fmt::Write>(&self, f: &mut fmt::Formatter<W>) -> fmt::Result {
        match *self {
            OutcomeFlaw::Unknown(word) => write!(
                f,
                "no outcome begins with `{word}`: an outcome is `done ..`, `blocked` or `refused CODE DETAIL`"
            ),
            OutcomeFlaw::NoAnswer(word) => write!(
                f,
                "`{word}` can't follow `done`: expected nothing, `aborted`, `word`, `count` or `msg`"
            ),
            OutcomeFlaw::Words(words, flaw) => match flaw {
                WordFlaw::Missing(_) | WordFlaw::TooMany(_) => {
                    write!(f, "{flaw}: expected `{words}`")
                }
                _ => flaw.fmt(f),
            },
        }
    }
}
