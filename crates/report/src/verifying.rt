//! The command `verify`: whether a certificate is that of a table.
ghost use Rattle.std.specs.Prelude.{◌≡◌, None, false};
ghost use Rattle.certificate.specs.Reading.{read_certificate_of};
ghost use Rattle.forms.specs.declared.file.File.TheVariants as file;
ghost use Rattle.commands.specs.{Commands.{ThreeIsJudged, input, output}, Hearing.ThreeIsHeard};
ghost use Rattle.commands.specs.Hearing as held;
ghost use Rattle.report.specs.Answers as answers;

use crate::{End, Listener, Rules, Sink, Source};
use certificate::Certificate;
use checker::NotAccepted;
use commands::{Answer, Stop, Three, denied, load_three, tell};
use reptext::accept_report;
use std::alloc::Global;
use std::thread::Threads;

/// Verifies a certificate with a table and a policy, which are judged by a set of rules.
///
/// Writes with status 0 that they are accepted and the certificate is the table's, the report of a
/// denial with status 1, or the report of the first fault with status 2.
pub fn verify<R, T, P, S, L, O>(
    rt: &R,
    alloc: Global,
    rules: Rules,
    table: &mut T,
    policy: &mut P,
    certificate: &mut S,
    listener: &mut L,
    out: &mut O,
) -> End
where
    R: Threads + Sync,
    T: Source,
    P: Source,
    S: Source,
    L: Listener,
    O: Sink,
    requires table { T.failed table.old ≡ false }
    requires policy { P.failed policy.old ≡ false }
    requires certificate { S.failed certificate.old ≡ false }
    requires out { O.failed out.old ≡ false }
    ensures done { answers.IsVerifiedWith rules (input T.remaining T.failed table.old table.new)
        (input P.remaining P.failed policy.old policy.new) (input S.remaining S.failed certificate.old certificate.new)
        (output O.contents O.failed O.is_flushed out.old out.new) result }
    ensures heard { ThreeIsHeard L.Hears (λ t edges x. held.certificate t edges) file.Certificate read_certificate_of (answers.Verifies rules)
        (T.remaining table.old) (P.remaining policy.old) (S.remaining certificate.old) listener.old listener.new
        (output O.contents O.failed O.is_flushed out.old out.new) result }
{
    let three = load_three::<Certificate, T, P, S, L>(alloc, table, policy, certificate, listener);
    let answer = verified(rt, alloc, rules, &three);
    tell(alloc, three, answer, listener, out)
}

/// The verdict on a system and a certificate, both loaded.
fn verified<R: Threads + Sync>(
    rt: &R,
    alloc: Global,
    rules: Rules,
    loaded: &Result<Three<Certificate>, Stop>,
) -> Result<Answer, Stop>
    ensures { ThreeIsJudged (answers.Verifies rules) loaded.now result }
{
    let Three {
        table,
        policy,
        third,
    } = match loaded {
        Ok(three) => three,
        Err(stop) => return Err(*stop),
    };
    match checker::verify_by(rt, alloc, table, policy, rules, third) {
        Ok(()) => Ok(Answer::plain(accept_report(alloc)?, 0)),
        Err(NotAccepted::Denied(denial)) => Ok(denied(alloc, table, denial)?),
        Err(NotAccepted::NoMemory) => Err(Stop::NoMemory),
    }
}
