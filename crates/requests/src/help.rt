//! Texts of `--help`: the purpose of each command, what its files hold, and an example to paste into a shell.
//! `tests/command-line` runs the examples, and compares what they print with what is shown.
//!
//! A constant `ABOUT_..` is the line on a command, and `EXAMPLE_..` its example. The others are the
//! texts on the argument or option of their name; `WRONG_..` is printed if an option has a wrong
//! value.

pub const ABOUT: &str =
    "Checks what the threads of a system of capabilities may do, and runs and replays their calls";

pub const ABOUT_IMPORT: &str =
    "Writes the capability table of a Microkit system description, or the claims that it makes";

// It shows `--rights` as required. Clap isn't told so: its message on a missing option doesn't say what the values mean.
pub const USAGE_IMPORT: &str = "confine import [OPTIONS] --rights <least|all> <FILE>";

pub const ABOUT_SUMMARY: &str =
    "Prints a matrix of who may change whom, and who changes and reads which memory";

pub const ABOUT_SHOW: &str =
    "Searches for calls by which a label changes objects of another, and prints a script";

pub const ABOUT_CHECK: &str =
    "Checks a table against a policy, and prints who may change what, or which rule is broken";

pub const ABOUT_VERIFY: &str =
    "Checks a table against a policy, and whether a certificate is the table's";

pub const ABOUT_RUN: &str =
    "Checks a table against a policy, runs a script of kernel calls and prints its log";

pub const ABOUT_REPLAY: &str =
    "Reports whether a system could have made a log, and whether it ends within a policy";

pub const ABOUT_CLOSE: &str =
    "Writes the smallest policy that accepts a system, and keeps the edges of POLICY";

pub const ABOUT_WHY: &str =
    "Reports what threads of a label may do to objects of another, and by which edges";

pub const ABOUT_FLOWS: &str =
    "Reports what flows from one label to another, and through which programs all of it goes";

pub const ABOUT_DIFF: &str =
    "Reports what changes from one system to another of who may change, read and reach whom";

pub const ABOUT_DRAW: &str =
    "Draws, for Graphviz, which programs may change or take from which, and by what";

pub const ABOUT_CLAIMS: &str =
    "Reports whether claims hold: how much authority labels have on others at most";

pub const ABOUT_LIST: &str =
    "Lists the objects of a system: by which number a script names each, its kind, name, label";

pub const SYSTEM: &str = "\
A capability table, as `confine check --help` shows it, or a system description, as
`confine import --help` says. A text that begins with `<` is a description. For each
file, `-` is standard input.";

// Clap indents what a file holds by twelve columns.
pub const TABLE: &str = "\
The objects, the capabilities and who holds them. The first line is `confine-table 1`,
for up to 64 labels, or `confine-table 2`, for up to 256. The last line is `end`.
Between them stand these lines, in this order:

  label NAME
  untyped NAME LABEL ADDRESS BITS                 2^BITS bytes that no object uses yet
  cnode NAME LABEL ADDRESS RADIX                  2^RADIX slots
  tcb NAME LABEL ADDRESS ready                    a thread; or `inactive`
  endpoint NAME LABEL ADDRESS                     `notification`, `reply`, `frame` alike
  context NAME LABEL ADDRESS CORE BUDGET PERIOD   microseconds; or `-` for the three
  control NAME LABEL CORE                         may configure contexts for this core
  cap SLOT CNODE GUARDBITS GUARD
  cap SLOT ENDPOINT RIGHTS BADGE                  a notification alike
  cap SLOT FRAME RIGHTS
  cap SLOT OBJECT                                 of the other five kinds
  child SLOT SLOT                                 the second was derived from the first
  bind TCB CONTEXT                                what the thread runs on

Objects of different kinds may stand in any order. They are numbered from 0 in the
order of their lines. SLOT is CNODE.NUMBER, or TCB.root: the root slot of a thread
holds the CNode where the thread finds its capabilities. RIGHTS is `-`, or some of
`rwgy` in this order; notifications and frames have only `rw`. ADDRESS and GUARD are
0x and lower-case hexadecimal. All other numbers are decimal. `cap` lines are sorted
by slot, `child` lines by their second slot, and `bind` lines by thread.";

pub const POLICY: &str = "\
What each label may do to other labels. The first line is `confine-policy 1`, the last
is `end`. The lines between them are sorted by label, kind and label:

  edge LABEL KIND LABEL

The kinds, in their order: control, reset, send, receive, grant, call, notify, await,
read, write, reply, context, schedcontrol, space, derive, runs, holds.";

pub const POLICY_TO_CLOSE: &str = "\
Edges that the policy must have in any case, in the format of `confine check`. Without
this file the policy has only the edges that the table and the rules require.";

pub const CERTIFICATE: &str = "\
What each capability of the table gives, as `confine check --cert` writes it. The
first line is `confine-cert 1`, the last is `end`. Between them stand these lines:

  cap SLOT LABEL KINDS LABEL     a slot of a CNode; KINDS as in `reset,notify`
  space TCB.root LABEL LABEL     the root slot of a thread
  derive SLOT SLOT LABEL LABEL   a `child` line
  runs TCB CONTEXT LABEL LABEL   a `bind` line

The two labels are those of the holder and of the object; in a `derive` line, of the
two holders; in a `runs` line, of the thread and its context.";

pub const SCRIPT: &str = "\
The kernel calls. The first line is `confine-script 1`, the last is `end`. Between
them stand these lines. THREAD is the number of an object:

  CORE THREAD signal ADDRESS                        `poll`, `wait` alike
  CORE THREAD send ADDRESS WORD WORD WORD WORD CAP  `call` alike
  CORE THREAD recv ADDRESS REPLY SLOT
  CORE THREAD reply ADDRESS WORD WORD WORD WORD
  CORE THREAD fetch                                 what the thread was given
  CORE THREAD copy SLOT SLOT RIGHTS                 to the first slot, from the second
  CORE THREAD mint SLOT SLOT RIGHTS badge BADGE
  CORE THREAD mint SLOT SLOT RIGHTS guard BITS VALUE
  CORE THREAD move SLOT SLOT
  CORE THREAD delete SLOT                           removes the capability there
  CORE THREAD revoke SLOT                           removes what was derived from it
  CORE THREAD retype MEMORY KIND BITS CNODE INDEX COUNT
  CORE THREAD read FRAME INDEX
  CORE THREAD write FRAME INDEX WORD
  CORE THREAD setspace TCB CNODE                    the root of its space
  CORE THREAD clearspace TCB                        `suspend`, `resume` alike
  CORE THREAD configure CONTROL CONTEXT BUDGET PERIOD
  CORE THREAD bind CONTEXT TCB
  CORE THREAD unbind CONTEXT

SLOT is three numbers: the address of a CNode, an index, and how many low bits of the
index are looked up from there, 1 to 64. A message has four words. It may also take
the capability at the address CAP to the SLOT of the receiver. The receiver answers a
call through the reply object at the address REPLY. `-` stands for no CAP, no REPLY or
no SLOT. When the last capability for an object is removed, the object is removed too,
with all that it holds. A retype makes COUNT objects, 1 to 16, of the untyped memory
at the address MEMORY, and puts their capabilities into the CNode at the address
CNODE, from the slot INDEX on. KIND is a word of the table's objects, but not
`control`. BITS is the size of untyped memory, or the radix of a CNode; for other
kinds any number will do. A frame has the words 0 to 511. Suspend stops a thread, and
resume lets it go on; a thread that waited learns that its call was aborted. FRAME,
TCB, CONTROL and CONTEXT are addresses too. BUDGET and PERIOD are in microseconds. All
numbers are decimal.";

pub const LOG: &str = "\
The kernel calls and their outcomes. The first line is `confine-log 1`, the last is
`end`. The lines between them are those of a script, each with ` = ` and an outcome:

  done                                    `done aborted`, `done count COUNT` alike
  done word WORD
  done msg BADGE WORD WORD WORD WORD CAP  CAP is 1 if a capability was received, else 0
  blocked
  refused CODE DETAIL";

pub const CLAIMS: &str = "\
What must hold in every run. The first line is `confine-claims 2`, the last is `end`.
The lines between them come in any order. An empty line, or one that begins with `#`,
says nothing:

  none A B           threads of label A never change an object of label B
  take A B           .. other than by shrinking it; `*` for A or B: each other label
  only B A A ..      threads of B and of these labels alone change an object of B
  within A B B ..    threads of A change objects of A and of these labels alone
  readers B A A ..   no label but B and these ever has authority read, receive or
                     await on B
  apart A B          nothing A does flows to B: no chain of labels leads from A to B,
                     of which each may change objects that the next one has or sees
  through A B F ..   .. but through these labels
  without A KIND B   A never has authority of this kind on B, as in an edge of a policy;
                     `*` for A or B: each other label";

pub const DESCRIPTION: &str = "\
A system description, as Microkit 1.x reads it: protection domains, virtual machines,
memory regions, maps and channels, in XML. What it doesn't show is told with `--explain`.
docs/IMPORT.md says what each element becomes.";

pub const VERSION: &str = "0.23.0";

pub const EXPLAIN: &str = "Adds reasons, runs and notes to what standard error says";

pub const QUIET: &str = "Leaves out sentences on standard error; with --explain, only the notes";

pub const FORMAT: &str = "Prints reports as `json` or `short`: FILE:LINE: message";

pub const WRONG_FORMAT: &str = "'--format <F>' takes 'json' or 'short'";

pub const FORM: &str = "Prints the answer as `json`, on one line, or as `text`";

pub const WRONG_FORM: &str = "'--format <F>' takes 'json' or 'text'";

pub const WORKERS: &str = "Threads that check the slots at the same time, 1 to 16";

pub const WRONG_WORKERS: &str = "'--workers <N>' takes a decimal number from 1 to 16";

pub const SECONDS: &str = "Seconds for which `--explain` looks for runs; 0: without a bound";

pub const WRONG_SECONDS: &str = "'--seconds <N>' takes a decimal number from 0 to 86400";

pub const CERT: &str = "Writes the certificate of an accepted table instead of the report";

pub const RIGHTS: &str = "The rights of capabilities: `least`, as the description needs, or `all`";

pub const RIGHTS_OF_SYSTEM: &str = "Of a description: `least`, the rights that it needs, or `all`";

pub const TWO_INPUTS: &str = "'-' is standard input, so only one file can be '-'";

pub const WRONG_RIGHTS: &str =
    "'--rights <least|all>' takes 'least' or 'all': with 'least' a capability has the rights \
that the description needs, with 'all' every right of its kind, as Microkit 1.x mints them";

pub const AS_CLAIMS: &str = "Writes the claims that the description makes, in place of the table";

pub const TAKE: &str = "Searches for calls by which the object only shrinks";

pub const STEPS: &str = "The most calls that are tried, 1 to 1000000";

pub const WRONG_STEPS: &str = "'--steps <N>' takes a decimal number from 1 to 1000000";

pub const ALL_LABELS: &str =
    "Draws all labels, and at each arrow an edge, in place of programs alone";

pub const SPLIT: &str =
    "Runs a worker for each core; the order of calls may differ from run to run";

pub const MISSING: &str =
    "Writes only the lines that POLICY lacks; the status is 1 if there are any";

pub const SURPLUS: &str =
    "Writes only the lines of POLICY that nothing needs; status as with --missing";

pub const ALL: &str = "Writes the strongest claims that hold, on all labels, in place of CLAIMS";

pub const ACTOR: &str = "The label whose threads act, by its name in the table";

pub const ACTOR_OR_ALL: &str =
    "The label whose threads act; with '*', a line for each other label that may change B";

pub const READS: &str = "With '*' as A: a line for each other label that may read B";

pub const READS_OF_ONE: &str =
    "'--reads' lists all labels that may read B: write '*' in place of A";

pub const ALL_BY_POLICY: &str =
    "'*' in place of A asks about runs of the system: leave out '--policy', or name one label";

pub const ALL_AS_JSON: &str = "with '*' in place of A, the answer has no form but 'text'";

pub const OBJECT: &str = "The label of the objects on which they act";

pub const FLOWS_FROM: &str =
    "The label whose threads act; without labels, a matrix of all programs";

pub const FLOWS_TO: &str = "The label to which it flows";

pub const OLD_SYSTEM: &str =
    "The system as it was: a capability table or a Microkit system description";

pub const NEW_SYSTEM: &str = "The system as it is now, in either form";

pub const ONE_LABEL: &str =
    "'flows' takes two labels, '<A> <B>', or none: then it prints a matrix of all programs";

pub const POLICY_ALLOWS: &str =
    "Asks what this policy allows if all labels make calls: this holds of no run";

pub const RULES: &str = "Judges by P1 to P8 (`closed`), or by S1 to S8 (`sharp`)";

pub const WRONG_RULES: &str = "'--rules <RULES>' takes 'closed' or 'sharp'";

// An example of a small table.
macro_rules! with_table {
    ($first:literal $(, $then:literal)+) => {
        concat!(
            "Example, to be pasted into a shell: ",
            $first,
            "

cat >table <<'.'
confine-table 1
label a
label b
cnode space a 0x1000 2
tcb main a 0x2000 ready
notification ring b 0x3000
context share a 0x4000 0 10 10
cap space.0 ring rw 1
cap main.root space 62 0x0
bind main share
end
.
" $(, $then)+
        )
    };
}

// An example of that table, and of a policy that it keeps to.
macro_rules! with_policy {
    ($first:literal, $then:literal) => {
        with_table!(
            $first,
            "\
cat >policy <<'.'
confine-policy 1
edge a reset b
edge a notify b
edge a await b
edge a space a
edge a derive a
edge a runs a
end
.
",
            $then
        )
    };
}

/// The short help: what is printed if there is no word on the command line.
pub const BEGINNING: &str = "\
confine decides, before a separated system boots, whether its capabilities keep to a policy.

  confine summary SYSTEM        prints a matrix of who may change whom, and who reads what
  confine why SYSTEM A B        reports what label A may do to label B, and by which edges
  confine claims SYSTEM CLAIMS  reports whether claims on labels hold in every run
  confine close SYSTEM          writes the smallest policy that accepts a system
  confine check TABLE POLICY    accepts or denies, and prints who may change what

`confine --help` lists all commands, and `confine COMMAND --help` explains one, with an example.
docs/TUTORIAL.md is the place to begin.
";

pub const EXAMPLE: &str = with_policy!(
    "a thread `main` may signal a bell and poll it.",
    "\
cat >script <<'.'
confine-script 1
0 1 signal 0
0 1 poll 0
end
.
confine check table policy
confine check table policy --cert >certificate
confine verify table policy certificate
confine run table policy script

The table is accepted, its certificate is right, and the script is run. Each command ends
with status 0:

{\"caps\":2,\"cut\":{\"a\":[\"a\",\"b\"],\"b\":[\"a\",\"b\"]},\"full\":{\"a\":[\"a\",\"b\"],\"b\":[\"b\"]},\"verdict\":\"accept\"}
{\"verdict\":\"accept\"}
confine-log 1
0 1 signal 0 = done
0 1 poll 0 = done word 1
end

The status is 1 if a table is denied. It is 2 if a text has a fault, a file can't be read, the
answer can't be written, memory is refused, the command line is wrong, or help is asked for.
`confine COMMAND --help` describes the files.
"
);

pub const EXAMPLE_CHECK: &str = with_table!(
    "a thread `main` may signal a bell and poll it,
and the policy forgets that it may poll.",
    "\
cat >policy <<'.'
confine-policy 1
edge a reset b
edge a notify b
edge a space a
edge a derive a
edge a runs a
end
.
confine check table policy

It prints the rule that is broken and the place, and ends with status 1:

{\"place\":[\"space.0\",\"await\",\"b\"],\"rule\":\"A1\",\"verdict\":\"deny\"}

By rule A1 each capability keeps to the policy. Standard error says, in one line, which capability
doesn't, in which line it is, and what may be done:

table:8: denied by A1: slot 0 of `space` lets `a` await `b`, but the policy has no such edge. Give
the capability fewer rights, or add `edge a await b`. `confine close table policy` adds the edge
for you.

The edge belongs after the edge `notify`:

sed -i '/notify/a edge a await b' policy
confine check table policy

Now the table is accepted, with status 0:

{\"caps\":2,\"cut\":{\"a\":[\"a\",\"b\"],\"b\":[\"a\",\"b\"]},\"full\":{\"a\":[\"a\",\"b\"],\"b\":[\"b\"]},\"verdict\":\"accept\"}

Two slots are filled. Whatever the threads of a label call, they change objects of the labels in its
`full` alone, but for objects of the labels in its `cut`, which may shrink: vanish, or lose
capabilities or links.
"
);

pub const EXAMPLE_VERIFY: &str = with_policy!(
    "a certificate is written, verified and spoilt.",
    "\
confine check table policy --cert | tee certificate
confine verify table policy certificate

The certificate is that of the table. The command ends with status 0:

confine-cert 1
cap space.0 a reset,notify,await b
space main.root a a
runs main share a a
end
{\"verdict\":\"accept\"}

Now its second line is removed:

sed -i 2d certificate
confine verify table policy certificate

It prints the first line that is wrong, missing or too many, where the header isn't counted, and
ends with status 1:

{\"place\":[\"1\"],\"rule\":\"C1\",\"verdict\":\"deny\"}

Standard error says, in one line, which line of the file that is, and what to do:

certificate:2: denied by C1: line 1 after the certificate's header differs from what the table
gives, is missing, or is one line too many. Write the certificate again with
`confine check --cert`.
"
);

pub const EXAMPLE_RUN: &str = with_policy!(
    "a thread `main` signals a bell, and polls it twice.",
    "\
cat >script <<'.'
confine-script 1
0 1 signal 0
0 1 poll 0
0 1 poll 0
end
.
confine run table policy script

It prints the log, and ends with status 0:

confine-log 1
0 1 signal 0 = done
0 1 poll 0 = done word 1
0 1 poll 0 = done word 0
end

`main` is object 1. In an address, 62 zero bits lead from its root to `space`, and the last two
bits select one of the four slots of `space`. So address 0 is slot 0. It holds a capability for
`ring` with the rights to read and write, and badge 1. The first poll takes the word that the signal
left. The second finds none.

Without the edge `await` no call is made:

sed -i '/await/d' policy
confine run table policy script

It prints the broken rule and the place, and ends with status 1. Standard error says the same in
words:

{\"place\":[\"space.0\",\"await\",\"b\"],\"rule\":\"A1\",\"verdict\":\"deny\"}

table:8: denied by A1: slot 0 of `space` lets `a` await `b`, but the policy has no such edge. Give
the capability fewer rights, or add `edge a await b`. `confine close table policy` adds the edge
for you.

A table that ends after its second line has a fault in its third:

head -n 2 table >short
confine run short policy script

It prints the number of the fault, and ends with status 2:

{\"fault\":50,\"file\":\"table\",\"line\":3}

short:3: the line is missing: the text ends without the line `end`
"
);

pub const EXAMPLE_REPLAY: &str = with_policy!(
    "a thread `main` signals a bell and polls it,
and a log says so.",
    "\
cat >log <<'.'
confine-log 1
0 1 signal 0 = done
0 1 poll 0 = done word 1
end
.
confine replay table policy log

The system makes each of these entries. The command ends with status 0:

{\"entries\":2,\"state\":\"within\",\"verdict\":\"legal\"}

Now the log says that the poll found a word that it can't have found:

sed -i 's/word 1/word 2/' log
confine replay table policy log

It prints the first entry that the system can't have made, counted from 1, and ends with status 1:

{\"entry\":2,\"verdict\":\"illegal\"}

Standard error says what the system would have answered:

log:3: entry 2 is not a step of the system: the kernel answers `done word 1` to `0 1 poll 0` there,
not `done word 2`

A legal log may end outside a policy, as here without the edge `await`:

sed -i '/await/d' policy
sed -i 's/word 2/word 1/' log
confine replay table policy log

It prints the rule that is broken at the log's end and the place, and ends with status 1:

{\"entries\":2,\"place\":[\"space.0\",\"await\",\"b\"],\"rule\":\"A1\",\"state\":\"outside\",\"verdict\":\"legal\"}

log:3: outside by A1: after the last entry, slot 0 of `space` lets `a` await `b`, but the policy has
no `edge a await b`
"
);

pub const EXAMPLE_CLOSE: &str = with_table!(
    "a thread `main` may signal a bell and poll it.
Which policy does that require?",
    "\
confine close table | tee policy

It prints the smallest policy that accepts the table, and ends with status 0:

confine-policy 1
edge a reset b
edge a notify b
edge a await b
edge a space a
edge a derive a
edge a runs a
end

A capability, a root slot or a binding of the table requires each edge, or a rule requires it
because of other edges. Every policy that accepts the table has all of them. So to get rid of an
edge, change the table: without the right to read, nobody awaits `b`.

sed -i 's/ring rw/ring w/' table
confine close table

Now the policy has one edge less, with status 0:

confine-policy 1
edge a reset b
edge a notify b
edge a space a
edge a derive a
edge a runs a
end

If a policy is named too, `close` keeps its edges and adds those that are missing. `--missing`
prints only what is missing:

sed -i '/reset/d' policy
confine close table policy --missing

It prints the lines to be added, in their order, and ends with status 1:

edge a reset b

`--surplus` prints the edges of a policy that neither the table nor a rule requires:

confine close table policy --surplus

Nobody may read `ring` any more. So it prints a line that can be removed, and ends with status 1:

edge a await b
"
);

pub const EXAMPLE_CLAIMS: &str = with_table!(
    "a thread `main` may signal a bell and poll it.
Its owner claims that `b` never changes objects of `a`.",
    "\
cat >claims <<'.'
confine-claims 2
# b rings at nobody
none b a
end
.
confine claims table claims

The one claim holds, with status 0:

{\"claims\":1,\"kept\":\"calls\",\"verdict\":\"hold\"}

So no call of a thread of `b` ever changes an object of `a`, whatever else is called before. What
may be claimed at all, `--all` tells:

confine claims table --all

It prints the strongest claims that hold, with status 0. `b` has no thread, so `only` names all
labels that may change what is labelled `b`:

confine-claims 2
only b a
end

Now it is claimed that `a` changes nothing of `b`:

sed -i '/none/i take a b' claims
confine claims table claims --explain

It prints the claims that don't hold and what authority there is, and ends with status 1:

{\"broken\":[{\"authority\":\"full\",\"claim\":\"take a b\",\"line\":3}],\"kept\":\"calls\",\"verdict\":\"broken\"}

Standard error says by which edges. With `--explain` it says too where each edge is from, and which
calls show it:

claims:3: `take a b` doesn't hold: `a` may change objects of `b`, by `edge a notify b`. Change the
claim, or give `a` fewer rights at table:8.

`edge a notify b` comes from table:8: slot 0 of `space` lets `a` notify `b`

claims:3: a run that shows it:

`0 1 signal 0`: `main` of `a` changes `ring` of `b`
"
);

pub const EXAMPLE_LIST: &str = with_table!(
    "a thread `main` may signal a bell and poll it.
Which number does a script use for that thread?",
    "\
confine list table

It prints a line for each object, its number, kind, name and label, and ends with status 0:

0 cnode space a
1 tcb main a
2 notification ring b
3 context share a

So a line of a script in which `main` signals on core 0 begins with `0 1 signal`.
"
);

pub const EXAMPLE_WHY: &str = with_table!(
    "a thread `main` may signal a bell and poll it.
What may label `a` do to objects of `b`?",
    "\
confine why table a b

Threads of `a` may change objects of `b`, because they may notify. The command ends with status 0:

full
edge a notify b

And the other way round:

confine why table b a

none

No thread of `b` changes an object of `a` in any run: `b` has no thread. `take` means that threads
of A can at most take something away: objects of B may vanish, or lose capabilities or links. If
there are several reasons, `why` prints one with the fewest edges. It ends with status 0 whatever
the answer is; to make a build fail, use `confine claims`. The answer is about the table, whatever a
policy allows; what a policy allows, `--policy POLICY` asks. For a script there is JSON. It also
comes with status 0:

confine why table a b --format json

{\"actor\":\"a\",\"authority\":\"full\",\"edges\":[[\"a\",\"notify\",\"b\"]],\"object\":\"b\"}

Which other labels may change objects of `b`, and which may read there? This ends with status 0:

confine why table '*' b
confine why table '*' b --reads

a full
a reads
"
);

pub const EXAMPLE_SUMMARY: &str = with_table!(
    "a thread `main` may signal a bell and poll it.
Who may change what?",
    "\
confine summary table | tail -n +3

After a line that says what the letters mean it prints a matrix of the labels that have a thread,
and then the other labels with those who use them. It ends with status 0:

        1
1 a     =

b
    changed by a; read by a

Here one label has a thread, and `b` has none. In the row of a label stands what its threads may do
to objects of the label at the head of the column: C they call, A they answer, S they signal, F they
may change them for another reason, t they may only take away; m is memory that one writes and the
other has. A `.` says that they never change one, in any run: it is `none`, as `confine why` tells.
With `--format json` it is one JSON object on a line, which has no cell with a `.`.
"
);

pub const EXAMPLE_SHOW: &str = with_table!(
    "a thread `main` may signal a bell and poll it.
By which calls does `a` change objects of `b`?",
    "\
confine show table a b

It prints calls that the system makes from its boot state, none of which is refused. The last is of
a thread of `a`, and changes an object of `b`. The command ends with status 0:

confine-script 1
0 1 signal 0
end

It is a script for `confine run`. The other way round there is no such script:

confine show table b a

It prints so, and ends with status 1:

{\"bound\":\"none\",\"run\":\"impossible\"}

`confine why` tells that bound. If it is `full` or `take`, and no script is found with so many calls
tried, `show` prints `none found`, with status 1 too. That says nothing of other scripts. With
`--take` an object that shrinks is enough.
"
);

pub const EXAMPLE_DIFF: &str = "\
Example, to be pasted into a shell: a client may write the settings that it could only read.

cat >old <<'.'
<system>
  <memory_region name=\"settings\" size=\"0x1000\"/>
  <protection_domain name=\"server\" priority=\"2\">
    <program_image path=\"server.elf\"/>
    <map mr=\"settings\" vaddr=\"0x200_0000\" perms=\"rw\"/>
  </protection_domain>
  <protection_domain name=\"client\" priority=\"1\">
    <program_image path=\"client.elf\"/>
    <map mr=\"settings\" vaddr=\"0x200_0000\" perms=\"r\"/>
  </protection_domain>
</system>
.
sed 's/perms=\"r\"/perms=\"rw\"/' old >new
confine diff old new --rights least

It prints a line for each change, with status 1, since some add authority:

+ client server m
+ client changes settings

`+` is new, `-` is gone, `~` is another than it was. A line of two programs has what the matrix of
`confine summary` says of them. Then come the uses of memory (`changes`, `takes`, `reads`), and
edges that no other line shows. Without any change it prints nothing, and the status is 0.";

pub const EXAMPLE_FLOWS: &str = "\
Example, to be pasted into a shell: two clients call a server.

cat >system <<'.'
<system>
  <protection_domain name=\"server\" priority=\"2\">
    <program_image path=\"server.elf\"/>
  </protection_domain>
  <protection_domain name=\"one\" priority=\"1\">
    <program_image path=\"one.elf\"/>
  </protection_domain>
  <protection_domain name=\"two\" priority=\"1\">
    <program_image path=\"two.elf\"/>
  </protection_domain>
  <channel>
    <end pd=\"server\" id=\"1\"/>
    <end pd=\"one\" id=\"1\" pp=\"true\"/>
  </channel>
  <channel>
    <end pd=\"server\" id=\"2\"/>
    <end pd=\"two\" id=\"1\" pp=\"true\"/>
  </channel>
</system>
.
confine flows system one two --rights least

What `one` does flows to `two`, but only through `server`. The command ends with status 0:

through server
link one server two

A `link` is a step of a shortest chain: threads of `one` may change objects of `server` or take
from them, and `two` sees those objects. There is a line `through` for each smallest set of
programs, at most 10; then `and more`. `direct` says that no set of other programs is one, `more
than 5` that each has more programs, and `none` that nothing flows. With `--explain` standard
error says by which edges each step goes. Without labels it prints a matrix, also with status 0:

confine flows system --rights least

through how many other programs all flows from one to another go, in any run:
  . nothing flows, d: directly, +: more than 5

             1     2     3
1 server     =     d     d
2 one        d     =     1
3 two        d     1     =
";

pub const EXAMPLE_IMPORT: &str = "\
Example, to be pasted into a shell: a client may call a server, and the server may notify it.

cat >system <<'.'
<system>
  <protection_domain name=\"server\" priority=\"2\">
    <program_image path=\"server.elf\"/>
  </protection_domain>
  <protection_domain name=\"client\" priority=\"1\">
    <program_image path=\"client.elf\"/>
  </protection_domain>
  <channel>
    <end pd=\"server\" id=\"1\"/>
    <end pd=\"client\" id=\"1\" pp=\"true\"/>
  </channel>
</system>
.
confine import system --rights least >table
confine summary table | tail -n +3

Each command ends with status 0. On standard error `import` says that there is more to be read:

system: 3 notes on what the table doesn't show. `--explain` prints them.

The last command prints who may change whom, as `confine summary --help` explains it:

             1     2
1 server     =    AS
2 client    CS     =

client_time
    changed and read by nobody

So the client may call and signal, and the server may answer and signal: no other way leads from the
one to the other. `client_time` is the context on which the client runs. No call lends it: the
server has one of its own.

With `--rights all` a capability has every right of its kind, as the tool mints them. Compare both:
many answers rest on the rights, which no description shows. The rights that your tool mints are in
its report. docs/IMPORT.md says more.
";

pub const EXAMPLE_DRAW: &str = with_table!(
    "a thread `main` may signal a bell and poll it.
Which programs may change what?",
    "\
confine draw table

It prints a graph of the labels that have a thread, and ends with status 0:

digraph authority {
  node [shape=box]
  edge [fontsize=10]
  nodesep=0.1
  ranksep=0.4
  \"a\" [label=\"a\\nwith b\"]
}

So only `a` has a thread, and only `a` uses objects of `b`: the box of `a` has `b` too. Between
two boxes an arrow says what threads of the one may do to objects of the other, and to memory that
both use. A dashed arrow is for threads that may only take away, a dotted one is about memory
alone. With `--all` each label is a node, and an arrow has the first edge of the reason:

confine draw table --all

Threads of `a` may change objects of `b`, since they may notify. It ends with status 0:

digraph authority {
  \"a\"
  \"b\"
  \"a\" -> \"b\" [label=\"a notify b\"]
}

Between labels with no arrow nothing is changed in any run. Graphviz makes a picture:
`confine draw table | dot -Tsvg >authority.svg`.
"
);
