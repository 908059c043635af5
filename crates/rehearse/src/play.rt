// Calls made on a host, and how their answers are shown.
use crate::script::{Call, ScriptFault};
use faults::Numbered;
use host::{Host, HostFault, Kind, OpenFault};
use journal::Journal;
use std::{fmt, io};

// What a call answers that is taken.
#[derive(Clone, Copy)]
pub enum Answer {
    Taken,
    Stands(Kind),
    Counted(u16),
}

// Why nothing comes of a line.
#[derive(Clone, Copy)]
pub enum Refusal {
    Script(ScriptFault),
    Open(OpenFault),
    Host(HostFault),
}

impl From<ScriptFault> for Refusal {
    fn from(fault: ScriptFault) -> Refusal {
        Refusal::Script(fault)
    }
}

impl From<HostFault> for Refusal {
    fn from(fault: HostFault) -> Refusal {
        Refusal::Host(fault)
    }
}

impl fmt::Display for Answer {
    fn fmt<W: fmt::Write>(&self, f: &mut fmt::Formatter<W>) -> fmt::Result {
        match *self {
            Answer::Taken => f.write_str("taken"),
            Answer::Stands(Kind::Nothing) => f.write_str("nothing"),
            Answer::Stands(Kind::Directory) => f.write_str("directory"),
            Answer::Stands(Kind::File) => f.write_str("file"),
            Answer::Counted(n) => write!(f, "{n}"),
        }
    }
}

impl fmt::Display for Refusal {
    fn fmt<W: fmt::Write>(&self, f: &mut fmt::Formatter<W>) -> fmt::Result {
        match *self {
            Refusal::Script(ScriptFault::Unknown) => f.write_str("no call"),
            Refusal::Script(ScriptFault::Value(fault)) => write!(f, "refused {}", fault.number()),
            Refusal::Host(fault) => write!(f, "refused {}", fault.number()),
            Refusal::Open(fault) => match fault.number() {
                Some(n) => write!(f, "refused {n}"),
                None => f.write_str("no memory"),
            },
        }
    }
}

fn line_on<B: Host>(host: &mut B, line: &str) -> Result<Answer, Refusal> {
    match line.parse::<Call>()? {
        Call::Mkdir(p) => host.mkdir(&p)?,
        Call::Creat(p, c) => host.creat(&p, &c)?,
        Call::Rm(p) => host.rm(&p)?,
        Call::Look(p) => return Ok(Answer::Stands(host.look(&p))),
        Call::Children(p) => return Ok(Answer::Counted(host.children(&p))),
        Call::Free => return Ok(Answer::Counted(host.free())),
    }
    Ok(Answer::Taken)
}

// Plays every line on the host.
pub(crate) fn directly<B: Host>(rt: &HostRuntime, host: &mut B, calls: &str) -> io::Result<()> {
    for line in calls.lines() {
        match line_on(host, line) {
            Ok(answer) => println!(rt; "  {line}: {answer}")?,
            Err(refusal) => println!(rt; "  {line}: {refusal}")?,
        }
    }
    println!(rt;
        "  {} nodes free, {} changes left",
        host.free(),
        host.allowance()
    )
}

// How a journal ends.
#[derive(Clone, Copy)]
pub(crate) enum End {
    Committed,
    Discarded,
}

impl fmt::Display for End {
    fn fmt<W: fmt::Write>(&self, f: &mut fmt::Formatter<W>) -> fmt::Result {
        f.write_str(match self {
            End::Committed => "committed",
            End::Discarded => "discarded",
        })
    }
}

// Plays every line in a journal over the host, and ends it.
pub(crate) fn rehearsed<B: Host + Drop>(
    rt: &HostRuntime,
    host: B,
    calls: &str,
    end: End,
) -> io::Result<B> {
    let mut journal = match Journal::open(rt.alloc(), host) {
        Ok(journal) => journal,
        Err(host) => {
            println!(rt; "  {}", Refusal::Open(OpenFault::Memory))?;
            return Ok(host);
        }
    };
    directly(rt, &mut journal, calls)?;
    let held = journal.held();
    match end {
        End::Committed => journal.commit(),
        End::Discarded => journal.discard(),
    }
    println!(rt; "  {end} {held}")?;
    Ok(journal.into_below())
}
