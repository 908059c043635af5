// The trees at the end: by what stands at each path that the script named, since no other can stand on a host that was opened empty.
use crate::play::Answer;
use crate::script::Call;
use host::{Host, Kind};
use std::alloc::{AllocError, Global};
use std::{fmt, io};
use values::Path;

// The bytes of a path or a name, all of them ASCII.
#[derive(Clone, Copy)]
pub(crate) struct Shown<'a>(pub &'a [u8]);

impl fmt::Display for Shown<'_> {
    fn fmt<W: fmt::Write>(&self, f: &mut fmt::Formatter<W>) -> fmt::Result {
        for b in self.0 {
            f.write_char(*b as char)?;
        }
        Ok(())
    }
}

// The paths that the lines name, each once and in byte order.
fn named(heap: Global, calls: &str) -> Result<Vec<Path>, AllocError> {
    let mut paths = Vec::new(heap);
    for line in calls.lines() {
        if let Ok(call) = line.parse::<Call>() {
            if let Some(p) = call.path() {
                paths.push(p)?;
            }
        }
    }
    paths.sort_unstable();
    paths.dedup();
    Ok(paths)
}

pub(crate) fn show<B: Host>(rt: &HostRuntime, host: &B, calls: &str) -> io::Result<()> {
    let paths = named(rt.alloc(), calls)?;
    for p in paths.iter() {
        let kind = host.look(p);
        if kind != Kind::Nothing {
            println!(rt; "  {} {}", Shown(p.as_bytes()), Answer::Stands(kind))?;
        }
    }
    Ok(())
}

// Whether the two give the path of a call the same, its content included.
fn same_at<B: Host, C: Host>(one: &B, other: &C, call: Call) -> bool {
    match call {
        Call::Creat(p, c) => {
            one.look(&p) == other.look(&p) && one.holds(&p, &c) == other.holds(&p, &c)
        }
        Call::Mkdir(p) => one.look(&p) == other.look(&p),
        Call::Rm(_) | Call::Look(_) | Call::Children(_) | Call::Free => true,
    }
}

// Whether the two give each path the same that the lines make, and each content that they name.
pub(crate) fn equal<B: Host, C: Host>(one: &B, other: &C, calls: &str) -> bool {
    calls
        .lines()
        .filter_map(|line| line.parse::<Call>().ok())
        .all(|call| same_at(one, other, call))
}
