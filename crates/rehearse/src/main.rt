// Reads the package index rig.idx of its folder and prints it, or its refusal. Then it plays a rig's setup from the script
// setup.txt, one call a line, on each make of host: directly, through a journal that is committed, and through one that is
// discarded. It prints what each call answers, a refusal by its number, and how the trees at the end compare.
#![tactic(auto)]

mod packages;
mod play;
mod script;
mod trees;

use host::{Host, Limits, OpenFault};
use linked_host::LinkedHost;
use play::{End, Refusal};
use std::{fs, io};
use table_host::TableHost;

const SCRIPT: &str = "setup.txt";

// Three hosts of one make.
#[derive(Drop)]
struct Three<B> {
    direct: B,
    committed: B,
    discarded: B,
}

impl<B: Drop> Three<B> {
    fn open<F: Fn() -> Result<B, OpenFault>>(make: F) -> Result<Three<B>, OpenFault>
        requires { F.IsAlwaysCallable make }
    {
        Ok(Three {
            direct: make()?,
            committed: make()?,
            discarded: make()?,
        })
    }
}

// Plays the lines in each of the three ways; the host that was played directly comes back.
fn ways<B: Host + Drop>(
    rt: &HostRuntime,
    make: &str,
    hosts: Three<B>,
    calls: &str,
) -> io::Result<B> {
    let Three {
        mut direct,
        committed,
        discarded,
    } = hosts;
    let opened = (discarded.free(), discarded.allowance());
    println!(rt; "{make}, directly")?;
    play::directly(rt, &mut direct, calls)?;
    println!(rt; "{make}, through a journal that is committed")?;
    let committed = play::rehearsed(rt, committed, calls, End::Committed)?;
    println!(rt; "{make}, through a journal that is discarded")?;
    let discarded = play::rehearsed(rt, discarded, calls, End::Discarded)?;
    let equal = trees::equal(&direct, &committed, calls);
    let untouched = (discarded.free(), discarded.allowance()) == opened;
    println!(rt; "{make}: committed tree equal {equal}, discarded host untouched {untouched}")?;
    Ok(direct)
}

fn play_both(
    rt: &HostRuntime,
    tables: Three<TableHost>,
    linked: Three<LinkedHost>,
    calls: &str,
) -> io::Result<()> {
    let table = ways(rt, "table host", tables, calls)?;
    let linked = ways(rt, "linked host", linked, calls)?;
    let equal = trees::equal(&table, &linked, calls);
    println!(rt; "trees of both makes equal {equal}")?;
    trees::show(rt, &table, calls)
}

fn main(rt: HostRuntime) -> io::Result<()> {
    packages::show_index(&rt)?;
    play_setup(&rt)
}

fn play_setup(rt: &HostRuntime) -> io::Result<()> {
    let text = fs::read_to_string(rt, SCRIPT)?;
    let Some((first, calls)) = text.split_once('\n') else {
        return println!(rt; "the script has no line");
    };
    let Some(limits) = script::parse_limits(first) else {
        return println!(rt; "the script does not begin with: open CAPACITY ALLOWANCE");
    };
    println!(rt; "{first}")?;
    let tables = match Three::open(|| TableHost::open(rt.alloc(), limits)) {
        Ok(hosts) => hosts,
        Err(fault) => return println!(rt; "{}", Refusal::Open(fault)),
    };
    match Three::open(|| LinkedHost::open(rt.alloc(), limits)) {
        Ok(hosts) => play_both(rt, tables, hosts, calls),
        Err(fault) => println!(rt; "{}", Refusal::Open(fault)),
    }
}
