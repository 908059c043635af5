// Scenes that end alike on every host.
use faults::Numbered;
use host::{Host, HostFault, Inspect, Kind};
use std::process::Abort;
use std::test::*;
use values::{Content, Path, ValueFault};

// 0 for a taken change, or the number of its refusal.
pub(crate) fn number(r: Result<(), HostFault>) -> u8 {
    match r {
        Ok(()) => 0,
        Err(fault) => fault.number(),
    }
}

// A change by its name: mkdir, rm, touch for an empty file, and creat for a file with content.
pub(crate) fn change<B: Host>(host: &mut B, call: &str, text: &str) -> Result<u8, ValueFault> {
    let p = Path::try_from(text.as_bytes())?;
    Ok(match call {
        "mkdir" => number(host.mkdir(&p)),
        "rm" => number(host.rm(&p)),
        "touch" => number(host.creat(&p, &Content::try_from(b"".as_slice())?)),
        _ => number(host.creat(&p, &Content::try_from(b"hi".as_slice())?)),
    })
}

fn number_in(word: Option<&str>) -> Result<u16, Fail> {
    let Some(digits) = word else {
        return Err(Fail::new("a case is too short"));
    };
    Ok(digits.parse::<u16>()?)
}

// One case: a change, its path, the number that answers it, and the free nodes and the allowance after it.
fn play_case<B: Host>(rt: &impl Abort, host: &mut B, case: &str) -> Result<(), Fail> {
    let mut words = case.split_whitespace();
    let call = words.next().unwrap_or("");
    let text = words.next().unwrap_or("");
    let answer = u16::from(change(host, call, text)?);
    assert_eq!(rt; answer, number_in(words.next())?, "{}", case);
    assert_eq!(rt; host.free(), number_in(words.next())?, "{}", case);
    assert_eq!(rt; host.allowance(), number_in(words.next())?, "{}", case);
    Ok(())
}

// Cases are lines of text, so that a scene reads like a log of calls.
fn play_cases<B: Host>(rt: &impl Abort, host: &mut B, cases: &str) -> Result<(), Fail> {
    for case in cases.lines() {
        play_case(rt, host, case)?;
    }
    Ok(())
}

// The free nodes and the allowance.
pub(crate) fn left<B: Host>(host: &B) -> (u16, u16) {
    (host.free(), host.allowance())
}

const REFUSALS: &str = "mkdir /a/b 35 3 5
creat /a/b 35 3 5
rm /a 37 3 5
mkdir /a 0 2 4
mkdir /a 36 2 4
creat /a 36 2 4
creat /a/f 0 1 3
mkdir /a/f/g 35 1 3
rm /a 38 1 3
mkdir /b 0 0 2
mkdir /c 39 0 2
creat /c/d 35 0 2
creat /b 36 0 2
rm /b 0 1 1
touch /c 0 0 0
rm /c 40 0 0
rm /b 37 0 0
rm /a 38 0 0
mkdir /d 39 0 0
mkdir /d/e 35 0 0";

// Every refusal of a change, each with what is left after it; the lower number comes first. Capacity 3, allowance 5.
pub(crate) fn refusals<B: Host>(rt: &impl Abort, host: &mut B) -> Result<(), Fail> {
    play_cases(rt, host, REFUSALS)?;
    looks(
        rt,
        host,
        "/a directory\n/a/f file\n/b nothing\n/c file\n/d nothing",
    )
}

// What stands at each path, a line each.
pub(crate) fn looks<B: Host>(rt: &impl Abort, host: &B, stands: &str) -> Result<(), Fail> {
    for line in stands.lines() {
        let (text, kind) = line.split_once(' ').unwrap_or((line, ""));
        let seen = match host.look(&Path::try_from(text.as_bytes())?) {
            Kind::Nothing => "nothing",
            Kind::Directory => "directory",
            Kind::File => "file",
        };
        assert!(rt; seen == kind, "{}", line);
    }
    Ok(())
}

const EXHAUSTED: &str = "mkdir /a 0 1 0
mkdir /b 40 1 0
touch /b 40 1 0
mkdir /a 36 1 0
rm /a 40 1 0";

// An allowance of 0 with a node free. Capacity 2, allowance 1.
pub(crate) fn exhausted<B: Host>(rt: &impl Abort, host: &mut B) -> Result<(), Fail> {
    play_cases(rt, host, EXHAUSTED)
}

// How many children each path has, a line each.
fn counts<B: Host>(rt: &impl Abort, host: &B, children: &str) -> Result<(), Fail> {
    for line in children.lines() {
        let (text, n) = line.split_once(' ').unwrap_or((line, ""));
        let p = Path::try_from(text.as_bytes())?;
        assert_eq!(rt; host.children(&p), n.parse::<u16>()?, "{}", line);
    }
    Ok(())
}

fn holds<B: Host>(host: &B, text: &str, content: &str) -> Result<bool, ValueFault> {
    let p = Path::try_from(text.as_bytes())?;
    Ok(host.holds(&p, &Content::try_from(content.as_bytes())?))
}

// What the questions answer. Capacity 8, allowance 20.
pub(crate) fn questions<B: Host>(rt: &impl Abort, host: &mut B) -> Result<(), Fail> {
    let made =
        "mkdir /a 0 7 19\nmkdir /a/b 0 6 18\nmkdir /a/c 0 5 17\nmkdir /ab 0 4 16\ncreat /a/b/f 0 3 15";
    play_cases(rt, host, made)?;
    counts(rt, host, "/a 2\n/a/b 1\n/ab 0\n/none 0\n/a/b/f 0")?;
    assert!(rt; holds(host, "/a/b/f", "hi")? && !holds(host, "/a/b/f", "h")?);
    assert!(rt; !holds(host, "/a/b/f", "")? && !holds(host, "/a", "")?);
    assert!(rt; !holds(host, "/none", "")?);
    assert_eq!(rt; left(host), (3, 15));
    Ok(())
}

// A path of its own for each number below 1000.
fn numbered(i: u16) -> Result<Path, ValueFault> {
    let zero = b'0' as u16;
    let digits = [zero + i / 100 % 10, zero + i / 10 % 10, zero + i % 10];
    Path::try_from([b'/', digits[0] as u8, digits[1] as u8, digits[2] as u8].as_slice())
}

// A full host refuses, and a removal frees its record for the next creation. Capacity 256.
pub(crate) fn reuse<B: Host>(rt: &impl Abort, host: &mut B) -> Result<(), Fail> {
    for i in 0..256 {
        assert_eq!(rt; number(host.mkdir(&numbered(i)?)), 0, "{}", i);
    }
    // From the front, the middle and the end.
    for i in [0, 128, 255] {
        assert_eq!(rt; number(host.rm(&numbered(i)?)), 0, "{}", i);
        assert_eq!(rt; number(host.mkdir(&numbered(i + 300)?)), 0, "{}", i);
        assert_eq!(rt; number(host.mkdir(&numbered(256)?)), 39, "{}", i);
        assert_eq!(rt; host.look(&numbered(i)?), Kind::Nothing, "{}", i);
    }
    let mut standing: u16 = 0;
    for i in 0..600 {
        if host.look(&numbered(i)?) == Kind::Directory {
            standing = standing.saturating_add(1);
        }
    }
    assert_eq!(rt; standing, 256);
    Ok(())
}

// One node at a time, again and again. Capacity 1.
pub(crate) fn one_node<B: Host>(rt: &impl Abort, host: &mut B) -> Result<(), Fail> {
    assert_eq!(rt; left(host), (1, 65535));
    for i in 0..20 {
        assert_eq!(rt; number(host.mkdir(&numbered(i)?)), 0, "{}", i);
        assert_eq!(rt; number(host.mkdir(&numbered(i + 1)?)), 39, "{}", i);
        assert_eq!(rt; number(host.rm(&numbered(i)?)), 0, "{}", i);
    }
    assert_eq!(rt; left(host), (1, 65495));
    Ok(())
}

// A chain as deep as a path can be, made from the top and removed from the bottom. Capacity 24.
pub(crate) fn deep<B: Host>(rt: &impl Abort, host: &mut B) -> Result<(), Fail> {
    let text = "/a/b/c/d/e/f/g/h/i/j/k/l/m/n/o/p/q/r/s/t/u/v/w/x".as_bytes();
    for i in 1..25 {
        let end: usize = 2 * i;
        assert!(rt; end <= text.len());
        let p = Path::try_from(&text[0..end])?;
        assert_eq!(rt; number(host.mkdir(&p)), 0, "{}", i);
        assert_eq!(rt; host.look(&p), Kind::Directory, "{}", i);
    }
    assert_eq!(rt; host.free(), 0);
    for i in 1..25 {
        let end: usize = 50 - 2 * i;
        assert!(rt; end <= text.len());
        let p = Path::try_from(&text[0..end])?;
        assert_eq!(rt; host.children(&p), 0, "{}", i);
        assert_eq!(rt; number(host.rm(&p)), 0, "{}", i);
    }
    assert_eq!(rt; host.free(), 24);
    Ok(())
}

// The next of a row of numbers without a pattern.
fn scrambled(x: u32) -> u32 {
    x.wrapping_mul(1_664_525).wrapping_add(1_013_904_223)
}

fn picked(x: u32) -> Result<Path, ValueFault> {
    let texts = ["/a", "/a/b", "/a/b/c", "/a-b", "/b", "/b/c", "/b/d", "/c"];
    Path::try_from(texts[(x >> 16) as usize % 8].as_bytes())
}

// One change out of the three, by a number.
fn any_change<B: Host>(host: &mut B, x: u32, p: &Path) -> Result<u8, ValueFault> {
    Ok(match (x >> 24) % 5 {
        0 | 1 => number(host.mkdir(p)),
        2 => number(host.creat(p, &Content::try_from(b"x".as_slice())?)),
        _ => number(host.rm(p)),
    })
}

// The same calls on two hosts with the same limits are answered alike, and leave the same.
pub(crate) fn agree<B: Host, C: Host>(
    rt: &impl Abort,
    one: &mut B,
    other: &mut C,
) -> Result<(), Fail> {
    let mut x = 1;
    for k in 0..500 {
        x = scrambled(x);
        let p = picked(x)?;
        assert_eq!(rt; any_change(one, x, &p)?, any_change(other, x, &p)?, "{}", k);
        let q = picked(scrambled(x))?;
        assert_eq!(rt; one.look(&q), other.look(&q), "{}", k);
        assert_eq!(rt; one.children(&q), other.children(&q), "{}", k);
        assert_eq!(rt; left(one), left(other), "{}", k);
    }
    Ok(())
}
