// Scenes of a journal over any host.
use crate::scenes;
use host::{Host, Inspect};
use journal::Journal;
use std::process::Abort;
use std::test::*;
use values::{Content, Path};

pub(crate) fn opened<B: Host + Drop>(rt: &impl AllocGlobal, host: B) -> Result<Journal<B>, Fail> {
    match Journal::open(rt.alloc(), host) {
        Ok(journal) => Ok(journal),
        Err(_) => Err(Fail::new("no memory for a journal")),
    }
}

// 384 changes are held, and the next is refused by 40, whatever the host below allows. Capacity 4, allowance 1000.
pub(crate) fn most_held<B: Host + Drop>(
    rt: &(impl Abort + AllocGlobal),
    host: B,
) -> Result<(), Fail> {
    let mut journal = opened(rt, host)?;
    let p = Path::try_from(b"/a".as_slice())?;
    for i in 0..192 {
        assert_eq!(rt; scenes::number(journal.mkdir(&p)), 0, "{}", i);
        assert_eq!(rt; scenes::number(journal.rm(&p)), 0, "{}", i);
    }
    assert_eq!(rt; journal.held(), 384);
    assert_eq!(rt; scenes::number(journal.mkdir(&p)), 40);
    assert_eq!(rt; scenes::left(&journal), (4, 0));
    journal.commit();
    assert_eq!(rt; journal.held(), 0);
    assert_eq!(rt; scenes::left(&journal), (4, 384));
    assert_eq!(rt; scenes::left(&journal.into_below()), (4, 616));
    Ok(())
}

// The allowance below is the smaller one. Capacity 4, allowance 2.
pub(crate) fn few_allowed<B: Host + Drop>(
    rt: &(impl Abort + AllocGlobal),
    host: B,
) -> Result<(), Fail> {
    let mut journal = opened(rt, host)?;
    for (text, number, left) in [("/a", 0, 1), ("/b", 0, 0), ("/c", 40, 0)] {
        assert_eq!(rt;
            scenes::change(&mut journal, "mkdir", text)?,
            number,
            "{}",
            text
        );
        assert_eq!(rt; journal.allowance(), left, "{}", text);
    }
    assert_eq!(rt; scenes::left(&journal.into_below()), (4, 2));
    Ok(())
}

// What is discarded never was, and what is committed stands below. Capacity 4, allowance 20.
pub(crate) fn ends<B: Host + Drop>(rt: &(impl Abort + AllocGlobal), host: B) -> Result<(), Fail> {
    let mut journal = opened(rt, host)?;
    assert_eq!(rt; scenes::change(&mut journal, "mkdir", "/a")?, 0);
    assert_eq!(rt; scenes::change(&mut journal, "creat", "/a/f")?, 0);
    scenes::looks(rt, &journal, "/a directory\n/a/f file")?;
    journal.discard();
    scenes::looks(rt, &journal, "/a nothing\n/a/f nothing")?;
    assert_eq!(rt; scenes::left(&journal), (4, 20));
    assert_eq!(rt; scenes::change(&mut journal, "touch", "/a")?, 0);
    assert_eq!(rt; scenes::change(&mut journal, "rm", "/a")?, 0);
    assert_eq!(rt; scenes::change(&mut journal, "creat", "/a")?, 0);
    journal.commit();
    let below = journal.into_below();
    assert!(rt;
        below.holds(
            &Path::try_from(b"/a".as_slice())?,
            &Content::try_from(b"hi".as_slice())?
        )
    );
    assert_eq!(rt; scenes::left(&below), (3, 17));
    Ok(())
}

// A journal over a journal: what is committed above is held below. Capacity 4, allowance 20.
pub(crate) fn nested<B: Host + Drop>(rt: &(impl Abort + AllocGlobal), host: B) -> Result<(), Fail> {
    let mut outer = opened(rt, opened(rt, host)?)?;
    assert_eq!(rt; scenes::change(&mut outer, "mkdir", "/a")?, 0);
    assert_eq!(rt; scenes::change(&mut outer, "touch", "/a/f")?, 0);
    outer.commit();
    let mut inner = outer.into_below();
    assert_eq!(rt; inner.held(), 2);
    scenes::looks(rt, &inner, "/a directory\n/a/f file")?;
    inner.commit();
    let bottom = inner.into_below();
    scenes::looks(rt, &bottom, "/a directory\n/a/f file")?;
    assert_eq!(rt; scenes::left(&bottom), (2, 18));
    Ok(())
}
