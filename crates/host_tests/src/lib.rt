// What every host has to answer, played on each make of host.
#![tactic(auto)]

#[cfg(test)]
mod journals;
#[cfg(test)]
mod scenes;

#[cfg(test)]
mod tests {
    use crate::{journals, scenes};
    use host::{Limits, OpenFault};
    use linked_host::LinkedHost;
    use std::alloc::Global;
    use std::test::*;
    use table_host::TableHost;

    // The number that an opening is refused with, and 0 where it is taken.
    fn opening<B: Drop>(r: Result<B, OpenFault>) -> u8 {
        match r {
            Ok(_) => 0,
            Err(fault) => fault.number().unwrap_or(255),
        }
    }

    #[test]
    fn capacities(rt: HostRuntime) -> Result<(), Fail> {
        for (capacity, number) in [(0, 34), (1, 0), (256, 0), (257, 34), (65535, 34)] {
            assert_eq!(rt; opening(table(&rt, capacity, 7)), number, "{}", capacity);
            assert_eq!(rt; opening(linked(&rt, capacity, 7)), number, "{}", capacity);
        }
        Ok(())
    }

    fn opened<B, F: FnOnce(Global, Limits) -> Result<B, OpenFault>>(
        rt: &HostRuntime,
        make: F,
        capacity: u16,
        allowance: u16,
    ) -> Result<B, OpenFault>
        requires { F.IsAlwaysCallable make }
    {
        make(
            rt.alloc(),
            Limits {
                capacity,
                allowance,
            },
        )
    }

    fn table(rt: &HostRuntime, capacity: u16, allowance: u16) -> Result<TableHost, OpenFault> {
        opened(rt, TableHost::open, capacity, allowance)
    }

    fn linked(rt: &HostRuntime, capacity: u16, allowance: u16) -> Result<LinkedHost, OpenFault> {
        opened(rt, LinkedHost::open, capacity, allowance)
    }

    #[test]
    fn table_refusals(rt: HostRuntime) -> Result<(), Fail> {
        scenes::refusals(&rt, &mut table(&rt, 3, 5)?)?;
        scenes::exhausted(&rt, &mut table(&rt, 2, 1)?)
    }

    #[test]
    fn table_questions(rt: HostRuntime) -> Result<(), Fail> {
        scenes::questions(&rt, &mut table(&rt, 8, 20)?)
    }

    #[test]
    fn table_reuse(rt: HostRuntime) -> Result<(), Fail> {
        scenes::reuse(&rt, &mut table(&rt, 256, 65535)?)?;
        scenes::one_node(&rt, &mut table(&rt, 1, 65535)?)
    }

    #[test]
    fn table_depth(rt: HostRuntime) -> Result<(), Fail> {
        scenes::deep(&rt, &mut table(&rt, 24, 48)?)
    }

    #[test]
    fn journal_is_a_host(rt: HostRuntime) -> Result<(), Fail> {
        scenes::refusals(&rt, &mut journals::opened(&rt, table(&rt, 3, 5)?)?)?;
        scenes::exhausted(&rt, &mut journals::opened(&rt, table(&rt, 2, 1)?)?)?;
        scenes::questions(&rt, &mut journals::opened(&rt, table(&rt, 8, 20)?)?)?;
        scenes::deep(&rt, &mut journals::opened(&rt, table(&rt, 24, 48)?)?)
    }

    #[test]
    fn journal_limits(rt: HostRuntime) -> Result<(), Fail> {
        journals::most_held(&rt, table(&rt, 4, 1000)?)?;
        journals::few_allowed(&rt, table(&rt, 4, 2)?)
    }

    #[test]
    fn journal_ends(rt: HostRuntime) -> Result<(), Fail> {
        journals::ends(&rt, table(&rt, 4, 20)?)?;
        journals::nested(&rt, table(&rt, 4, 20)?)
    }

    #[test]
    fn journal_agrees(rt: HostRuntime) -> Result<(), Fail> {
        let mut journal = journals::opened(&rt, table(&rt, 5, 300)?)?;
        scenes::agree(&rt, &mut table(&rt, 5, 300)?, &mut journal)
    }

    #[test]
    fn linked_refusals(rt: HostRuntime) -> Result<(), Fail> {
        scenes::refusals(&rt, &mut linked(&rt, 3, 5)?)?;
        scenes::exhausted(&rt, &mut linked(&rt, 2, 1)?)?;
        scenes::questions(&rt, &mut linked(&rt, 8, 20)?)
    }

    #[test]
    fn linked_reuse(rt: HostRuntime) -> Result<(), Fail> {
        scenes::reuse(&rt, &mut linked(&rt, 256, 65535)?)?;
        scenes::one_node(&rt, &mut linked(&rt, 1, 65535)?)?;
        scenes::deep(&rt, &mut linked(&rt, 24, 48)?)
    }

    #[test]
    fn linked_journals(rt: HostRuntime) -> Result<(), Fail> {
        journals::most_held(&rt, linked(&rt, 4, 1000)?)?;
        journals::ends(&rt, linked(&rt, 4, 20)?)?;
        journals::nested(&rt, linked(&rt, 4, 20)?)
    }

    #[test]
    fn makes_agree(rt: HostRuntime) -> Result<(), Fail> {
        scenes::agree(&rt, &mut table(&rt, 5, 400)?, &mut linked(&rt, 5, 400)?)?;
        let mut journal = journals::opened(&rt, linked(&rt, 5, 300)?)?;
        scenes::agree(&rt, &mut table(&rt, 5, 300)?, &mut journal)
    }
}
