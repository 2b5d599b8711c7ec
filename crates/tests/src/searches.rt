//! Searches on watched and plain domains.
use domain::Domain;
use examples::sample_files;
use judge::course::Course;
use loading::any_domain::AnyDomain;
use search::entry::Entry;
use search::fault::SearchFault;
use search::least_costs::least_costs;
use std::alloc::Global;
use std::process::Abort;
use std::test::Fail;
use table::row::Row;
use tables::fault::TablesFault;
use tables::tables::Tables;
use watched::watched::Watched;

// The two least costs, found with so many rows. The plan that is shown is run, and has to cost the second, or the first where that is absent.
fn costs<D: Domain>(
    rt: &impl Abort,
    heap: Global,
    domain: &D,
    goal: u8,
    rows: usize,
) -> Result<Result<(Option<u32>, Option<u32>), SearchFault>, Fail> {
    let mut tables = Tables::take(heap, rows)?;
    let found = tables.least_costs(domain, goal);
    if let Ok((without, with)) = found {
        let plan = tables.plan();
        let course = Course::of(domain, plan);
        assert_eq!(rt; course.ran, plan.len());
        let shown = with.or(without).unwrap_or(0);
        assert_eq!(rt; course.cost, u128::from(shown));
    }
    Ok(found)
}

// The same of a search that is lent tables of a size that is no tables' own.
fn costs_in_lent<D: Domain>(
    heap: Global,
    domain: &D,
    goal: u8,
    rows: usize,
) -> Result<Result<(Option<u32>, Option<u32>), SearchFault>, Fail> {
    let mut table = vec![in heap; Row::default(); rows]?;
    let mut waiting = vec![in heap; Entry::default(); rows]?;
    let mut plan = vec![in heap; 0u8; rows]?;
    let found = least_costs(
        domain,
        goal,
        table.as_mut_slice(),
        waiting.as_mut_slice(),
        plan.as_mut_slice(),
    );
    Ok(found.map(|(costs, _)| costs))
}

fn noted<D: Domain + Drop>(domain: D, log: &[u8]) -> Result<Watched<D>, Fail> {
    let mut watched = Watched::new(domain);
    for action in log {
        watched.add_entry(*action)?;
    }
    Ok(watched)
}

#[test]
fn logs_on_the_card(rt: HostRuntime) -> Result<(), Fail> {
    let heap = rt.alloc();
    let files = sample_files();
    for (file, log, goal, found) in [
        (&files.calibration, &[] as &[u8], 2, (Some(7), Some(7))),
        (&files.calibration, &[1], 1, (Some(4), Some(5))),
        (&files.calibration, &[0], 0, (Some(3), Some(4))),
        (&files.calibration, &[4], 0, (Some(3), Some(3))),
        (&files.calibration, &[1, 1], 0, (Some(3), Some(4))),
        (&files.marked, &[4, 1], 0, (Some(3), Some(4))),
        (&files.marked, &[4], 0, (None, None)),
    ] {
        let watched = noted(AnyDomain::read(heap, file)?, log)?;
        assert_eq!(rt; costs(&rt, heap, &watched, goal, 64)?, Ok(found));
    }
    Ok(())
}

#[test]
fn logs_on_the_map(rt: HostRuntime) -> Result<(), Fail> {
    let heap = rt.alloc();
    for (entry, goal, rows, found) in [
        (2, 0, 64, Ok((Some(4), Some(4)))),
        (0, 1, 64, Ok((Some(2), None))),
        (0, 2, 64, Ok((None, None))),
        (0, 0, 6, Ok((Some(4), Some(4)))),
        (0, 0, 5, Err(SearchFault::Rows)),
        (0, 2, 5, Err(SearchFault::Rows)),
    ] {
        let watched = noted(AnyDomain::read(heap, &sample_files().slews)?, &[entry])?;
        assert_eq!(rt; costs(&rt, heap, &watched, goal, rows)?, found);
    }
    Ok(())
}

#[test]
fn lent_tables_of_no_size(rt: HostRuntime) -> Result<(), Fail> {
    let heap = rt.alloc();
    let watched = noted(AnyDomain::read(heap, &sample_files().slews)?, &[0])?;
    for (goal, rows, fault) in [
        (0, 0, SearchFault::Tables),
        (0, 4097, SearchFault::Tables),
        (3, 0, SearchFault::Goal),
    ] {
        assert_eq!(rt; costs_in_lent(heap, &watched, goal, rows)?, Err(fault));
    }
    Ok(())
}

// Memory for tables can be had, and only so many rows are given.
#[test]
fn tables_are_taken(rt: HostRuntime) -> Result<(), Fail> {
    for (rows, taken) in [
        (0, Err(TablesFault::Rows)),
        (1, Ok(0)),
        (4096, Ok(0)),
        (4097, Err(TablesFault::Rows)),
    ] {
        let tables = Tables::take(rt.alloc(), rows);
        assert_eq!(rt; tables.map(|tables| tables.plan().len()), taken);
    }
    Ok(())
}
