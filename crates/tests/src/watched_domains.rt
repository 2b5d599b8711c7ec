//! Watched domains over cards, and over each other.
use domain::Domain;
use domain::fault::LogFault;
use examples::sample_files;
use loading::any_domain::AnyDomain;
use loading::fault::LoadFault;
use std::alloc::Global;
use std::test::Fail;
use watched::watched::Watched;

// A card with one action, which needs and changes nothing, and one goal, which is always met.
fn plain_card(heap: Global, fluents: u8) -> Result<AnyDomain, LoadFault> {
    AnyDomain::read(heap, &[0x53, fluents, 1, 1, 0, 0, 0, 0, 0, 0, 0, 0, 0])
}

// Five bits more for a log over at most 55; above that the log stays empty.
#[test]
fn widths(rt: HostRuntime) -> Result<(), Fail> {
    for (fluents, inner_width, outer_width, noted) in [
        (50, 55, 60, Ok(())),
        (51, 56, 56, Err(LogFault::Width)),
        (55, 60, 60, Err(LogFault::Width)),
    ] {
        let mut inner = Watched::new(plain_card(rt.alloc(), fluents)?);
        assert_eq!(rt; inner.width(), inner_width);
        assert_eq!(rt; inner.add_entry(0), Ok(()));
        let mut outer = Watched::new(inner);
        assert_eq!(rt; outer.width(), outer_width);
        assert_eq!(rt; outer.add_entry(0), noted);
        assert_eq!(rt; outer.width(), outer_width);
    }
    Ok(())
}

// The twentieth entry is taken and the next is not, and so down to the empty log.
#[test]
fn twenty_entries(rt: HostRuntime) -> Result<(), Fail> {
    let mut watched = Watched::new(plain_card(rt.alloc(), 1)?);
    assert_eq!(rt; watched.add_entry(1), Err(LogFault::Action));
    for _ in 0..20 {
        assert_eq!(rt; watched.add_entry(0), Ok(()));
    }
    assert_eq!(rt; watched.add_entry(0), Err(LogFault::Full));
    assert_eq!(rt; watched.log().len(), 20);
    for _ in 0..20 {
        assert_eq!(rt; watched.drop_entry(), Ok(()));
    }
    assert_eq!(rt; watched.drop_entry(), Err(LogFault::Empty));
    assert_eq!(rt; watched.log().len(), 0);
    Ok(())
}

// Two logs on the calibration card: lamp on twice below, lamp off above. A state is fluents + 32 * inner + 1024 * outer.
#[test]
fn stack_of_two(rt: HostRuntime) -> Result<(), Fail> {
    let files = sample_files();
    let mut inner = Watched::new(AnyDomain::read(rt.alloc(), &files.calibration)?);
    assert_eq!(rt; inner.add_entry(1), Ok(()));
    assert_eq!(rt; inner.add_entry(1), Ok(()));
    let mut outer = Watched::new(inner);
    assert_eq!(rt; outer.add_entry(4), Ok(()));
    let mut state = outer.start();
    assert_eq!(rt; state, 1);
    for (action, next, complete) in [
        (1, 1 + 2 + 32, false),
        (4, 1 + 32 + 1024, false),
        (2, 1 + 32 + 1024, false),
        (1, 1 + 2 + 64 + 1024, true),
        (2, 1 + 2 + 8 + 64 + 1024, true),
        (4, 1 + 8 + 64 + 1024, true),
    ] {
        state = outer.next(state, action);
        assert_eq!(rt; state, next);
        assert_eq!(rt; outer.complete(state), complete);
    }
    assert_eq!(rt; outer.meets(state, 0), true);
    assert_eq!(rt; outer.meets(state, 1), false);
    Ok(())
}
