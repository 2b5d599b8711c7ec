//! Domains of both kinds, loaded from their files.
use domain::Domain;
use domain::fault::{Position, ReadFault};
use examples::sample_files;
use loading::any_domain::AnyDomain;
use loading::fault::LoadFault;
use std::test::Fail;

// Memory for a domain can be had, and each kind is read as what it is and written again.
#[test]
fn both_kinds_are_loaded(rt: HostRuntime) -> Result<(), Fail> {
    let heap = rt.alloc();
    let files = sample_files();
    for (file, is_map, width) in [
        (&files.calibration as &[u8], false, 5),
        (&files.slews, true, 6),
    ] {
        let domain = AnyDomain::read(heap, file)?;
        assert_eq!(rt; matches!(domain, AnyDomain::Map(_)), is_map);
        assert_eq!(rt; domain.width(), width);
        let mut again = vec![in heap; 0u8; file.len()]?;
        assert_eq!(rt; domain.write(again.as_mut_slice()), Ok(file.len()));
        assert_eq!(rt; again.as_slice(), file);
    }
    Ok(())
}

#[test]
fn other_letters_are_refused(rt: HostRuntime) -> Result<(), Fail> {
    let fault = LoadFault::Read(ReadFault::Letter(Position { record: 0, byte: 0 }));
    for file in [&[] as &[u8], b"F", b"m"] {
        let domain = AnyDomain::read(rt.alloc(), file);
        assert_eq!(rt; domain.map(|domain| domain.width()), Err(fault));
    }
    Ok(())
}
