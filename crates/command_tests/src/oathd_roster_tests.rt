//! The texts of the faults, and their exit statuses.

use floor_store::StoreFault;
use named_store::NamedFault;
use oathd_database::Fault;
use oathd_roster::RosterFault;
use program_edge::ProgramFault;
use std::alloc::Global;
use std::test::Fail;
use token_names::NamesFault;

/// Returns whether a fault has the text and the exit status.
fn is_told(alloc: Global, fault: RosterFault, text: &str, status: u8) -> Result<bool, Fail> {
    let told = format!(in alloc; "{fault}")?;
    Ok(told.as_str() == text && fault.status() == status)
}

#[test]
fn faults_are_told(rt: HostRuntime) -> Result<(), Fail> {
    let alloc = rt.alloc();
    assert!(rt; is_told(alloc, RosterFault::from(Fault::Memory), "out of memory", 1)?);
    let same = RosterFault::from(NamesFault::SameName { row: 3 });
    assert!(rt; is_told(alloc, same, "users: SameName 3", 1)?);
    let another = RosterFault::from(NamedFault::AnotherCluster);
    assert!(rt; is_told(alloc, another, "store: Unusable", 3)?);
    assert!(rt; is_told(alloc, RosterFault::from(NamedFault::Full), "store: Full", 3)?);
    let unusable = RosterFault::from(NamedFault::Store(StoreFault::Unusable));
    assert!(rt; is_told(alloc, unusable, "store: Unusable", 3)?);
    Ok(())
}
