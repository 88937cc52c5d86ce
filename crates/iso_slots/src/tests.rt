use crate::{logs, records, slots, tables, units};
use iso_log::LogFault;
use iso_types::Memory;
use std::process::Abort;

#[test]
fn a_table(rt: HostRuntime) {
    assert!(rt; tables::counts_its_slots(rt.alloc()) == Ok(true));
    assert!(rt; tables::keeps_what_is_written(rt.alloc()) == Ok(true));
    assert!(rt; tables::has_its_limit(rt.alloc()) == Ok(true));
}

#[test]
fn a_log(rt: HostRuntime) {
    assert!(rt; logs::appends_in_reserve(rt.alloc()) == Ok(true));
}

#[test]
fn records_of_each_kind(rt: HostRuntime) {
    assert!(rt; records::finds_old_values(rt.alloc()) == Ok(true));
    assert!(rt; records::undoes_each_kind(rt.alloc()) == Ok(true));
    assert!(rt; records::undoes_an_update(rt.alloc()) == Ok(true));
}

#[test]
fn a_slot(rt: HostRuntime) {
    assert!(rt; slots::follows_its_chain(rt.alloc()) == Ok(true));
}

#[test]
fn whole_units(rt: HostRuntime) {
    assert!(rt; units::ends_with_a_commit(rt.alloc()) == Ok(true));
    assert!(rt; units::takes_all_back(rt.alloc()) == Ok(true));
    assert!(rt; units::is_kept_by_its_pin(rt.alloc()) == Ok(true));
}

#[test]
fn changes_past_the_log(rt: HostRuntime) {
    assert!(rt; units::refuses_the_first(rt.alloc()) == Ok(true));
    assert!(rt; units::refuses_the_next(rt.alloc()) == Ok(true));
}
