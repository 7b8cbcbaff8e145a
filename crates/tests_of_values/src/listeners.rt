//! What is printed of refusals of addresses.
use listener_set::AddressRefusal;
use std::alloc::{AllocError, Global};
use std::fmt::Display;
use std::test::Fail;

/// Whether the text of a refusal begins with its code.
fn is_printed<T: Display>(alloc: Global, refusal: &T, code: &str) -> Result<bool, AllocError> {
    Ok(refusal.to_string(alloc)?.starts_with(code))
}

#[test]
fn a_refusal_of_an_address_is_printed_with_its_code_first(rt: HostRuntime) -> Result<(), Fail> {
    for (refusal, code) in [
        (AddressRefusal::Empty, "A1"),
        (AddressRefusal::BadHost, "A2"),
        (AddressRefusal::BadPort, "A3"),
        (AddressRefusal::PathLong, "A4"),
        (AddressRefusal::BadPath, "A5"),
    ] {
        assert!(rt; refusal.code() == code, "{code}");
        assert!(rt; is_printed(rt.alloc(), &refusal, code)?, "{code}");
    }
    Ok(())
}
