// Strips as text: what is no line of one, the bytes of those that are, and why others have none.
use crate::cases::{is_case, read_case};
use std::alloc::{AllocError, Global};
use std::test::Fail;

#[test]
fn a_blank_line_and_a_remark_have_no_strip(rt: HostRuntime) {
    assert!(rt; !is_case(""));
    assert!(rt; !is_case("   "));
    assert!(rt; !is_case("# a remark"));
    assert!(rt; !is_case("  #"));
    assert!(rt; is_case("empty"));
    assert!(rt; is_case("  70000000"));
}

#[test]
fn a_strip_has_the_bytes_of_its_parts(rt: HostRuntime) -> Result<(), Fail> {
    let cases: [(&str, &[u8]); 4] = [
        ("empty", &[]),
        ("0aFF", &[10, 255]),
        ("00 repeat 0102 3 ff", &[0, 1, 2, 1, 2, 1, 2, 255]),
        ("repeat 07 0", &[]),
    ];
    for (line, wanted) in cases {
        match read_case(rt.alloc(), line) {
            Ok(bytes) => assert_eq!(rt; bytes.as_slice(), wanted),
            Err(_) => assert!(rt; false),
        }
    }
    Ok(())
}

// Why a line has no strip.
fn why(heap: Global, line: &str) -> Result<String, AllocError> {
    match read_case(heap, line) {
        Ok(_) => String::from_str(heap, "nothing"),
        Err(error) => error.to_string(heap),
    }
}

#[test]
fn a_line_that_has_no_strip_says_why(rt: HostRuntime) -> Result<(), Fail> {
    let table = [
        ("repeat 00 1048576", "nothing"),
        ("repeat 00 1048577", "1048577 times is too often"),
        (
            "repeat 00",
            "digits and a number have to follow the word repeat",
        ),
        (
            "00 repeat",
            "digits and a number have to follow the word repeat",
        ),
        ("repeat 00 often", "often does not say how many times"),
    ];
    for (line, wanted) in table {
        let told = why(rt.alloc(), line)?;
        assert_eq!(rt; told.as_str(), wanted);
    }
    Ok(())
}
