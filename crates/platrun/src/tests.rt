// The lines for what keeps a job from being run.
use crate::WORDS;
use std::test::Fail;
use texts::fault::{JobFault, ToldJobFault};
use texts::input::InputFault;

#[test]
fn each_fault_has_its_line(rt: HostRuntime) -> Result<(), Fail> {
    let table = [
        (
            JobFault::Input(InputFault::NoText),
            "the strip cannot be read",
        ),
        (
            JobFault::Input(InputFault::Unread),
            "the strip cannot be read",
        ),
        (
            JobFault::Input(InputFault::Memory),
            "there is not enough memory",
        ),
        (JobFault::Unwritten, "the listing cannot be written"),
        (JobFault::Memory, "there is not enough memory"),
    ];
    for (fault, wanted) in table {
        let told = ToldJobFault {
            fault,
            words: WORDS,
        };
        let line = told.to_string(rt.alloc())?;
        assert_eq!(rt; line.as_str(), wanted);
    }
    Ok(())
}
