// Job frames, and the checks of what is in them.
use circuit::refusal::Refusal;
use circuit::sizes::Sizes;
use circuit::sort::Sort;
use claim::fault::Fault as Misreading;
use decide::fault::Fault;
use description::describe;
use description::fault::Fault as Misdescription;
use description::notice::Notice;
use description::part::Part;
use job::fault::Fault as Unframed;
use job::{LONGEST, VARIABLES, split};
use std::test::Fail;
use uses::fault::Fault as Uncalled;

// One register that follows one input, with the assumption `1` and the property `!s0`.
pub(crate) const JOB: [u8; 22] = [
    1, 0, 3, 0, 1, 0, 1, 0, 2, 0, 4, 0, 3, 0, 4, 0, 3, 0, b'1', b'!', b's', b'0',
];

// The sizes of a job's circuit, or the fault of the frame or of what is in it.
fn read(job: &[u8]) -> Result<Sizes, Fault> {
    let described = describe(split(job)?, VARIABLES).map_err(Uncalled::Description)?;
    Ok(described.circuit().sizes())
}

fn refused(fault: Misdescription) -> Result<Sizes, Fault> {
    Err(Fault::Call(Uncalled::Description(fault)))
}

#[test]
fn frames(rt: HostRuntime) {
    let sizes = Ok(Sizes {
        registers: 1,
        inputs: 1,
        gates: 2,
    });
    assert_eq!(rt; read(&JOB), sizes);
    for count in [0, 9, 10, 21] {
        assert_eq!(rt;
            read(&JOB[..count]),
            Err(Fault::Frame(Unframed::Length(count)))
        );
    }
    let mut job = JOB;
    job[2] = 2;
    assert_eq!(rt; read(&job), Err(Fault::Frame(Unframed::Length(22))));
    job[0] = 2;
    assert_eq!(rt;
        read(&job),
        refused(Misdescription::Assumption(Misreading::Claim(1)))
    );
    job[19] = b' ';
    assert_eq!(rt; read(&job), sizes);
    job[21] = b'9';
    assert_eq!(rt;
        read(&job),
        refused(Misdescription::Property(Misreading::Name(0)))
    );
    job[14] = 6;
    assert_eq!(rt;
        read(&job),
        refused(Misdescription::Circuit(Refusal::Wire(0)))
    );
    job[4] = 0;
    assert_eq!(rt;
        read(&job),
        refused(Misdescription::Circuit(Refusal::Size(Sort::Register)))
    );
}

// The most gates, and two texts of 512 bytes: `1` and spaces.
#[test]
fn longest_job(rt: HostRuntime) -> Result<(), Fail> {
    let mut job = vec![in rt.alloc(); 0; LONGEST]?;
    job[0..10].copy_from_slice(&[0, 2, 0, 2, 1, 0, 0, 0, 0, 4]);
    job[4106..5130].fill(b' ');
    job[4106] = b'1';
    job[4618] = b'1';
    assert_eq!(rt;
        read(&job),
        Ok(Sizes {
            registers: 1,
            inputs: 0,
            gates: 1024,
        })
    );
    job.push(b' ')?;
    assert_eq!(rt; read(&job), Err(Fault::Frame(Unframed::Length(5131))));
    Ok(())
}

#[test]
fn numbers(rt: HostRuntime) {
    let fault = Fault::Call(Uncalled::Description(Misdescription::Circuit(Refusal::Start(7))));
    assert_eq!(rt;
        fault.notice(),
        Notice {
            number: 6,
            part: Part::Circuit,
            place: 7,
        }
    );
    assert_eq!(rt;
        Unframed::Length(9).notice(),
        Notice {
            number: 2,
            part: Part::Job,
            place: 9,
        }
    );
}
