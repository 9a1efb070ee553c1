// Jobs from their bytes to the text of the report.
use crate::jobs::JOB;
use decide::report_on;
use diagram::Diagram;
use nodes::Node;
use std::alloc::{AllocError, Global};
use std::process::Abort;
use std::test::Fail;

// The text of the report on a job, in a store of so many records.
fn text_of(heap: Global, job: &[u8], records: usize) -> Result<String, AllocError> {
    let mut nodes = vec![in heap; Node::default(); records]?;
    let mut links = vec![in heap; 0; records]?;
    let (report, _) = report_on(job, Diagram::new(24, &mut nodes, &mut links));
    format!(in heap; "{report}")
}

// Whether a job of which these bytes are changed gets this report.
fn reports(rt: &impl Abort, heap: Global, changes: &[(usize, u8)], text: &str) -> Result<(), Fail> {
    let mut job = JOB.to_vec(heap)?;
    for (place, byte) in changes {
        if let Some(at) = job.get_mut(*place) {
            *at = *byte;
        }
    }
    assert_eq!(rt; text_of(heap, &job, 100)?.as_str(), text);
    Ok(())
}

#[test]
fn searches(rt: HostRuntime) -> Result<(), Fail> {
    let heap = rt.alloc();
    let unsafe_text =
        "registers 1 inputs 1 gates 2\nverdict unsafe\ndepth 1\n0 0 1\n1 1 0\naccepted 0\n";
    reports(&rt, heap, &[], unsafe_text)?;
    // The property ` s0` fails at once.
    reports(
        &rt,
        heap,
        &[(19, b' ')],
        "registers 1 inputs 1 gates 2\nverdict unsafe\ndepth 0\n0 0 0\naccepted 0\n",
    )?;
    // The assumption `0` permits nothing.
    reports(
        &rt,
        heap,
        &[(18, b'0')],
        "registers 1 inputs 1 gates 2\nverdict safe\ndepth 1\ninside 2\naccepted 1\n",
    )?;
    // Gate 0 takes over the negated input.
    reports(
        &rt,
        heap,
        &[(10, 5), (14, 5)],
        "registers 1 inputs 1 gates 2\nverdict unsafe\ndepth 1\n0 0 0\n1 1 0\naccepted 0\n",
    )
}

#[test]
fn refusals(rt: HostRuntime) -> Result<(), Fail> {
    let heap = rt.alloc();
    let table: [(&[(usize, u8)], &str); 8] = [
        (&[(2, 2)], "2 part 0 place 22"),
        (&[(4, 0)], "3 part 1 place 0"),
        (&[(4, 9)], "3 part 1 place 0"),
        (&[(10, 6)], "5 part 1 place 0"),
        (&[(12, 4)], "6 part 1 place 1"),
        (&[(18, b'!')], "7 part 2 place 1"),
        (&[(0, 2), (2, 2)], "7 part 2 place 1"),
        (&[(21, b'9')], "8 part 3 place 1"),
    ];
    for (changes, refusal) in table {
        let text = format!(in heap; "refused {refusal}\naccepted 0\n")?;
        reports(&rt, heap, changes, text.as_str())?;
    }
    Ok(())
}

#[test]
fn refused_frames(rt: HostRuntime) -> Result<(), Fail> {
    let heap = rt.alloc();
    for count in [0, 9, 10, 21] {
        let text = text_of(heap, &JOB[..count], 100)?;
        let wanted = format!(in heap; "refused 2 part 0 place {count}\naccepted 0\n")?;
        assert_eq!(rt; text.as_str(), wanted.as_str());
    }
    assert_eq!(rt;
        text_of(heap, &JOB, 2)?.as_str(),
        "refused 10 part 1 place 0\naccepted 0\n"
    );
    Ok(())
}
