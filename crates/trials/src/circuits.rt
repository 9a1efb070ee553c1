// Circuit files at each bound of each check.
use circuit::read;
use circuit::refusal::Refusal;
use circuit::sizes::Sizes;
use circuit::sort::Sort;
use std::alloc::{AllocError, Global};
use std::test::Fail;

fn sizes(registers: u16, inputs: u16, gates: u16) -> Sizes {
    Sizes {
        registers,
        inputs,
        gates,
    }
}

// What is told of a file: its sizes, or why it is refused.
fn read_sizes(file: &[u8], width: u8) -> Result<Sizes, Refusal> {
    Ok(read(file, width)?.sizes())
}

// A file of these sizes and literals.
fn file_of(heap: Global, sizes: Sizes, literals: &[u16]) -> Result<Vec<u8>, AllocError> {
    let mut file = Vec::new(heap);
    let numbers = [sizes.registers, sizes.inputs, sizes.gates];
    for number in numbers.iter().chain(literals) {
        file.extend_from_slice(&number.to_le_bytes())?;
    }
    Ok(file)
}

// A file of these sizes with `gates` gates, each the and of line 0 with itself.
fn plain(heap: Global, sizes: Sizes, gates: u16) -> Result<Vec<u8>, AllocError> {
    let literals = vec![in heap; 0; 2 * usize::from(gates)]?;
    file_of(heap, sizes, &literals)
}

#[test]
fn sizes_are_bounded(rt: HostRuntime) -> Result<(), Fail> {
    let table = [
        (sizes(0, 0, 1), 1, Err(Refusal::Size(Sort::Register))),
        (sizes(1, 0, 2), 2, Ok(sizes(1, 0, 2))),
        (sizes(8, 8, 9), 9, Ok(sizes(8, 8, 9))),
        (sizes(9, 0, 10), 10, Err(Refusal::Size(Sort::Register))),
        (sizes(8, 9, 9), 9, Err(Refusal::Size(Sort::Input))),
        (sizes(2, 0, 2), 2, Err(Refusal::Size(Sort::Gate))),
        (sizes(2, 0, 3), 3, Ok(sizes(2, 0, 3))),
        (sizes(2, 0, 1024), 1024, Ok(sizes(2, 0, 1024))),
        (sizes(2, 0, 1025), 1025, Err(Refusal::Size(Sort::Gate))),
        (
            sizes(65535, 65535, 65535),
            0,
            Err(Refusal::Size(Sort::Register)),
        ),
    ];
    for (sizes, gates, told) in table {
        let file = plain(rt.alloc(), sizes, gates)?;
        assert_eq!(rt; read_sizes(&file, 24), told);
    }
    Ok(())
}

#[test]
fn lengths_and_widths(rt: HostRuntime) -> Result<(), Fail> {
    assert_eq!(rt; read_sizes(&[], 24), Err(Refusal::Length(0)));
    assert_eq!(rt; read_sizes(&[1, 0, 0, 0, 2], 24), Err(Refusal::Length(5)));
    assert_eq!(rt;
        read_sizes(&[1, 0, 0, 0, 2, 0], 24),
        Err(Refusal::Length(6))
    );
    let mut file = plain(rt.alloc(), sizes(3, 2, 4), 4)?;
    assert_eq!(rt; read_sizes(&file, 7), Err(Refusal::Width(8)));
    assert_eq!(rt; read_sizes(&file, 8), Ok(sizes(3, 2, 4)));
    let circuit = read(&file, 8)?;
    assert_eq!(rt;
        (circuit.registers(), circuit.inputs(), circuit.gates().len()),
        (3, 2, 4)
    );
    file.push(0)?;
    assert_eq!(rt; read_sizes(&file, 0), Err(Refusal::Length(23)));
    file.truncate(21);
    assert_eq!(rt; read_sizes(&file, 24), Err(Refusal::Length(21)));
    Ok(())
}

#[test]
fn wires_and_start(rt: HostRuntime) -> Result<(), Fail> {
    // One register, one input, gates on lines 3 to 5: the left literals, then the right ones.
    let sizes = sizes(1, 1, 3);
    let table: [([u16; 6], _); 9] = [
        ([4, 4, 2, 5, 2, 3], Ok(sizes)),
        ([6, 0, 0, 0, 0, 0], Err(Refusal::Wire(0))),
        ([0, 0, 0, 7, 0, 0], Err(Refusal::Wire(0))),
        ([0, 0, 10, 0, 0, 0], Err(Refusal::Wire(2))),
        ([0, 0, 0, 0, 0, 65535], Err(Refusal::Wire(2))),
        ([0, 8, 10, 0, 0, 0], Err(Refusal::Wire(1))),
        ([0, 0, 4, 0, 0, 0], Err(Refusal::Start(2))),
        ([5, 7, 0, 0, 0, 9], Err(Refusal::Start(2))),
        ([5, 2, 2, 0, 3, 8], Ok(sizes)),
    ];
    for (literals, told) in table {
        let file = file_of(rt.alloc(), sizes, &literals)?;
        assert_eq!(rt; read_sizes(&file, 24), told);
    }
    Ok(())
}
