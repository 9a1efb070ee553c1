// Texts of claims, each with what comes of it.
#![tactic(auto)]

#[cfg(test)]
mod tests {
    use arrayvec::ArrayVec;
    use circuit::sizes::Sizes;
    use claim::code::*;
    use claim::fault::Fault;
    use claim::fault::Fault::{Claim, Deep, Name};
    use claim::*;
    use std::array;
    use std::test::Fail;

    const SIZES: Sizes = Sizes {
        registers: 8,
        inputs: 1,
        gates: 11,
    };

    // The count of codes, or the fault.
    fn outcome(text: &[u8]) -> Result<usize, Fault> {
        Ok(read(text, SIZES)?.codes().len())
    }

    const TEXTS: [(&str, Result<usize, Fault>); 81] = [
        // Atoms and spaces.
        ("0", Ok(1)),
        ("1", Ok(1)),
        ("s0", Ok(1)),
        ("v0", Ok(1)),
        ("g0", Ok(1)),
        ("  s0  ", Ok(1)),
        (" ( s0 & ! v0 ) ", Ok(4)),
        ("", Err(Claim(0))),
        ("   ", Err(Claim(3))),
        ("\ts0", Err(Claim(0))),
        ("s0\t", Err(Claim(2))),
        ("s0\n", Err(Claim(2))),
        // Numbers.
        ("s7", Ok(1)),
        ("s8", Err(Name(0))),
        ("v1", Err(Name(0))),
        ("g10", Ok(1)),
        ("g11", Err(Name(0))),
        ("s00", Err(Claim(0))),
        ("s01", Err(Claim(0))),
        ("s0000000", Err(Claim(0))),
        ("s65536", Err(Name(0))),
        ("s4294967296", Err(Name(0))),
        ("s340282366920938463463374607431768211456", Err(Name(0))),
        ("s", Err(Claim(0))),
        ("s0 & v", Err(Claim(5))),
        ("s 0", Err(Claim(0))),
        ("s-1", Err(Claim(0))),
        ("s0s0", Err(Claim(2))),
        ("s0x", Err(Claim(2))),
        ("00", Err(Claim(1))),
        ("01", Err(Claim(1))),
        ("10", Err(Claim(1))),
        ("2", Err(Claim(0))),
        ("9", Err(Claim(0))),
        // Bytes that begin no token.
        ("S0", Err(Claim(0))),
        ("x0", Err(Claim(0))),
        ("s0 = 1", Err(Claim(3))),
        ("s0 & #", Err(Claim(5))),
        // Operators and brackets.
        ("s0&v0", Ok(3)),
        ("s0|v0", Ok(3)),
        ("s0&v0&g0", Ok(5)),
        ("s0|v0|g0", Ok(5)),
        ("s0|v0&g0", Ok(5)),
        ("!s0", Ok(2)),
        ("!!s0", Ok(3)),
        ("(s0)", Ok(1)),
        ("((s0))", Ok(1)),
        ("!(s0&v0)", Ok(4)),
        ("& s0", Err(Claim(0))),
        ("| s0", Err(Claim(0))),
        ("s0 &", Err(Claim(4))),
        ("s0 | ", Err(Claim(5))),
        ("s0 && v0", Err(Claim(4))),
        ("s0 || v0", Err(Claim(4))),
        ("s0 & | v0", Err(Claim(5))),
        ("s0 v0", Err(Claim(3))),
        ("s0 !v0", Err(Claim(3))),
        ("s0 (v0)", Err(Claim(3))),
        ("s0 1", Err(Claim(3))),
        ("!", Err(Claim(1))),
        ("!&", Err(Claim(1))),
        (")", Err(Claim(0))),
        ("()", Err(Claim(1))),
        ("(s0", Err(Claim(3))),
        ("(s0 ", Err(Claim(4))),
        ("(s0 &)", Err(Claim(5))),
        ("s0)", Err(Claim(2))),
        ("(s0))", Err(Claim(4))),
        ("(s0)(v0)", Err(Claim(4))),
        // Which fault comes first.
        ("s0 s9", Err(Claim(3))),
        ("s9 s0", Err(Name(0))),
        ("s0 & g11 )", Err(Name(5))),
        ("s9 & s00", Err(Name(0))),
        // How deep.
        ("!!!!!!!!!!!!!!!!s0", Ok(17)),
        ("!!!!!!!!!!!!!!!!!s0", Err(Deep(16))),
        ("((((((((((((((((s0))))))))))))))))&(s0)", Ok(3)),
        ("(((((((((((((((((s0)))))))))))))))))", Err(Deep(16))),
        ("!(!(!(!(!(!(!(!(s0|v0))))))))&!!!!!!!!!!!!!!!!s0", Ok(29)),
        ("!(!(!(!(!(!(!(!(s0|!v0))))))))", Err(Deep(19))),
        ("!!!!!!!!!!!!!!!!!)", Err(Deep(16))),
        ("((((((((((((((((s0(", Err(Claim(18))),
    ];

    #[test]
    fn texts(rt: HostRuntime) {
        for (text, want) in TEXTS {
            assert_eq!(rt; outcome(text.as_bytes()), want, "{}", text);
        }
    }

    #[test]
    fn bytes(rt: HostRuntime) {
        assert_eq!(rt; outcome(b"\0"), Err(Claim(0)));
        assert_eq!(rt; outcome(b"\xff"), Err(Claim(0)));
        assert_eq!(rt; outcome(b"s0\0"), Err(Claim(2)));
        assert_eq!(rt; outcome(b"s\xb0"), Err(Claim(0)));
        assert_eq!(rt; outcome(b"s0 \xa0"), Err(Claim(3)));
    }

    #[test]
    fn faults(rt: HostRuntime) {
        let faults = [Claim(3), Name(4), Deep(5)];
        assert_eq!(rt; faults.map(Fault::number), [7, 8, 9]);
        assert_eq!(rt; faults.map(Fault::place), [3, 4, 5]);
    }

    // 1&1&1 and so on.
    fn ands() -> [u8; 513] {
        array::from_fn(|i| if i % 2 == 0 { b'1' } else { b'&' })
    }

    #[test]
    fn lengths(rt: HostRuntime) {
        assert_eq!(rt; outcome(&[b'!'; 513]), Err(Claim(512)));
        let mut text = ands();
        // Ranges from 0: of those to an end alone, `slice_bounds` stayed open.
        assert_eq!(rt; outcome(&text), Err(Claim(512)));
        assert_eq!(rt; outcome(&text[0..512]), Err(Claim(512)));
        assert_eq!(rt; outcome(&text[0..511]), Ok(511));
        text[511] = b' ';
        assert_eq!(rt; outcome(&text[0..512]), Ok(511));
        text[511] = b')';
        assert_eq!(rt; outcome(&text[0..512]), Err(Claim(511)));
    }

    // The acts and places of a claim that has them all.
    const CODES: [(Act, u16); 12] = [
        (Act::Name(Sort::Register, 7), 1),
        (Act::Name(Sort::Input, 0), 9),
        (Act::Name(Sort::Gate, 10), 12),
        (Act::Or, 11),
        (Act::Not, 6),
        (Act::And, 4),
        (Act::Constant(false), 19),
        (Act::And, 17),
        (Act::Constant(true), 23),
        (Act::Name(Sort::Register, 0), 25),
        (Act::And, 24),
        (Act::Or, 21),
    ];

    #[test]
    fn codes(rt: HostRuntime) -> Result<(), Fail> {
        let Ok(codes) = read(b" s7 & !( v0|g10) & 0 | 1&s0", SIZES) else {
            return Err(Fail::new("not read"));
        };
        let want = CODES.map(|(act, place)| Code { act, place });
        assert_eq!(rt; codes.codes(), want.as_slice());
        Ok(())
    }

    // The truth of a claim, given those of s0, v0 and g0; any other name is false. `None` if its codes are no tree's.
    fn truth(codes: &[Code], register: bool, input: bool, gate: bool) -> Option<bool> {
        let mut operands = ArrayVec::<bool, LONGEST>::new();
        for code in codes {
            let value = match code.act {
                Act::Constant(value) => value,
                Act::Name(Sort::Register, 0) => register,
                Act::Name(Sort::Input, 0) => input,
                Act::Name(Sort::Gate, 0) => gate,
                Act::Name(..) => false,
                Act::Not => !operands.pop()?,
                Act::And => operands.pop()? & operands.pop()?,
                Act::Or => operands.pop()? | operands.pop()?,
            };
            operands.try_push(value).ok()?;
        }
        let answer = operands.pop()?;
        operands.is_empty().then_some(answer)
    }

    // A text, the truths of s0, v0 and g0, and that of the claim; g1 is missing.
    const TRUTHS: [(&str, bool, bool, bool, bool); 17] = [
        ("0", true, true, true, false),
        ("1", false, false, false, true),
        ("s0", true, false, false, true),
        ("v0", true, false, true, false),
        ("g0", false, false, true, true),
        ("g1", true, true, true, false),
        ("!g1", true, true, true, true),
        ("s0 & v0", true, false, false, false),
        ("s0 | v0", true, false, false, true),
        ("s0 | v0 & g0", true, false, false, true),
        ("(s0 | v0) & g0", true, false, false, false),
        ("v0 & g0 | s0", true, false, false, true),
        ("!s0 & v0", true, false, false, false),
        ("!(s0 & v0)", true, false, false, true),
        ("!s0 | v0", true, false, false, false),
        ("!(s0 | !v0)", false, true, false, true),
        ("s0 & !v0 & !!g0", true, false, true, true),
    ];

    #[test]
    fn truths(rt: HostRuntime) -> Result<(), Fail> {
        for (text, s, v, g, answer) in TRUTHS {
            let Ok(codes) = read(text.as_bytes(), SIZES) else {
                return Err(Fail::new(text));
            };
            assert_eq!(rt; truth(codes.codes(), s, v, g), Some(answer), "{}", text);
        }
        Ok(())
    }
}
