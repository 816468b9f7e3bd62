//! Tests of names, refusals and their lines.
use lc_base::{Fault, Name, OutOfMemory, Refusal, code, is_name, refusal_line, write_line};
use std::alloc::Global;
use std::test::Fail;

/// Whether a refusal has this code and prints this line.
fn is_told(alloc: Global, refusal: &Refusal, number: u8, line: &str) -> Result<bool, OutOfMemory> {
    let written = refusal_line(alloc, refusal)?;
    Ok((code(refusal) == number) & (written.as_slice() == line.as_bytes()))
}

#[test]
fn codes_and_lines(rt: HostRuntime) -> Result<(), Fail> {
    let table = [
        (Refusal::Text(8), 1, "refused 1 8\n"),
        (Refusal::Shape(0), 2, "refused 2 0\n"),
        (Refusal::Unknown(14), 3, "refused 3 14\n"),
        (Refusal::Repeated(5), 4, "refused 4 5\n"),
        (Refusal::Auxiliary(213), 5, "refused 5 213\n"),
        (Refusal::Bound(13), 6, "refused 6 13\n"),
        (Refusal::CertText(42), 7, "refused 7 42\n"),
        (Refusal::CertShape(2), 8, "refused 8 2\n"),
        (Refusal::Missing(0), 9, "refused 9 0\n"),
        (
            Refusal::Extra(9223372036854775807),
            10,
            "refused 10 9223372036854775807\n",
        ),
        (Refusal::Proof(9, 0, 7), 11, "refused 11 9 0 7\n"),
        (Refusal::Large(0, 3), 12, "refused 12 0 3\n"),
        (Refusal::HistoryShape(1), 13, "refused 13 1\n"),
        (Refusal::Order(1, 3), 14, "refused 14 1 3\n"),
    ];
    for (refusal, number, line) in table {
        assert!(rt; is_told(rt.alloc(), &refusal, number, line)?, "{line}");
    }
    Ok(())
}

/// Whether a word and numbers are printed as this line.
fn is_line(alloc: Global, word: &str, numbers: &[u64], line: &str) -> Result<bool, OutOfMemory> {
    Ok(write_line(alloc, word, numbers)?.as_slice() == line.as_bytes())
}

#[test]
fn a_line_of_a_word_and_numbers(rt: HostRuntime) -> Result<(), Fail> {
    let with_number = is_line(
        rt.alloc(),
        "accepted counter",
        &[59],
        "accepted counter 59\n",
    )?;
    assert!(rt; with_number & is_line(rt.alloc(), "proved", &[], "proved\n")?);
    Ok(())
}

fn is_named(text: &str) -> bool {
    is_name(text.as_bytes()) & Name::new(text).is_some_and(|name| name.as_str() == text)
}

fn is_no_name(text: &str) -> bool {
    !is_name(text.as_bytes()) & Name::new(text).is_none()
}

#[test]
fn names(rt: HostRuntime) {
    for text in ["x", "_", "write-a", "b0", "Node.next", "pop_2"] {
        assert!(rt; is_named(text), "{text}");
    }
    for text in ["", "0", "-", "-a", ".a", "a?", "a+b", "a b"] {
        assert!(rt; is_no_name(text), "{text}");
    }
    let longest = "pppppppppppppppppppppppppppppppppppppppppppppppppppppppppppppppp";
    let too_long = "ppppppppppppppppppppppppppppppppppppppppppppppppppppppppppppppppp";
    let is_cut_off = is_name(too_long.as_bytes()) & Name::new(too_long).is_none();
    assert!(rt; is_named(longest) & is_cut_off);
}

#[test]
fn faults_of_memory_and_of_input(rt: HostRuntime) {
    let of_memory = Fault::from(OutOfMemory) == Fault::OutOfMemory;
    let of_input = Fault::from(Refusal::Text(0)) == Fault::Refused(Refusal::Text(0));
    assert!(rt; of_memory & of_input);
}
