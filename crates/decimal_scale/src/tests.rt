use super::*;
use solid_base::{Bytes, U};

const STEPS: i128 = U;

#[test]
fn reads_spellings(rt: HostRuntime) {
    for (text, steps) in [
        ("0", 0),
        ("-0", 0),
        ("1", STEPS),
        ("+0042", 42 * STEPS),
        ("1.", STEPS),
        (".5", STEPS / 2),
        ("-.5", -STEPS / 2),
        ("-2.25", -9 * STEPS / 4),
        ("1E3", 1000 * STEPS),
        ("1.D-3", STEPS / 1000),
        ("2.5e+02", 250 * STEPS),
        ("25d-1", 5 * STEPS / 2),
        ("0.0000000000005", 1),
        ("-0.0000000000005", -1),
        ("0.00000000000049999999999", 0),
        ("-.5E-12", -1),
        ("123456789.5E-21", 0),
        ("5123456789E-22", 1),
        ("4999999999E-22", 0),
        ("1.0000000000015", STEPS + 2),
        ("1.0000000000025", STEPS + 3),
        ("1000000", 1_000_000 * STEPS),
        ("-1E6", -1_000_000 * STEPS),
        ("999999.9999999999994", 1_000_000 * STEPS - 1),
        ("1000000.0000000000004", 1_000_000 * STEPS),
        ("000000000000000000000000000000000000001.5", 3 * STEPS / 2),
        ("0.00000000000000000000000000000000000001E38", STEPS),
        ("100000000000000000000000000000000000000E-38", STEPS),
        ("1.E-999999999999", 0),
        ("0.D99999999999", 0),
        ("0E99999999999999999999999999999999999999", 0),
        ("7E-99999999999999999999999999999999999999", 0),
    ] {
        assert_eq!(rt; read_real(text.as_bytes()), Ok(steps), "{text}");
    }
}

#[test]
fn refuses_texts(rt: HostRuntime) {
    for text in [
        "", "+", "-", ".", "-.", "E5", ".E5", "1E", "1E+", "1.2.3", "1E2.", "--1", "1-", "1 ",
        " 1", "1F2", "1,5", "0x1", "1.E--1", "Inf", "NaN",
    ] {
        assert_eq!(rt;
            read_real(text.as_bytes()),
            Err(RealFault::BadReal),
            "{text}"
        );
    }
    for text in [
        "1000000.0000000000005",
        "-1000000.000000000001",
        "1000000.000000000001",
        "1E7",
        "1.E999999999999",
        "-1E99999999999999999999999999999999999999",
        "100000000000000000000000000000000000000000",
    ] {
        assert_eq!(rt;
            read_real(text.as_bytes()),
            Err(RealFault::TooBig),
            "{text}"
        );
    }
}

#[test]
fn writes_texts(rt: HostRuntime) {
    for (value, places, text) in [
        (0, 12, "0.0"),
        (STEPS, 12, "1.0"),
        (-STEPS / 2, 12, "-0.5"),
        (1, 12, "0.000000000001"),
        (-1, 12, "-0.000000000001"),
        (12_345 * STEPS / 10, 12, "1234.5"),
        (1_000_000 * STEPS, 12, "1000000.0"),
        (100, 1, "10.0"),
        (-7, 1, "-0.7"),
        (123_456_789_012_345, 15, "0.123456789012345"),
        (
            10_000_000_000_000_000_000_000_000_000_000_000_000,
            1,
            "1000000000000000000000000000000000000.0",
        ),
        (
            -9_999_999_999_999_999_999_999_999_999_999_999_999,
            15,
            "-9999999999999999999999.999999999999999",
        ),
    ] {
        let written = write_real(rt.alloc(), value, places).expect(&rt, "there is ample memory");
        assert_eq!(rt; written.as_slice(), text.as_bytes(), "{text}");
        assert_eq!(rt; real_length(value, places), text.len(), "{text}");
    }
}

#[test]
fn writes_faults(rt: HostRuntime) {
    for (fault, number, words) in [
        (RealFault::BadReal, 2, "BadReal"),
        (RealFault::TooBig, 3, "TooBig"),
    ] {
        let written: Bytes = fault
            .write_fault(rt.alloc())
            .expect(&rt, "there is ample memory");
        assert_eq!(rt; fault.number(), number);
        assert_eq!(rt; written.as_slice(), words.as_bytes());
    }
}
