//! Texts of reals and values of hexadecimal constants, by the calls of `k_real` and `k_hexadecimal` themselves.
use k_hexadecimal::hexadecimal_constant;
use k_real::{Precision, code_of, fixed_text, general_text, scientific_text};
use std::test::Fail;

/// A real and its text by `%.2f`, `%.2e` and `%.2g`.
static TEXTS: [(f64, &str, &str, &str); 5] = [
    (2.675, "2.67", "2.67e+00", "2.7"),
    (-0.0, "-0.00", "-0.00e+00", "-0"),
    (1e22, "10000000000000000000000.00", "1.00e+22", "1e+22"),
    (99.96, "99.96", "1.00e+02", "1e+02"),
    (f64::NEG_INFINITY, "-inf", "-inf", "-inf"),
];

#[test]
fn real_texts(rt: HostRuntime) -> Result<(), Fail> {
    for (x, fixed, scientific, general) in TEXTS.iter() {
        let text = fixed_text(rt.alloc(), 2, code_of(*x))?;
        assert!(rt; text.as_slice() == fixed.as_bytes());
        let text = scientific_text(rt.alloc(), 2, code_of(*x))?;
        assert!(rt; text.as_slice() == scientific.as_bytes());
        let text = general_text(rt.alloc(), 2, code_of(*x))?;
        assert!(rt; text.as_slice() == general.as_bytes());
    }
    Ok(())
}

/// Hexadecimal constants, and their values in both precisions.
static HEXADECIMALS: [(&str, Option<u64>, Option<u64>); 9] = [
    (
        "0x1.8p3",
        Some(0x4028_0000_0000_0000),
        Some(0x4028_0000_0000_0000),
    ),
    (
        "0X.1P+4",
        Some(0x3ff0_0000_0000_0000),
        Some(0x3ff0_0000_0000_0000),
    ),
    (
        "0x1.00000000000008p0",
        Some(0x3ff0_0000_0000_0000),
        Some(0x3ff0_0000_0000_0000),
    ),
    (
        "0x1.000000000000080000000000001p0",
        Some(0x3ff0_0000_0000_0001),
        Some(0x3ff0_0000_0000_0000),
    ),
    (
        "0x1.000001p0",
        Some(0x3ff0_0000_1000_0000),
        Some(0x3ff0_0000_0000_0000),
    ),
    ("0x1p-1074", Some(1), Some(0)),
    ("0x1.fffffffffffff8p1023", None, None),
    ("0x1.8", None, None),
    ("0xp1", None, None),
];

#[test]
fn hexadecimal_constants(rt: HostRuntime) -> Result<(), Fail> {
    for (text, double, single) in HEXADECIMALS.iter() {
        assert!(rt; hexadecimal_constant(Precision::Double, text) == *double);
        assert!(rt; hexadecimal_constant(Precision::Single, text) == *single);
    }
    Ok(())
}
