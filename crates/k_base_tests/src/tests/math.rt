//! Values of the functions of `math.h` at named points, by a C program of the same operations that another compiler made.
use k_math::{
    ElementaryOne, ElementaryPair, ExactPair, WholeBy, elementary, elementary_pair, exact_pair,
    long, square_root, whole,
};
use k_real::{Precision, code_of};
use std::test::Fail;

/// A function, its argument, and the code of its value.
static ONE: [(ElementaryOne, f64, u64); 84] = [
    (ElementaryOne::Exp, 0.0, 0x3ff0_0000_0000_0000),
    (ElementaryOne::Exp, 1.0, 0x4005_bf0a_8b14_5769),
    (ElementaryOne::Exp, -0.5, 0x3fe3_68b2_fc6f_960a),
    (ElementaryOne::Exp, 5.0e-324, 0x3ff0_0000_0000_0000),
    (ElementaryOne::Exp, 709.7, 0x7fed_75ae_7a50_ee14),
    (ElementaryOne::Exp, 709.8, 0x7ff0_0000_0000_0000),
    (ElementaryOne::Exp, -745.1, 0x0000_0000_0000_0001),
    (ElementaryOne::Exp, -745.2, 0x0000_0000_0000_0000),
    (ElementaryOne::Exp, f64::INFINITY, 0x7ff0_0000_0000_0000),
    (ElementaryOne::Exp, f64::NEG_INFINITY, 0x0000_0000_0000_0000),
    (ElementaryOne::Exp, f64::NAN, 0x7ff8_0000_0000_0000),
    (ElementaryOne::Exp2, 0.5, 0x3ff6_a09e_667f_3bcd),
    (ElementaryOne::Exp2, -1074.0, 0x0000_0000_0000_0001),
    (ElementaryOne::Exp2, -1075.0, 0x0000_0000_0000_0000),
    (ElementaryOne::Exp2, 1023.5, 0x7fe6_a09e_667f_3bcd),
    (ElementaryOne::Exp2, 1024.0, 0x7ff0_0000_0000_0000),
    (ElementaryOne::Log, 0.0, 0xfff0_0000_0000_0000),
    (ElementaryOne::Log, -1.0, 0x7ff8_0000_0000_0000),
    (ElementaryOne::Log, 1.0, 0x0000_0000_0000_0000),
    (ElementaryOne::Log, 2.0, 0x3fe6_2e42_fefa_39ef),
    (ElementaryOne::Log, 5.0e-324, 0xc087_4385_446d_71c3),
    (
        ElementaryOne::Log,
        0.7071067811865475,
        0xbfd6_2e42_fefa_39f1,
    ),
    (
        ElementaryOne::Log,
        0.7071067811865476,
        0xbfd6_2e42_fefa_39ee,
    ),
    (
        ElementaryOne::Log,
        1.7976931348623157e308,
        0x4086_2e42_fefa_39ef,
    ),
    (ElementaryOne::Log, f64::INFINITY, 0x7ff0_0000_0000_0000),
    (ElementaryOne::Log, f64::NAN, 0x7ff8_0000_0000_0000),
    (ElementaryOne::Log2, 8.0, 0x4008_0000_0000_0000),
    (ElementaryOne::Log2, 10.0, 0x400a_934f_0979_a371),
    (ElementaryOne::Log10, 1000.0, 0x4008_0000_0000_0000),
    (ElementaryOne::Log10, 2.0, 0x3fd3_4413_509f_79ff),
    (ElementaryOne::Cbrt, -27.0, 0xc008_0000_0000_0000),
    (ElementaryOne::Cbrt, 2.0, 0x3ff4_28a2_f98d_728b),
    (ElementaryOne::Cbrt, -0.0, 0x8000_0000_0000_0000),
    (ElementaryOne::Cbrt, 5.0e-324, 0x2990_0000_0000_0000),
    (ElementaryOne::Sin, -0.0, 0x8000_0000_0000_0000),
    (ElementaryOne::Sin, 1.0, 0x3fea_ed54_8f09_0cee),
    (ElementaryOne::Sin, 7.4e-9, 0x3e3f_c862_d3e1_7360),
    (
        ElementaryOne::Sin,
        0.7853981633974483,
        0x3fe6_a09e_667f_3bcc,
    ),
    (
        ElementaryOne::Sin,
        0.7853981633974484,
        0x3fe6_a09e_667f_3bcd,
    ),
    (
        ElementaryOne::Sin,
        1.5707963267948966,
        0x3ff0_0000_0000_0000,
    ),
    (ElementaryOne::Sin, -3.0, 0xbfc2_1038_6db6_d55b),
    (ElementaryOne::Sin, 1.0e22, 0xbfeb_453a_b76b_f397),
    (
        ElementaryOne::Sin,
        1.7976931348623157e308,
        0x3f74_52fc_98b3_4e97,
    ),
    (ElementaryOne::Sin, f64::INFINITY, 0x7ff8_0000_0000_0000),
    (ElementaryOne::Sin, f64::NAN, 0x7ff8_0000_0000_0000),
    (ElementaryOne::Cos, 0.0, 0x3ff0_0000_0000_0000),
    (ElementaryOne::Cos, 1.0, 0x3fe1_4a28_0fb5_068c),
    (
        ElementaryOne::Cos,
        0.7853981633974484,
        0x3fe6_a09e_667f_3bcc,
    ),
    (
        ElementaryOne::Cos,
        1.5707963267948966,
        0x3c91_a626_3314_5c07,
    ),
    (ElementaryOne::Cos, 4.0, 0xbfe4_eaa6_06db_24c1),
    (ElementaryOne::Cos, -1.0e300, 0xbfe2_6990_22ad_c4c1),
    (ElementaryOne::Tan, 0.5, 0x3fe1_7b4f_5bf3_474a),
    (
        ElementaryOne::Tan,
        1.5707963267948966,
        0x434d_0296_7c31_cdb5,
    ),
    (ElementaryOne::Tan, -2.0, 0x4001_7af6_2e09_50f8),
    (ElementaryOne::Tan, 1.0e22, 0xbffa_0f79_c1b6_b257),
    (ElementaryOne::Asin, 0.5, 0x3fe0_c152_382d_7366),
    (ElementaryOne::Asin, 1.0, 0x3ff9_21fb_5444_2d18),
    (ElementaryOne::Asin, -1.0, 0xbff9_21fb_5444_2d18),
    (
        ElementaryOne::Asin,
        1.0000000000000002,
        0x7ff8_0000_0000_0000,
    ),
    (
        ElementaryOne::Asin,
        0.9999999999999999,
        0x3ff9_21fb_5044_2d18,
    ),
    (ElementaryOne::Acos, 0.5, 0x3ff0_c152_382d_7366),
    (ElementaryOne::Acos, 1.0, 0x0000_0000_0000_0000),
    (ElementaryOne::Acos, -1.0, 0x4009_21fb_5444_2d18),
    (
        ElementaryOne::Acos,
        -0.9999999999999999,
        0x4009_21fb_5244_2d18,
    ),
    (ElementaryOne::Acos, f64::NAN, 0x7ff8_0000_0000_0000),
    (ElementaryOne::Atan, -0.0, 0x8000_0000_0000_0000),
    (ElementaryOne::Atan, 1.0, 0x3fe9_21fb_5444_2d18),
    (ElementaryOne::Atan, -2.0, 0xbff1_b6e1_92eb_be44),
    (ElementaryOne::Atan, 1.0e30, 0x3ff9_21fb_5444_2d18),
    (ElementaryOne::Atan, 2.0e30, 0x3ff9_21fb_5444_2d18),
    (
        ElementaryOne::Atan,
        f64::NEG_INFINITY,
        0xbff9_21fb_5444_2d18,
    ),
    (ElementaryOne::Sinh, 1.0, 0x3ff2_cd9f_c44e_b982),
    (ElementaryOne::Sinh, -40.5, 0xc385_8b03_e679_7728),
    (ElementaryOne::Sinh, 710.4, 0x7fed_a98a_7371_610b),
    (ElementaryOne::Sinh, 711.5, 0x7ff0_0000_0000_0000),
    (ElementaryOne::Sinh, 5.0e-324, 0x0000_0000_0000_0001),
    (ElementaryOne::Cosh, 1.0, 0x3ff8_b075_51d9_f550),
    (ElementaryOne::Cosh, 0.0, 0x3ff0_0000_0000_0000),
    (ElementaryOne::Cosh, -710.4, 0x7fed_a98a_7371_610b),
    (ElementaryOne::Cosh, f64::NAN, 0x7ff8_0000_0000_0000),
    (ElementaryOne::Tanh, 0.5, 0x3fdd_9353_d756_8af3),
    (ElementaryOne::Tanh, -41.0, 0xbff0_0000_0000_0000),
    (ElementaryOne::Tanh, 5.0e-324, 0x0000_0000_0000_0001),
    (ElementaryOne::Tanh, f64::INFINITY, 0x3ff0_0000_0000_0000),
];

static TWO: [(ElementaryPair, f64, f64, u64); 33] = [
    (ElementaryPair::Pow, 2.0, 0.5, 0x3ff6_a09e_667f_3bcd),
    (ElementaryPair::Pow, 10.0, 15.0, 0x430c_6bf5_2634_0000),
    (ElementaryPair::Pow, 0.1, -3.0, 0x408f_3fff_ffff_ffff),
    (ElementaryPair::Pow, -2.0, 3.0, 0xc020_0000_0000_0000),
    (ElementaryPair::Pow, -2.0, 0.5, 0x7ff8_0000_0000_0000),
    (ElementaryPair::Pow, f64::NAN, 0.0, 0x3ff0_0000_0000_0000),
    (ElementaryPair::Pow, 1.0, f64::NAN, 0x3ff0_0000_0000_0000),
    (ElementaryPair::Pow, -0.0, -3.0, 0xfff0_0000_0000_0000),
    (ElementaryPair::Pow, 0.0, 2.0, 0x0000_0000_0000_0000),
    (
        ElementaryPair::Pow,
        f64::NEG_INFINITY,
        3.0,
        0xfff0_0000_0000_0000,
    ),
    (
        ElementaryPair::Pow,
        0.5,
        f64::INFINITY,
        0x0000_0000_0000_0000,
    ),
    (
        ElementaryPair::Pow,
        -1.0,
        f64::NEG_INFINITY,
        0x3ff0_0000_0000_0000,
    ),
    (ElementaryPair::Pow, 1.0000001, 64.0, 0x3ff0_0006_b5fe_0969),
    (ElementaryPair::Pow, 1.0000001, 65.0, 0x3ff0_0006_d0d6_0746),
    (ElementaryPair::Pow, 2.0, -1074.0, 0x0000_0000_0000_0001),
    (ElementaryPair::Pow, 2.0, 1024.0, 0x7ff0_0000_0000_0000),
    (ElementaryPair::Pow, 1.5, 1.0e-300, 0x3ff0_0000_0000_0000),
    (ElementaryPair::Atan2, 0.0, -1.0, 0x4009_21fb_5444_2d18),
    (ElementaryPair::Atan2, -0.0, 1.0, 0x8000_0000_0000_0000),
    (ElementaryPair::Atan2, 1.0, 0.0, 0x3ff9_21fb_5444_2d18),
    (ElementaryPair::Atan2, 1.0, -1.0, 0x4002_d97c_7f33_21d2),
    (
        ElementaryPair::Atan2,
        f64::NEG_INFINITY,
        f64::NEG_INFINITY,
        0xc002_d97c_7f33_21d2,
    ),
    (
        ElementaryPair::Atan2,
        1.0,
        f64::INFINITY,
        0x0000_0000_0000_0000,
    ),
    (
        ElementaryPair::Atan2,
        1.0e-300,
        1.0e300,
        0x0000_0000_0000_0000,
    ),
    (ElementaryPair::Atan2, 1.0, f64::NAN, 0x7ff8_0000_0000_0000),
    (ElementaryPair::Atan2, 3.0, 4.0, 0x3fe4_978f_a326_9ee1),
    (ElementaryPair::Hypot, 3.0, 4.0, 0x4014_0000_0000_0000),
    (ElementaryPair::Hypot, -1.0, 5.0e-324, 0x3ff0_0000_0000_0000),
    (
        ElementaryPair::Hypot,
        5.0e-324,
        5.0e-324,
        0x0000_0000_0000_0001,
    ),
    (
        ElementaryPair::Hypot,
        1.0e308,
        1.0e308,
        0x7fe9_2c80_954c_51f5,
    ),
    (
        ElementaryPair::Hypot,
        f64::INFINITY,
        f64::NAN,
        0x7ff0_0000_0000_0000,
    ),
    (ElementaryPair::Hypot, f64::NAN, 1.0, 0x7ff8_0000_0000_0000),
    (ElementaryPair::Hypot, 1.0, 1.0e-300, 0x3ff0_0000_0000_0000),
];

#[test]
fn elementary_functions(rt: HostRuntime) -> Result<(), Fail> {
    for (what, x, value) in ONE.iter() {
        let found = elementary(*what, Precision::Double, code_of(*x));
        assert_eq!(rt; found, *value);
    }
    for (what, x, y, value) in TWO.iter() {
        let found = elementary_pair(*what, Precision::Double, code_of(*x), code_of(*y));
        assert_eq!(rt; found, *value);
    }
    Ok(())
}

/// `fmin`, `fmax`, `copysign` and `fmod` of two numbers.
static EXACT: [(ExactPair, f64, f64, f64); 15] = [
    (ExactPair::Least, f64::NAN, 1.0, 1.0),
    (ExactPair::Least, 0.0, -0.0, -0.0),
    (ExactPair::Least, -2.0, 3.0, -2.0),
    (ExactPair::Greatest, -0.0, 0.0, 0.0),
    (ExactPair::Greatest, 1.0, f64::NAN, 1.0),
    (ExactPair::WithSign, 2.5, -0.0, -2.5),
    (ExactPair::WithSign, -2.5, f64::NAN, 2.5),
    (ExactPair::Remainder, -7.0, 3.0, -1.0),
    (ExactPair::Remainder, 5.0, f64::INFINITY, 5.0),
    (ExactPair::Remainder, -6.0, 3.0, -0.0),
    (ExactPair::Remainder, 1e300, 7.0, 1.0),
    (ExactPair::Remainder, 5.5, -2.25, 1.0),
    (ExactPair::Remainder, 4.9e-324, 1e300, 4.9e-324),
    (ExactPair::Remainder, f64::INFINITY, 3.0, f64::NAN),
    (ExactPair::Remainder, 1.0, 0.0, f64::NAN),
];

/// Whole numbers by a number, and whether they are given as a `long` too.
static WHOLE: [(WholeBy, f64, f64, Option<i128>); 9] = [
    (WholeBy::Floor, -0.5, -1.0, Some(-1)),
    (WholeBy::Ceil, -0.5, -0.0, Some(0)),
    (WholeBy::Trunc, 2.9, 2.0, Some(2)),
    (WholeBy::Round, -2.5, -3.0, Some(-3)),
    (WholeBy::Round, 0.49999999999999994, 0.0, Some(0)),
    (WholeBy::Rint, 2.5, 2.0, Some(2)),
    (WholeBy::Rint, 3.5, 4.0, Some(4)),
    (WholeBy::Round, 1e300, 1e300, None),
    (
        WholeBy::Rint,
        -9223372036854775808.0,
        -9223372036854775808.0,
        Some(-9223372036854775808),
    ),
];

/// `sqrt`, whose value is rounded once in its precision, and `exp`, whose value in Double is rounded to Single.
static ROOTS: [(Precision, f64, u64); 4] = [
    (Precision::Double, 2.0, 0x3ff6_a09e_667f_3bcd),
    (Precision::Single, 2.0, 0x3ff6_a09e_6000_0000),
    (Precision::Double, -0.0, 0x8000_0000_0000_0000),
    (Precision::Single, -1.0, 0x7ff8_0000_0000_0000),
];

#[test]
fn exact_functions(rt: HostRuntime) -> Result<(), Fail> {
    for (what, x, y, value) in EXACT.iter() {
        let found = exact_pair(*what, Precision::Double, code_of(*x), code_of(*y));
        assert_eq!(rt; found, code_of(*value));
    }
    for (what, x, value, number) in WHOLE.iter() {
        assert_eq!(rt;
            whole(*what, Precision::Double, code_of(*x)),
            code_of(*value)
        );
        assert!(rt; long(*what, Precision::Double, code_of(*x)) == *number);
    }
    for (p, x, value) in ROOTS.iter() {
        assert_eq!(rt; square_root(*p, code_of(*x)), *value);
    }
    let e = elementary(ElementaryOne::Exp, Precision::Single, code_of(1.0));
    assert_eq!(rt; e, 0x4005_bf0a_8000_0000);
    Ok(())
}
