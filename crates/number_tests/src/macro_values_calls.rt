//! The values of expressions in macros.

use grid_units::Dec;
use macro_shapes::{Variables, value};
use std::alloc::{AllocError, Global};
use std::test::Fail;

/// Variables with the values 1.3, 0.5 and 0.0001 for `$1`, `$2` and `$3`.
fn three(alloc: Global) -> Result<Variables, AllocError> {
    let mut variables = Variables::new(alloc);
    for (number, units) in [(1, 130_000_000), (2, 50_000_000), (3, 10_000)] {
        if let Some(value) = Dec::from_units(units) {
            variables.set(number, value)?;
        }
    }
    Ok(variables)
}

/// The value of a text in units of 10^-8, where it has one.
fn units(text: &[u8], variables: &Variables) -> Option<i64> {
    match value(text, variables) {
        Some(value) => Some(value.units()),
        None => None,
    }
}

/// Expressions, and their values in units of 10^-8.
const EXPRESSIONS: [(&str, Option<i64>); 64] = [
    ("0", Some(0)),
    ("1.5", Some(150_000_000)),
    (".5", Some(50_000_000)),
    ("5.", Some(500_000_000)),
    ("00.25", Some(25_000_000)),
    ("-1", Some(-100_000_000)),
    ("+1", Some(100_000_000)),
    ("-0", Some(0)),
    ("999999.99999999", Some(99_999_999_999_999)),
    ("$1", Some(130_000_000)),
    ("$01", Some(130_000_000)),
    ("-$2", Some(-50_000_000)),
    ("$1x$2", Some(65_000_000)),
    ("$1X$2", Some(65_000_000)),
    ("$3x$3", Some(1)),
    ("$3x0.00001", None),
    ("(1.3+$1)/2-0.0", Some(130_000_000)),
    ("2/3+1", None),
    ("$1+$2", Some(180_000_000)),
    ("$1-$2-$3", Some(79_990_000)),
    ("1-2-3", Some(-400_000_000)),
    ("1-(2-3)", Some(200_000_000)),
    ("8/4/2", Some(100_000_000)),
    ("8/(4/2)", Some(400_000_000)),
    ("8/4x2", Some(400_000_000)),
    ("2+3x4", Some(1_400_000_000)),
    ("2x3+4", Some(1_000_000_000)),
    ("(2+3)x4", Some(2_000_000_000)),
    ("-(2+3)x4", Some(-2_000_000_000)),
    ("-2x3", Some(-600_000_000)),
    ("2x(-3)", Some(-600_000_000)),
    ("(-2)x(-3)", Some(600_000_000)),
    ("(-6)/(-4)", Some(150_000_000)),
    ("(-6)/4", Some(-150_000_000)),
    ("1/8", Some(12_500_000)),
    ("1/3", None),
    ("0/3", Some(0)),
    ("1/0", None),
    ("0.00000001/2", None),
    ("0.00000001x0.5", None),
    ("999999x1.00001", None),
    ("999999.99999999+0.00000001", None),
    ("-999999.99999999-0.00000001", None),
    ("999999.99999999-0.00000001", Some(99_999_999_999_998)),
    ("999999x2-999999", None),
    ("", None),
    ("()", None),
    ("(2", None),
    ("2)", None),
    ("2x", None),
    ("x2", None),
    ("2+", None),
    ("2x-3", None),
    ("2+-3", None),
    ("--2", None),
    ("2(3)", None),
    ("(2)3", None),
    ("(2)(3)", None),
    ("1.5.2", None),
    ("0.000000001", None),
    ("1 ", None),
    ("$", None),
    ("$0", None),
    ("$4", None),
];

#[test]
fn expressions_have_their_exact_values(rt: HostRuntime) -> Result<(), Fail> {
    let variables = three(rt.alloc())?;
    for &(text, expected) in &EXPRESSIONS {
        assert!(rt; units(text.as_bytes(), &variables) == expected, "of {text}");
    }
    Ok(())
}

/// The number 1 in so many brackets.
fn in_brackets(alloc: Global, depth: usize) -> Result<String, AllocError> {
    let mut text = String::new(alloc);
    for _ in 0..depth {
        text.push('(')?;
    }
    text.push('1')?;
    for _ in 0..depth {
        text.push(')')?;
    }
    Ok(text)
}

#[test]
fn there_are_16_brackets_at_most(rt: HostRuntime) -> Result<(), Fail> {
    let variables = Variables::new(rt.alloc());
    for (depth, expected) in [(1, Some(100_000_000)), (16, Some(100_000_000)), (17, None)] {
        let text = in_brackets(rt.alloc(), depth)?;
        assert!(rt;
            units(text.as_bytes(), &variables) == expected,
            "with {depth}"
        );
    }
    Ok(())
}

/// The number 1 with so many zeros before it.
fn after_zeros(alloc: Global, zeros: usize) -> Result<String, AllocError> {
    let mut text = String::new(alloc);
    for _ in 0..zeros {
        text.push('0')?;
    }
    text.push('1')?;
    Ok(text)
}

#[test]
fn there_are_1000_bytes_at_most(rt: HostRuntime) -> Result<(), Fail> {
    let variables = Variables::new(rt.alloc());
    for (zeros, expected) in [(999, Some(100_000_000)), (1_000, None)] {
        let text = after_zeros(rt.alloc(), zeros)?;
        assert!(rt;
            units(text.as_bytes(), &variables) == expected,
            "with {zeros}"
        );
    }
    Ok(())
}

/// Numbers of variables, and their values in units of 10^-8 after `$1`, `$2` and `$3` were set and `$2` and `$999` again.
const NUMBERS: [(u64, Option<i64>); 7] = [
    (0, None),
    (1, Some(130_000_000)),
    (2, Some(-1)),
    (3, Some(10_000)),
    (4, None),
    (999, Some(7)),
    (1_000, None),
];

#[test]
fn variables_keep_their_last_value(rt: HostRuntime) -> Result<(), Fail> {
    let mut variables = three(rt.alloc())?;
    for (number, units) in [(2, -1), (999, 7)] {
        if let Some(value) = Dec::from_units(units) {
            variables.set(number, value)?;
        }
    }
    for &(number, expected) in &NUMBERS {
        let units = match variables.get(number) {
            Some(value) => Some(value.units()),
            None => None,
        };
        assert!(rt; units == expected, "of {number}");
    }
    Ok(())
}
