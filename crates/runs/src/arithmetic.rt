// Worked rows: what operations give, with results by hand.
use crate::operation::{Operation, answer, division};
use anyhow::{Result, bail};
use poly_model::{VarName, Vars};
use poly_text::read_poly;
use std::alloc::Global;
use term_store::TermStore;

fn variables() -> Result<Vars> {
    use VarName::{U, X};
    match Vars::from_names(&[U(1), U(2), U(3), X(1), X(2), X(3), X(4)]) {
        Some(vars) => Ok(vars),
        None => bail!("these are no variables"),
    }
}

/// A row over two polynomials.
fn check<S: TermStore>(
    alloc: Global,
    s: &mut S,
    operation: Operation,
    first: &str,
    second: &str,
    wanted: &str,
) -> Result<()> {
    let vars = variables()?;
    let a = read_poly(alloc, first.as_bytes(), &vars)?;
    let b = read_poly(alloc, second.as_bytes(), &vars)?;
    let w = read_poly(alloc, wanted.as_bytes(), &vars)?;
    match answer(alloc, s, operation, &a, &b)? {
        Ok(result) if result == w => Ok(()),
        _ => bail!("{first}: another result"),
    }
}

/// A row over one polynomial.
fn check_one<S: TermStore>(
    alloc: Global,
    s: &mut S,
    operation: Operation,
    first: &str,
    wanted: &str,
) -> Result<()> {
    check(alloc, s, operation, first, first, wanted)
}

/// The division of `u1*x4 - u1*x2` by `2*x4 - u3` with fuel 100 is one step, which takes out -1 and costs 1 and the two terms
/// of its rest.
fn check_division<S: TermStore>(alloc: Global, s: &mut S) -> Result<()> {
    let vars = variables()?;
    let a = read_poly(alloc, b"u1*x4 - u1*x2", &vars)?;
    let b = read_poly(alloc, b"2*x4 - u3", &vars)?;
    let w = read_poly(alloc, b"2*u1*x2 - u1*u3", &vars)?;
    let (down, rest) = division(alloc, s, &a, &b, 100)?;
    match down.steps.as_slice() {
        [(multiplier, result)] => {
            if *multiplier != -1 || *result != w || rest != w {
                bail!("the division has another step");
            }
        }
        _ => bail!("the division has not one step"),
    }
    if down.stop.is_some() || down.fuel != 97 {
        bail!("the division costs otherwise");
    }
    Ok(())
}

/// All rows.
pub fn check_all<S: TermStore>(alloc: Global, s: &mut S) -> Result<()> {
    check(alloc, s, Operation::Add, "x1 + u1", "-x1 + u2", "u2 + u1")?;
    check(alloc, s, Operation::Sub, "x1 + u1", "x1 - u1", "2*u1")?;
    check(
        alloc,
        s,
        Operation::Mul,
        "x1 + u1",
        "x1 - u1",
        "x1^2 - u1^2",
    )?;
    check_one(
        alloc,
        s,
        Operation::Prim,
        "-4*x1*x2 + 6*u1",
        "2*x1*x2 - 3*u1",
    )?;
    check_one(
        alloc,
        s,
        Operation::Coefficient(1),
        "u1*x2^2 + x1*x2 - 5*u2*x2 + 7",
        "x1 - 5*u2",
    )?;
    check_one(alloc, s, Operation::Shift(3), "x2 - u1", "x2^4 - u1*x2^3")?;
    check_one(
        alloc,
        s,
        Operation::Initial,
        "-u2*x2^2 + u1*x2^2 + x1",
        "-u2 + u1",
    )?;
    check_one(
        alloc,
        s,
        Operation::Tail,
        "u1*x2^2 + x1*x2 - 7",
        "x1*x2 - 7",
    )?;
    check_division(alloc, s)
}
