//! Values that a test makes, and lends to the rest of it.
ghost use Rattle.std.specs.Prelude.{◌≡◌, IfOk, Ok};

use std::test::Fail;

/// Returns a value that a test needs, and has memory for.
///
/// # Errors
///
/// [`Fail`] if it isn't made.
pub fn made<T, E: Drop>(answer: Result<T, E>) -> Result<T, Fail>
    ensures { IfOk result (λ value. answer ≡ Ok value) }
{
    answer.map_err(|_| Fail::new("it isn't made"))
}

/// Lends a value. It is dropped here, as one of any type: a function that drops a `Table` or a
/// `State` by name has a step for each of its fields, at each way out.
///
/// # Errors
///
/// [`Fail`] if the value isn't made, or that of the test.
pub fn lend<T: Drop, F: FnOnce(&T) -> Result<(), Fail> + Drop>(
    made: Result<T, Fail>,
    test: F,
) -> Result<(), Fail>
    requires { F.IsAlwaysCallable test }
{
    let value = made?;
    test(&value)
}

/// Lends a value as [`lend`] does, to be changed.
///
/// # Errors
///
/// [`Fail`] if the value isn't made, or that of the test.
pub fn lend_mut<T: Drop, F: FnOnce(&mut T) -> Result<(), Fail> + Drop>(
    made: Result<T, Fail>,
    test: F,
) -> Result<(), Fail>
    requires { F.IsAlwaysCallable test }
{
    let mut value = made?;
    test(&mut value)
}
