//! Fields that are filled one after the other.
ghost use Rattle.std.specs.Prelude.{◌≡◌, Ok};
ghost use Rattle.cookbook_meta.specs.Faults.{then_do};

/// Puts what was read in place of what was there.
pub(crate) fn fill<T: Drop, E>(field: &mut T, read: Result<T, E>) -> Result<(), E>
    ensures { then_do result (λ done. Ok field.new) ≡ read }
{
    *field = read?;
    Ok(())
}
