//! Answers as C has them: a number, 0 for done, and what was asked for after a pointer, which stays as it was where the call is refused.
ghost use Rattle.std.specs.Prelude.{◌≡◌};
ghost use Rattle.zemplovir_c.specs.Answers.{no_host, number_by, given};

use c_calls::Code;

/// Done.
pub(crate) const OK: u32 = 0;

/// The handle has no host.
pub(crate) const NO_HOST: u32 = 1;

pub(crate) fn done(answer: Result<(), Code>) -> u32
    ensures { result ≡ number_by answer }
{
    match answer {
        Ok(()) => OK,
        Err(code) => code.number(),
    }
}

/// The answer goes to `out`.
pub(crate) fn given<T: Copy>(answer: Result<T, Code>, out: &mut T) -> u32
    ensures number { result ≡ number_by answer }
    ensures written { out.new ≡ given answer out.old }
{
    match answer {
        Ok(value) => {
            *out = value;
            OK
        }
        Err(code) => code.number(),
    }
}
