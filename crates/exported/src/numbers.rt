// Numbers of the C interface's own.
ghost use Rattle.std.specs.Prelude.{◌≡◌};
ghost use Rattle.exported.specs.Numbers.{is_set};

// In place of a refusal's or a fault's number, where there is none.
pub(crate) const NO_REFUSAL: u8 = 0;

// Whether a flag says yes, which any number but 0 does.
pub(crate) fn is_set(flag: u8) -> bool
    ensures { result ≡ is_set flag }
{
    flag != 0
}
