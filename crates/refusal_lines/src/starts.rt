// The words on a start that isn't legal.
ghost use Rattle.std.specs.Prelude.{◌≡◌, ◌++◌, OnOk, string_bytes};
ghost use Rattle.refusal_lines.specs.Starts.{illegal_words, start_words};

use crate::fields::tell;
use legal_state::Illegal;
use std::alloc::AllocError;

/// Adds why a start isn't legal.
pub fn write_start(out: &mut String, cause: &Illegal) -> Result<(), AllocError>
    ensures { OnOk result (string_bytes out.new ≡ string_bytes out.old ++ start_words cause.now) }
{
    write!(out, "112 StartIllegal ")?;
    write_illegal(out, cause)
}

// Adds why a state isn't legal.
fn write_illegal(out: &mut String, cause: &Illegal) -> Result<(), AllocError>
    ensures { OnOk result (string_bytes out.new ≡ string_bytes out.old ++ illegal_words cause.now) }
{
    match *cause {
        Illegal::Length { count } => tell!(out; "31 Length count=" count),
        Illegal::Range { train } => tell!(out; "32 Range train=" train),
        Illegal::Clash {
            first,
            second,
            point,
        } => tell!(out; "33 Clash first=" first, " second=" second, " point=" point),
        Illegal::Over {
            section,
            count,
            limit,
        } => tell!(out; "34 Over section=" section, " count=" count, " limit=" limit),
    }
}
