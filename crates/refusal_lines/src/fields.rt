// Numbers, each after its label.
ghost use Rattle.std.specs.Prelude.{◌≡◌, ◌++◌, OnOk, string_bytes};
ghost use Rattle.refusal_lines.specs.Fields.{fields_words};

use std::alloc::AllocError;

/// Adds numbers, each after its label.
pub(crate) fn write_fields(out: &mut String, fields: &[(&str, u64)]) -> Result<(), AllocError>
    ensures { OnOk result (string_bytes out.new ≡ string_bytes out.old ++ fields_words fields.now) }
{
    for field in fields {
        let (label, number) = *field;
        write!(out, "{label}{number}")?;
    }
    Ok(())
}

/// Adds numbers, each after its label: `tell!(out; "73 Number line=" line)`.
macro_rules! tell {
    ($out:expr; $($label:literal $number:expr),+) => {
        $crate::fields::write_fields($out, &[$(($label, $number as u64)),+])
    };
}

pub(crate) use tell;
