// What sections are called.
ghost use Rattle.std.specs.Prelude.{◌≡◌, ◌≢◌, ◌++◌, [], codes, decimal, IfOk, OnOk, string_bytes};
ghost use Rattle.state_sentences.specs.Sections.{called_words, section_words, shown as shown_words};

use std::alloc::{AllocError, Global};

// The most characters of a name that are written.
const MOST: usize = 40;

// A name as it is written: at most 40 characters of it, and `?` for those that don't print.
fn shown(alloc: Global, name: &str) -> Result<String, AllocError>
    ensures { IfOk result (λ text. string_bytes text ≡ shown_words name.now) }
{
    name.chars()
        .take(MOST)
        .map(|letter| if letter.is_control() { '?' } else { letter })
        .collect(alloc)
}

// Adds a section, by its name in quotes.
fn push_named(out: &mut String, section: u32, name: &str) -> Result<(), AllocError>
    requires { name.now ≢ [] }
    ensures { OnOk result (string_bytes out.new ≡ string_bytes out.old ++ called_words section name.now) }
{
    let name = shown(*out.allocator(), name)?;
    let name = name.as_str();
    write!(out, "section \"{name}\"")
}

// Adds a section, by its number.
fn push_number(out: &mut String, section: u32) -> Result<(), AllocError>
    ensures { OnOk result (string_bytes out.new ≡ string_bytes out.old ++ codes "section " ++ decimal section) }
{
    write!(out, "section {section}")
}

/// Adds a section, of those that have these names: by its name in quotes, or by its number, if its name is empty or missing. At most 40
/// characters of a name are written, and `?` for those that don't print.
pub fn push_section(out: &mut String, names: &[String], section: u32) -> Result<(), AllocError>
    ensures { OnOk result (string_bytes out.new ≡ string_bytes out.old ++ section_words names.now section) }
{
    match names.get(section as usize) {
        Some(name) if !name.is_empty() => push_named(out, section, name.as_str()),
        _ => push_number(out, section),
    }
}
