// Tests of names.
ghost use Rattle.std.specs.Prelude.{◌≡◌, not, map, position, string_bytes};
ghost use Rattle.std.specs.List.{list_all};
ghost use Rattle.rail_model.specs.Naming.{is_name, is_name_byte};

/// Whether a text is a name: 1 to 16 bytes of `A-Z`, `a-z`, `0-9` and `_`.
pub fn is_name(text: &str) -> bool
    ensures { result ≡ is_name text.now }
{
    let bytes = text.as_bytes();
    !bytes.is_empty() && bytes.len() <= 16 && are_name_bytes(bytes)
}

/// The place of the first text that is no name.
pub fn first_bad_name(names: &[String]) -> Option<usize>
    ensures { result ≡ position (λ name. not (is_name name)) (map string_bytes names.now) }
{
    place_of_bad_name(names)
}

fn place_of_bad_name(names: &[String]) -> Option<usize>
    ensures { result ≡ position (λ name. not (is_name (string_bytes name))) names.now }
{
    names.iter().position(|name| !is_name(name))
}

fn are_name_bytes(bytes: &[u8]) -> bool
    ensures { result ≡ list_all is_name_byte bytes.now }
{
    bytes.iter().all(|byte| is_name_byte(*byte))
}

fn is_name_byte(byte: u8) -> bool
    ensures { result ≡ is_name_byte byte }
{
    matches!(byte, b'0'..=b'9' | b'A'..=b'Z' | b'a'..=b'z' | b'_')
}
