// How the areas of sections look.
ghost use Rattle.std.specs.Prelude.{◌≡◌};
ghost use Rattle.layout_frame.specs.Looks.{colour_of, stripes_of};

const COLOURS: [&str; 8] = [
    "#e8b923", "#5aa9e6", "#63b76c", "#d66ba0", "#8f7be0", "#b08a5b", "#35b0ab", "#8d99a6",
];

const PATTERNS: [&str; 4] = ["", "2 5", "9 6", "2 2 2 8"];

/// The colour of the area of a section: one of eight.
pub fn area_colour(section: u32) -> &'static str
    ensures { result.now ≡ colour_of section }
{
    COLOURS[section as usize % 8]
}

/// The stripes of the area of a section, as the lengths of stripes and gaps; no letters for a plain area. Sections that
/// follow one another have different ones, and so have those of one colour, up to the 32nd section.
pub fn area_stripes(section: u32) -> &'static str
    ensures { result.now ≡ stripes_of section }
{
    PATTERNS[(section % 4 + section / 8) as usize % 4]
}
