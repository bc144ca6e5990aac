// Whether a text names a place of a route.
ghost use Rattle.std.specs.Prelude.{◌≡◌, bytes_eq, decimal, string_bytes};
ghost use Rattle.plan_reading.specs.Places as spec;

// Whether a name is this point.
fn is_point(name: &String, point: &str) -> bool
    ensures { result ≡ bytes_eq point.now (string_bytes name.now) }
{
    point == name.as_str()
}

// How many times a point comes on a route.
fn times(point: &str, route: &[String]) -> usize
    ensures { result ≡ spec.times point.now route.now }
{
    route.iter().filter(|name| is_point(name, point)).count()
}

// Whether these bytes are a number in decimal.
#[tactic(auto, using(crate::proofs::Digits::digits))]
fn is_decimal(bytes: &[u8], number: usize) -> bool
    ensures { result ≡ bytes_eq bytes.now (decimal number) }
{
    match bytes.split_last() {
        Some((last, before)) if usize::from(*last) == 48 + number % 10 => {
            if number < 10 {
                before.is_empty()
            } else {
                is_decimal(before, number / 10)
            }
        }
        _ => false,
    }
}

// Whether these bytes are `#` and how many times a point comes on a part of a route.
fn is_count(bytes: &[u8], point: &str, part: &[String]) -> bool
    ensures { result ≡ bytes_eq bytes.now (spec.count (spec.times point.now part.now)) }
{
    match bytes.split_first() {
        Some((first, digits)) => *first == b'#' && is_decimal(digits, times(point, part)),
        None => false,
    }
}

// Whether a text is a point with a count: how many times it comes on a part of a route.
#[tactic(auto, using(crate::proofs::Digits::bytes_eq_after))]
fn is_counted(said: &str, point: &str, part: &[String]) -> bool
    ensures { result ≡ spec.is_counted said.now part.now point.now }
{
    match said.as_bytes().strip_prefix(point.as_bytes()) {
        Some(rest) => is_count(rest, point, part),
        None => false,
    }
}

// Whether a text is a point that comes once on a route.
fn is_single(said: &str, point: &str, route: &[String]) -> bool
    ensures { result ≡ spec.is_single said.now route.now point.now }
{
    said == point && times(point, route) == 1
}

/// Whether a text names this place of a route: by its point, if that comes once on the route, or by the point, `#`, and how
/// many times it has come up to there.
pub(crate) fn is_place(said: &str, route: &[String], place: usize) -> bool
    ensures { result ≡ spec.is_place said.now route.now place }
{
    match route.get(place) {
        Some(point) => {
            let point = point.as_str();
            is_single(said, point, route) || is_counted(said, point, &route[..place + 1])
        }
        None => false,
    }
}

/// The place of a route that a text names, if it names one.
pub(crate) fn place_of(said: &str, route: &[String]) -> Option<usize>
    ensures { result ≡ spec.place_of said.now route.now }
{
    (0..route.len()).find(|place| is_place(said, route, *place))
}
