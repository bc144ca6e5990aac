// Whether what a text says is what a plan has.
ghost use Rattle.std.specs.Prelude.{◌≡◌, option_copied, option_map, slice_get};
ghost use Rattle.toml.specs.View.{items_view, view};
ghost use Rattle.plan_reading.specs.Agreeing as spec;
ghost use Rattle.plan_reading.specs.Agreeing.{Tells, agree_values, seen};
ghost use Rattle.plan_reading.specs.Said.{is_wait as is_wait_of};

use crate::placed::is_place;
use plan_document::{TablePlan, Wait};
use toml::Value;

/// The text at a key of an entry, if it has one.
pub(crate) fn text_at<'t>(entry: &'t Value, key: &str) -> Option<&'t str>
    ensures { option_copied result ≡ spec.text_at key.now (view entry.now) }
{
    match entry.get(key) {
        Some(text) => text.as_str(),
        None => None,
    }
}

/// The number at a key of an entry, if it has one.
pub(crate) fn number_at(entry: &Value, key: &str) -> Option<i64>
    ensures { result ≡ spec.number_at key.now (view entry.now) }
{
    match entry.get(key) {
        Some(number) => number.as_integer(),
        None => None,
    }
}

/// What is said at a key.
pub(crate) fn value_at<'t>(said: Option<&'t Value>, key: &str) -> Option<&'t Value>
    ensures { seen result ≡ spec.value_at key.now (seen said.entry) }
{
    match said {
        Some(said) => said.get(key),
        None => None,
    }
}

/// The list at a key.
pub(crate) fn list_at<'t>(said: Option<&'t Value>, key: &str) -> Option<&'t [Value]>
    ensures { option_map (λ list. items_view list.now) result ≡ spec.list_at key.now (seen said.entry) }
{
    match value_at(said, key)?.as_array() {
        Some(list) => Some(list.as_slice()),
        None => None,
    }
}

// Whether a text is this name.
fn is_text(said: Option<&str>, name: &String) -> bool
    ensures { result ≡ spec.is_text (option_copied said.entry) name.now }
{
    match said {
        Some(said) => said == name.as_str(),
        None => false,
    }
}

// Whether a number is this one.
fn is_number(said: Option<i64>, number: u32) -> bool
    ensures { result ≡ spec.is_number said number }
{
    match said {
        Some(said) => said == i64::from(number),
        None => false,
    }
}

/// Whether an entry has this name.
pub(crate) fn is_named(entry: &Value, name: &String) -> bool
    ensures { result ≡ spec.is_named (view entry.now) name.now }
{
    is_text(text_at(entry, "name"), name)
}

/// Whether a table that says this itself is due after as many moves: the first, which says nothing, at once.
pub(crate) fn is_due(own: Option<&Value>, after: u32) -> bool
    ensures { result ≡ spec.is_due (seen own.entry) after }
{
    match own {
        Some(own) => is_number(number_at(own, "after"), after),
        None => after == 0,
    }
}

/// Whether what is said is true: not, if nothing is said.
pub(crate) fn says_yes(said: Option<&Value>) -> bool
    ensures { result ≡ spec.says_yes (seen said.entry) }
{
    match said {
        Some(said) => said.as_bool().unwrap_or(false),
        None => false,
    }
}

/// Whether a train exits exactly if this says so.
pub(crate) fn is_exit(said: Option<&Value>, exit: bool) -> bool
    ensures { result ≡ spec.is_exit (seen said.entry) exit }
{
    if exit {
        says_yes(said)
    } else {
        !says_yes(said)
    }
}

/// Whether there are as many of these as values, and each is what this says of its value.
pub(crate) fn agree<T, F: Fn(&Value, &T) -> bool + Copy>(
    values: &[Value],
    these: &[T],
    says: F,
) -> bool
    requires { F.IsAlwaysCallable says }
    ensures { (t : _) → Tells (F.post says) t → result ≡ agree_values t values.now these.now }
{
    values.len() == these.len()
        && values
            .iter()
            .zip(these)
            .all(|(value, this)| says(value, this))
}

/// Whether a value is this name.
pub(crate) fn is_name(value: &Value, name: &String) -> bool
    ensures { result ≡ spec.is_name (view value.now) name.now }
{
    is_text(value.as_str(), name)
}

/// Whether one of these values is this name.
pub(crate) fn has_name(values: &[Value], name: &String) -> bool
    ensures { result ≡ spec.has_name (items_view values.now) name.now }
{
    values.iter().any(|value| is_name(value, name))
}

/// Whether these are the names.
pub(crate) fn are_names(values: &[Value], names: &[String]) -> bool
    ensures { result ≡ agree_values spec.is_name values.now names.now }
{
    agree(values, names, is_name)
}

/// Whether what is said of a train's route is this route.
#[tactic(auto, using(crate::proofs::Compared::agreed_is))]
pub(crate) fn is_route(said: Option<&Value>, route: &[String]) -> bool
    ensures { result ≡ spec.is_route (seen said.entry) route.now }
{
    match said {
        Some(names) => match names.as_array() {
            Some(names) => are_names(names.as_slice(), route),
            None => false,
        },
        None => false,
    }
}

// Whether a text names this place of a route.
fn names_place(said: Option<&str>, route: &[String], place: u32) -> bool
    ensures { result ≡ spec.names_place (option_copied said.entry) route.now place }
{
    match said {
        Some(said) => is_place(said, route, place as usize),
        None => false,
    }
}

/// Whether a train that says this of its start starts at this place of its route: at the place that it names, or else at the first.
pub(crate) fn starts_at(said: Option<&str>, route: &[String], place: u32) -> bool
    ensures { result ≡ spec.starts_at (option_copied said.entry) route.now place }
{
    match said {
        Some(said) => is_place(said, route, place as usize),
        None => place == 0,
    }
}

// Whether a text is the name of a train.
fn names_train(said: Option<&str>, trains: &[String], train: u32) -> bool
    ensures { result ≡ spec.names_train (option_copied said.entry) (slice_get trains.now train) }
{
    match trains.get(train as usize) {
        Some(train) => is_text(said, train),
        None => false,
    }
}

/// Whether an entry names the trains and the places of this wait.
pub(crate) fn is_wait(entry: &Value, wait: &Wait, trains: &[String], table: &TablePlan) -> bool
    ensures { result ≡ is_wait_of trains.now table.now.routes.items (view entry.now) wait.now }
{
    let leaver = table.route(wait.train as usize);
    let other = table.route(wait.after as usize);
    names_train(text_at(entry, "train"), trains, wait.train)
        && names_place(text_at(entry, "leaves"), leaver, wait.leaves)
        && names_train(text_at(entry, "after"), trains, wait.after)
        && names_place(text_at(entry, "reached"), other, wait.reached)
}
