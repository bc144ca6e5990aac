// A plan whose patterns, counts and ways are written out.
ghost use Rattle.std.specs.Prelude.{◌≡◌, ◌∷◌, [], codes, decimal, find, length, map, option_and_then, option_copied, option_map, IfOk, OnOk};
ghost use Rattle.std.specs.List.{flat_map, range_with_len};
ghost use Rattle.toml.specs.Data.{as_integer, as_str, get_member, table};
ghost use Rattle.toml.specs.View.{table_view, view};
ghost use Rattle.plan_patterns.specs.Expanded as spec;
ghost use Rattle.plan_patterns.specs.Numbered.{numbered as numbered_of};
ghost use Rattle.plan_patterns.specs.Parts.{and_others, without};

use crate::numbered::numbered;
use crate::parts::{copy, list_of, member, put_others, replace, take};
use crate::ways::lay;
use std::alloc::{AllocError, Global};
use toml::{Table, Value};

// The text at a key.
fn text_at<'t>(entry: &'t Table, key: &str) -> Option<&'t str>
    ensures { option_copied result ≡ option_and_then as_str (get_member key.now (table_view entry.now)) }
{
    match member(entry, key) {
        Some(value) => value.as_str(),
        None => None,
    }
}

// Whether an entry has a name.
fn is_named(entry: &Value, name: &str) -> bool
    ensures { result ≡ spec.is_named name.now (view entry.now) }
{
    match entry.get("name") {
        Some(own) => match own.as_str() {
            Some(own) => name == own,
            None => false,
        },
        None => false,
    }
}

// The first pattern of a name.
fn first_named<'p>(patterns: &'p [Value], name: &str) -> Option<&'p Value>
    ensures { option_map (λ p. view p.now) result ≡ find (spec.is_named name.now) (map view patterns.now) }
{
    patterns.iter().find(|pattern| is_named(pattern, name))
}

// The keys of the first pattern of a name.
fn pattern_of<'p>(patterns: &'p [Value], name: &str) -> Option<&'p Table>
    ensures { option_map (λ keys. table_view keys.now) result ≡ spec.pattern_of (map view patterns.now) name.now }
{
    match first_named(patterns, name) {
        Some(pattern) => pattern.as_table(),
        None => None,
    }
}

/// The pattern that an entry rests on.
pub(crate) fn base_of<'p>(patterns: &'p [Value], entry: &Table) -> Option<&'p Table>
    ensures { option_map (λ keys. table_view keys.now) result ≡ spec.base_of (map view patterns.now) (table_view entry.now) }
{
    match text_at(entry, "pattern") {
        Some(name) => pattern_of(patterns, name),
        None => None,
    }
}

// Gives an entry the keys of a pattern that it rests on, as far as it has none of its own.
fn rest_on(entry: &mut Table, base: &Table) -> Result<(), AllocError>
    ensures { OnOk result (table_view entry.new ≡ and_others (without (codes "pattern") (table_view entry.old)) (table_view base.now)) }
{
    drop(take(entry, "pattern"));
    put_others(entry, base)
}

// Gives an entry the keys of the pattern that it rests on, and of those that this rests on.
fn base(entry: &mut Table, patterns: &[Value]) -> Result<(), AllocError>
    ensures { OnOk result (table_view entry.new ≡ spec.based (length patterns.now) (map view patterns.now) (table_view entry.old)) }
{
    for step in 0..patterns.len() {
        match base_of(patterns, entry) {
            Some(base) => rest_on(entry, base)?,
            None => return Ok(()),
        }
    }
    Ok(())
}

// How many trains an entry counts, if it does.
fn count_of(entry: &Table) -> Option<i64>
    ensures { result ≡ option_and_then as_integer (get_member (codes "count") (table_view entry.now)) }
{
    match member(entry, "count") {
        Some(value) => value.as_integer(),
        None => None,
    }
}

// Copies of an entry with the numbers from 1 on.
fn numbered_copies(alloc: Global, entry: &Value, count: u64) -> Result<Vec<Value>, AllocError>
    ensures { IfOk result (λ all. map view all.items ≡ map (λ k. numbered_of (decimal k) (view entry.now)) (range_with_len 1 count)) }
{
    let mut all = Vec::new(alloc);
    for before in 0..count {
        let number = before + 1;
        let number = format!(in alloc; "{number}")?;
        all.push(numbered(alloc, entry, number.as_str())?)?;
    }
    Ok(all)
}

// As many copies of an entry as it counts.
fn copies(alloc: Global, entry: Table, count: i64) -> Result<Vec<Value>, AllocError>
    ensures { IfOk result (λ all. map view all.items ≡ spec.copies (Some count) (table_view entry)) }
{
    let mut entry = entry;
    drop(take(&mut entry, "count"));
    let entry = Value::Table(entry);
    match u64::try_from(count) {
        Ok(count) => numbered_copies(alloc, &entry, count),
        Err(_) => Ok(Vec::new(alloc)),
    }
}

// A list of one value.
fn alone(alloc: Global, value: Value) -> Result<Vec<Value>, AllocError>
    ensures { IfOk result (λ all. map view all.items ≡ view value ∷ []) }
{
    let mut list = Vec::new(alloc);
    list.push(value)?;
    Ok(list)
}

// The entries that an entry counts.
fn counted(alloc: Global, entry: Table) -> Result<Vec<Value>, AllocError>
    ensures { IfOk result (λ all. map view all.items ≡ spec.counted (table_view entry)) }
{
    match count_of(&entry) {
        Some(count) => copies(alloc, entry, count),
        None => alone(alloc, Value::Table(entry)),
    }
}

// The trains that a table of keys stands for.
fn trains_of_keys(
    alloc: Global,
    patterns: &[Value],
    ways: &Table,
    own: Table,
) -> Result<Vec<Value>, AllocError>
    ensures { IfOk result (λ all. map view all.items ≡ spec.trains_by (map view patterns.now) (table_view ways.now) (table_view own)) }
{
    let mut entry = own;
    base(&mut entry, patterns)?;
    lay(alloc, ways, &mut entry)?;
    counted(alloc, entry)
}

// The trains that an entry stands for.
fn trains_of(
    alloc: Global,
    patterns: &[Value],
    ways: &Table,
    entry: &Value,
) -> Result<Vec<Value>, AllocError>
    ensures { IfOk result (λ all. map view all.items ≡ spec.trains_of (map view patterns.now) (table_view ways.now) (view entry.now)) }
{
    match entry.as_table() {
        Some(own) => trains_of_keys(alloc, patterns, ways, copy(own)?),
        None => alone(alloc, entry.clone()?),
    }
}

// The trains that some entries stand for.
fn trains_of_all(
    alloc: Global,
    patterns: &[Value],
    ways: &Table,
    entries: &[Value],
) -> Result<Vec<Value>, AllocError>
    ensures { IfOk result (λ all. map view all.items ≡ flat_map (λ v. spec.trains_of (map view patterns.now) (table_view ways.now) (view v)) entries.now) }
{
    let mut all = Vec::new(alloc);
    for entry in entries {
        let mut trains = trains_of(alloc, patterns, ways, entry)?;
        all.append(&mut trains)?;
    }
    Ok(all)
}

// A list of trains, each as the trains that it stands for.
fn all_trains(
    alloc: Global,
    patterns: &[Value],
    ways: &Table,
    entries: &Value,
) -> Result<Value, AllocError>
    ensures { IfOk result (λ all. view all ≡ spec.all_trains (map view patterns.now) (table_view ways.now) (view entries.now)) }
{
    match entries.as_array() {
        Some(items) => {
            let all = trains_of_all(alloc, patterns, ways, items.as_slice())?;
            Ok(Value::Array(all))
        }
        None => entries.clone(),
    }
}

// Writes out the trains of a part of a plan.
fn write_trains(
    alloc: Global,
    patterns: &[Value],
    ways: &Table,
    part: &mut Table,
) -> Result<(), AllocError>
    ensures { OnOk result (table_view part.new ≡ spec.with_trains (map view patterns.now) (table_view ways.now) (table_view part.old)) }
{
    if let Some(entries) = member(part, "train") {
        let all = all_trains(alloc, patterns, ways, entries)?;
        replace(part, "train", all);
    }
    Ok(())
}

// A further table with its trains written out.
fn own_trains(
    alloc: Global,
    patterns: &[Value],
    ways: &Table,
    own: &Value,
) -> Result<Value, AllocError>
    ensures { IfOk result (λ v. view v ≡ spec.own_trains (map view patterns.now) (table_view ways.now) (view own.now)) }
{
    match own.as_table() {
        Some(keys) => {
            let mut keys = copy(keys)?;
            write_trains(alloc, patterns, ways, &mut keys)?;
            Ok(Value::Table(keys))
        }
        None => own.clone(),
    }
}

// Further tables with their trains written out.
fn each_table(
    alloc: Global,
    patterns: &[Value],
    ways: &Table,
    further: &[Value],
) -> Result<Vec<Value>, AllocError>
    ensures { IfOk result (λ all. map view all.items ≡ map (λ v. spec.own_trains (map view patterns.now) (table_view ways.now) (view v)) further.now) }
{
    let mut all = Vec::new(alloc);
    for own in further {
        all.push(own_trains(alloc, patterns, ways, own)?)?;
    }
    Ok(all)
}

// A list of further tables with their trains written out.
fn all_tables(
    alloc: Global,
    patterns: &[Value],
    ways: &Table,
    further: &Value,
) -> Result<Value, AllocError>
    ensures { IfOk result (λ v. view v ≡ spec.all_tables (map view patterns.now) (table_view ways.now) (view further.now)) }
{
    match further.as_array() {
        Some(items) => {
            let all = each_table(alloc, patterns, ways, items.as_slice())?;
            Ok(Value::Array(all))
        }
        None => further.clone(),
    }
}

// Writes out the trains of a plan and of its further tables.
fn write_all(
    alloc: Global,
    patterns: &[Value],
    ways: &Table,
    plan: &mut Table,
) -> Result<(), AllocError>
    ensures { OnOk result (table_view plan.new ≡ spec.written_out (map view patterns.now) (table_view ways.now) (table_view plan.old)) }
{
    write_trains(alloc, patterns, ways, plan)?;
    if let Some(further) = member(plan, "table") {
        let all = all_tables(alloc, patterns, ways, further)?;
        replace(plan, "table", all);
    }
    Ok(())
}

// The keys of a table, if there is one; none, if there isn't.
fn table_of(alloc: Global, value: Option<&Value>) -> Result<Table, AllocError>
    ensures { IfOk result (λ keys. table_view keys ≡ spec.table_of (option_map (λ v. view v.now) value.entry)) }
{
    match value {
        Some(value) => match value.as_table() {
            Some(keys) => copy(keys),
            None => Ok(Table::new(alloc)),
        },
        None => Ok(Table::new(alloc)),
    }
}

/// A plan without its patterns and ways, and with all its trains written out.
pub(crate) fn written_out(alloc: Global, text: Table) -> Result<Table, AllocError>
    ensures { IfOk result (λ plan. table_view plan ≡ spec.expanded (table_view text)) }
{
    let mut plan = text;
    let patterns = take(&mut plan, "pattern");
    let ways = take(&mut plan, "ways");
    let ways = table_of(alloc, ways.as_ref())?;
    write_all(alloc, list_of(patterns.as_ref()), &ways, &mut plan)?;
    Ok(plan)
}
