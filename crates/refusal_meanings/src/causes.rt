// The words and the fields of why a document is refused.

use crate::field::Field;
use document_json::DocRefused;
use document_shapes::{Member, ShapeRefused};
use legal_state::Illegal;
use mission_table::{MissionRefused, TrainRefused};
use section_marks::MarkRefused;
use std::alloc::{AllocError, Global};
use track_layout::LayoutRefused;

/// A refusal: its words without fields, and its fields.
#[derive(Drop)]
pub(crate) struct Cause {
    pub words: &'static str,
    pub fields: Vec<Field<'static>>,
}

// The refusal with these words and fields.
fn with_fields(
    alloc: Global,
    words: &'static str,
    fields: &[Field<'static>],
) -> Result<Cause, AllocError> {
    let fields = Vec::from_slice(alloc, fields)?;
    Ok(Cause { words, fields })
}

// The refusal with these words, and with fields that are numbers: `cause!(alloc; "7 Name", Point point)`.
macro_rules! cause {
    ($alloc:expr; $words:literal $(, $kind:ident $number:expr)*) => {
        with_fields($alloc, $words, &[$(Field::$kind($number as _)),*])
    };
}

/// Why a document is refused.
pub(crate) fn cause_of(alloc: Global, refused: &DocRefused) -> Result<Cause, AllocError> {
    match *refused {
        DocRefused::Memory => cause!(alloc; "202 Memory"),
        DocRefused::Shape(refused) => shape_cause(alloc, refused),
        DocRefused::Layout(refused) => layout_cause(alloc, refused),
        DocRefused::Trains(refused) => trains_cause(alloc, refused),
        DocRefused::Tables { count } => cause!(alloc; "115 Tables", Count count),
        DocRefused::After { table, value } => cause!(alloc; "105 After", Table table, Value value),
        DocRefused::Missions { table, refused } => missions_cause(alloc, table, refused),
        DocRefused::Marks { table, refused } => marks_cause(alloc, table, refused),
        DocRefused::TimesLength {
            table,
            train,
            count,
        } => cause!(alloc; "113 TimesLength", Table table, Train train, Count count),
        DocRefused::TimesValue {
            table,
            train,
            place,
            value,
        } => cause!(alloc; "114 TimesValue", Table table, Train train, Place place, Value value),
        DocRefused::StartLength { count } => cause!(alloc; "111 StartLength", Count count),
        DocRefused::Start(illegal) => start_cause(alloc, illegal),
    }
}

// Why bytes have no members of a document.
fn shape_cause(alloc: Global, refused: ShapeRefused) -> Result<Cause, AllocError> {
    match refused {
        ShapeRefused::NotJson => cause!(alloc; "101 NotJson"),
        ShapeRefused::Shape { table, member } => member_cause(alloc, table, member),
        ShapeRefused::Version { value } => cause!(alloc; "103 Version", Value value),
        ShapeRefused::Memory => cause!(alloc; "202 Memory"),
    }
}

// That a member of the document, or of one of its tables, has another shape.
fn member_cause(alloc: Global, table: Option<usize>, member: Member) -> Result<Cause, AllocError> {
    let member = Field::Member(member.name());
    match table {
        None => with_fields(alloc, "102 Shape", &[member]),
        Some(table) => with_fields(alloc, "102 Shape", &[Field::Table(table), member]),
    }
}

fn layout_cause(alloc: Global, refused: LayoutRefused) -> Result<Cause, AllocError> {
    match refused {
        LayoutRefused::TooMany { what, count } => with_fields(
            alloc,
            "1 TooMany",
            &[Field::What(what.name()), Field::Count(count)],
        ),
        LayoutRefused::DoubleName { first, second } =>
            cause!(alloc; "2 DoubleName", Point first, Point second),
        LayoutRefused::UnknownPoint { link } => cause!(alloc; "3 UnknownPoint", Link link),
        LayoutRefused::SelfLink { link } => cause!(alloc; "4 SelfLink", Link link),
        LayoutRefused::ZoneRange { point } => cause!(alloc; "5 ZoneRange", Point point),
        LayoutRefused::ZoneEmpty { zone } => cause!(alloc; "6 ZoneEmpty", Zone zone),
        LayoutRefused::Name { point } => cause!(alloc; "7 Name", Point point),
        LayoutRefused::NoZone => cause!(alloc; "8 NoZone"),
        LayoutRefused::Memory => cause!(alloc; "202 Memory"),
    }
}

fn trains_cause(alloc: Global, refused: TrainRefused) -> Result<Cause, AllocError> {
    match refused {
        TrainRefused::TooMany { count } => cause!(alloc; "11 TooMany", Count count),
        TrainRefused::DoubleName { first, second } =>
            cause!(alloc; "15 DoubleName", Another first, Another second),
        TrainRefused::Name { train } => cause!(alloc; "17 Name", Train train),
        TrainRefused::Memory => cause!(alloc; "202 Memory"),
    }
}

fn missions_cause(
    alloc: Global,
    table: usize,
    refused: MissionRefused,
) -> Result<Cause, AllocError> {
    match refused {
        MissionRefused::Length { train, count } =>
            cause!(alloc; "12 Length", Table table, Train train, Count count),
        MissionRefused::UnknownPoint { train, place } =>
            cause!(alloc; "13 UnknownPoint", Table table, Train train, Place place),
        MissionRefused::NotLinked { train, place } =>
            cause!(alloc; "14 NotLinked", Table table, Train train, Place place),
        MissionRefused::Lists { count } => cause!(alloc; "16 Lists", Table table, Count count),
        MissionRefused::Exits { count } => cause!(alloc; "18 Exits", Table table, Count count),
        MissionRefused::Memory => cause!(alloc; "202 Memory"),
    }
}

fn marks_cause(alloc: Global, table: usize, refused: MarkRefused) -> Result<Cause, AllocError> {
    match refused {
        MarkRefused::TooMany { count } => cause!(alloc; "21 TooMany", Table table, Count count),
        MarkRefused::Count { section, train } =>
            cause!(alloc; "22 Count", Table table, Section section, Train train),
        MarkRefused::Step {
            section,
            train,
            place,
            value,
        } =>
            cause!(alloc; "23 Step", Table table, Section section, Train train, Place place, Value value),
        MarkRefused::Share {
            section,
            train,
            place,
            value,
        } =>
            cause!(alloc; "24 Share", Table table, Section section, Train train, Place place, Value value),
        MarkRefused::Limit { section, value } =>
            cause!(alloc; "25 Limit", Table table, Section section, Value value),
        MarkRefused::Connections { count } =>
            cause!(alloc; "26 Connections", Table table, Count count),
        MarkRefused::ConnectionTrain { connection } =>
            cause!(alloc; "27 ConnectionTrain", Table table, Connection connection),
        MarkRefused::ConnectionPlace { connection } =>
            cause!(alloc; "28 ConnectionPlace", Table table, Connection connection),
    }
}

// Why a start isn't legal.
fn start_cause(alloc: Global, illegal: Illegal) -> Result<Cause, AllocError> {
    match illegal {
        Illegal::Length { count } => cause!(alloc; "112 StartIllegal 31 Length", Count count),
        Illegal::Range { train } => cause!(alloc; "112 StartIllegal 32 Range", Train train),
        Illegal::Clash {
            first,
            second,
            point,
        } => cause!(alloc; "112 StartIllegal 33 Clash", Another first, Another second, Point point),
        Illegal::Over {
            section,
            count,
            limit,
        } => cause!(alloc; "112 StartIllegal 34 Over", Section section, Count count, Limit limit),
    }
}
