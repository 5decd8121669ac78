ghost use Rattle.std.specs.Prelude.{◌≡◌, ◌++◌, Some, OnOk, OnErr};
ghost use Rattle.al_value.specs.Outside.{Counted, failed, Told};
ghost use Rattle.al_io.specs.Outside.{GainsPrefix};
ghost use Rattle.al_query.specs.Lines.{check_line, code_of, data_kind_name, data_line, place_line, plan_line, refused_kind_name, status_line};

use al_csv::{BadRecord, DataKind};
use al_io::{Sink, write_pieces, write_whole};
use al_plan::{Refused, RefusedKind};
use al_value::{Failed, Name, Text};
use itoa::Buffer;

/// The name by which lines and errors call a kind of refusal.
pub fn refused_kind_name(kind: RefusedKind) -> &'static str
    ensures { result.now ≡ refused_kind_name kind }
{
    match kind {
        RefusedKind::Absent => "Absent",
        RefusedKind::Utf8 => "Utf8",
        RefusedKind::Token => "Token",
        RefusedKind::Form => "Form",
        RefusedKind::Number => "Number",
        RefusedKind::TooDeep => "TooDeep",
        RefusedKind::TooLarge => "TooLarge",
        RefusedKind::UnknownDataset => "UnknownDataset",
        RefusedKind::WrongArity => "WrongArity",
        RefusedKind::NotInNested => "NotInNested",
        RefusedKind::UnionArity => "UnionArity",
        RefusedKind::TwiceMade => "TwiceMade",
        RefusedKind::NotLive => "NotLive",
        RefusedKind::TooWide => "TooWide",
    }
}

/// A data file that is refused, by the name that the plan file gives it, and its first bad
/// record. Record 0 and column 0 stand for the whole file.
#[derive(Debug, Drop)]
pub struct DataRefused {
    pub file: Name,
    pub bad: BadRecord,
}

fn data_kind_name(kind: DataKind) -> &'static str
    ensures { result.now ≡ data_kind_name kind }
{
    match kind {
        DataKind::Absent => "Absent",
        DataKind::TooLarge => "TooLarge",
        DataKind::BadCount => "BadCount",
        DataKind::BadInt => "BadInt",
        DataKind::BadBool => "BadBool",
        DataKind::BadUtf8 => "BadUtf8",
        DataKind::TooLong => "TooLong",
    }
}

/// How a command ended.
#[derive(Debug, Drop)]
pub enum Status {
    Done,
    Usage,
    PlanRefused(Refused),
    DataRefused(DataRefused),
    /// A check of this name met a row on which its condition isn't TRUE.
    CheckFailed(Text),
    SourceFault,
    SinkFault,
    NoMemory,
}

impl Status {
    /// The program's exit status.
    pub fn code(&self) -> u8
        ensures { result ≡ code_of self.now }
    {
        match self {
            Status::Done => 0,
            Status::Usage => 1,
            Status::PlanRefused(_) => 2,
            Status::DataRefused(_) => 3,
            Status::CheckFailed(_) => 4,
            Status::SourceFault => 5,
            Status::SinkFault => 6,
            Status::NoMemory => 8,
        }
    }

    /// Writes the line that tells a user of the status, and nothing where all is done. It takes
    /// no memory.
    pub fn write_line<E: Sink>(&self, err: &mut E) -> Result<(), Failed>
        ensures ok { OnOk result (Told (E.written err.old) (λ old. E.written err.new ≡ Some (old ++ status_line self.now))) }
        ensures part { OnErr result (Told (E.written err.old) (λ old. GainsPrefix old (status_line self.now) (E.written err.new))) }
        ensures cause { Counted (failed result) (E.faults err.old) (E.faults err.new) }
    {
        match self {
            Status::Done => write_whole(err, b""),
            Status::Usage => write_whole(err, b"usage: algebricks COMMAND ARGUMENTS [OPTIONS]\n"),
            Status::PlanRefused(refused) => write_plan_refused(*refused, err),
            Status::DataRefused(refused) => write_data_refused(refused, err),
            Status::CheckFailed(name) => write_check_failed(name, err),
            Status::SourceFault => write_whole(err, b"source fault\n"),
            Status::SinkFault => write_whole(err, b"sink fault\n"),
            Status::NoMemory => write_whole(err, b"no memory\n"),
        }
    }
}

fn write_plan_refused<E: Sink>(refused: Refused, err: &mut E) -> Result<(), Failed>
    ensures ok { OnOk result (Told (E.written err.old) (λ old. E.written err.new ≡ Some (old ++ plan_line refused))) }
    ensures part { OnErr result (Told (E.written err.old) (λ old. GainsPrefix old (plan_line refused) (E.written err.new))) }
    ensures cause { Counted (failed result) (E.faults err.old) (E.faults err.new) }
{
    let mut buffer = Buffer::new();
    let place = buffer.format(refused.place).as_bytes();
    let kind = refused_kind_name(refused.kind).as_bytes();
    write_refusal(b"plan refused: ", kind, b" at ", place, b"\n", err)
}

fn write_check_failed<E: Sink>(name: &Text, err: &mut E) -> Result<(), Failed>
    ensures ok { OnOk result (Told (E.written err.old) (λ old. E.written err.new ≡ Some (old ++ check_line name.now))) }
    ensures part { OnErr result (Told (E.written err.old) (λ old. GainsPrefix old (check_line name.now) (E.written err.new))) }
    ensures cause { Counted (failed result) (E.faults err.old) (E.faults err.new) }
{
    write_parts(b"check failed: ", name.as_str().as_bytes(), b"\n", err)
}

/// Writes a line of three parts.
fn write_parts<'a, E: Sink>(
    what: &'a [u8],
    name: &'a [u8],
    behind: &'a [u8],
    err: &mut E,
) -> Result<(), Failed>
    ensures ok { OnOk result (Told (E.written err.old) (λ old. E.written err.new ≡ Some (old ++ (what.now ++ (name.now ++ behind.now))))) }
    ensures part { OnErr result (Told (E.written err.old) (λ old. GainsPrefix old (what.now ++ (name.now ++ behind.now)) (E.written err.new))) }
    ensures cause { Counted (failed result) (E.faults err.old) (E.faults err.new) }
{
    write_pieces(err, &[what, name, behind])
}

fn write_data_refused<E: Sink>(refused: &DataRefused, err: &mut E) -> Result<(), Failed>
    ensures ok { OnOk result (Told (E.written err.old) (λ old. E.written err.new ≡ Some (old ++ data_line refused.now))) }
    ensures part { OnErr result (Told (E.written err.old) (λ old. GainsPrefix old (data_line refused.now) (E.written err.new))) }
    ensures cause { Counted (failed result) (E.faults err.old) (E.faults err.new) }
{
    let mut number_buffer = Buffer::new();
    let mut column_buffer = Buffer::new();
    let place = Place {
        file: refused.file.as_str().as_bytes(),
        kind: data_kind_name(refused.bad.kind).as_bytes(),
        number: number_buffer.format(refused.bad.number).as_bytes(),
        column: column_buffer.format(refused.bad.column).as_bytes(),
    };
    write_place(&place, err)
}

/// The particulars of a data file's refusal, as they are printed.
#[derive(Clone, Copy)]
struct Place<'a> {
    file: &'a [u8],
    kind: &'a [u8],
    number: &'a [u8],
    column: &'a [u8],
}

fn write_place<'a, E: Sink>(place: &Place<'a>, err: &mut E) -> Result<(), Failed>
    ensures ok { OnOk result (Told (E.written err.old) (λ old. E.written err.new ≡ Some (old ++ place_line place.now.file.now place.now.kind.now place.now.number.now place.now.column.now))) }
    ensures part { OnErr result (Told (E.written err.old) (λ old. GainsPrefix old (place_line place.now.file.now place.now.kind.now place.now.number.now place.now.column.now) (E.written err.new))) }
    ensures cause { Counted (failed result) (E.faults err.old) (E.faults err.new) }
{
    let refused: &'a [u8] = b"data refused: ";
    let colon: &'a [u8] = b": ";
    let record: &'a [u8] = b" record ";
    let column: &'a [u8] = b" column ";
    let end: &'a [u8] = b"\n";
    let pieces = [
        refused,
        place.file,
        colon,
        place.kind,
        record,
        place.number,
        column,
        place.column,
        end,
    ];
    write_pieces(err, &pieces)
}

/// Writes the line of a refusal: what is refused, and two particulars with what stands between
/// them and behind them.
fn write_refusal<'a, E: Sink>(
    what: &'a [u8],
    first: &'a [u8],
    between: &'a [u8],
    second: &'a [u8],
    behind: &'a [u8],
    err: &mut E,
) -> Result<(), Failed>
    ensures ok { OnOk result (Told (E.written err.old) (λ old. E.written err.new ≡ Some (old ++ (what.now ++ (first.now ++ (between.now ++ (second.now ++ behind.now))))))) }
    ensures part { OnErr result (Told (E.written err.old) (λ old. GainsPrefix old (what.now ++ (first.now ++ (between.now ++ (second.now ++ behind.now)))) (E.written err.new))) }
    ensures cause { Counted (failed result) (E.faults err.old) (E.faults err.new) }
{
    write_pieces(err, &[what, first, between, second, behind])
}
