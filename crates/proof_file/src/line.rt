// A line as a record, and a record as a line.
ghost use Rattle.proof_file.specs.Kind.{a_kind, end_kind, head_kind, is_in_range, leaf_kind, line_of, natural_in, integer_in, number_kinds, number_value_of, pair_value_of, split_kind, ta_kind, table_kind, table_kinds, tree_kinds, u_kind, use_kind, v_kind};
ghost use Rattle.proof_file.specs.Reading.{answer_by, line_read, numbers_in};
ghost use Rattle.record_table.specs.Line.{are_in_range, is_word};
ghost use Rattle.std.specs.Prelude.{◌≡◌, ◌≤◌, ◌++◌, IsTrue, IfOk, IfSome, OnOk};

use crate::fault::LineFault;
use crate::kinds::{A, B, CLOSE, END, HEAD, LEAF, NONE, SPLIT, TA, TABLE, TB, U, USE, V};
use crate::record::{HeadRecord, ProofRecord, TableHead};
use leaf_bounds::{Cut, MinuteValue, NumberValue, PairValue, TrainValue, UseOf};
use record_table::{Kind, RecordFault, read_record, write_record};
use std::alloc::{AllocError, Global};

/// A line has at most so many bytes before its newline.
pub(crate) const LINE_BYTES: usize = 80;

/// The record that a line without its newline is, in a file of this version, or what is wrong with the line.
#[tactic(auto, unfolding(crate::specs::Reading::line_read))]
pub(crate) fn record_in(version: u8, line: &[u8]) -> Result<ProofRecord, LineFault>
    ensures { result ≡ line_read version line.now }
{
    if line.len() > LINE_BYTES {
        return Err(LineFault::Shape);
    }
    if let Some(answer) = tree_record(line) {
        return answer;
    }
    if let Some(answer) = number_record(line) {
        return answer;
    }
    if version == 2 {
        if let Some(answer) = table_record(line) {
            return answer;
        }
    }
    Err(LineFault::Shape)
}

/// The answer of the first of these kinds that has the line's word.
macro_rules! first_kind {
    ($line:ident: $($kind:ident => $record:ident),*) => {
        $(match numbers_in(&$kind, $line) {
            Some(Ok(values)) => return Some(Ok($record(values))),
            Some(Err(fault)) => return Some(Err(fault)),
            None => {}
        })*
    };
}

fn tree_record(line: &[u8]) -> Option<Result<ProofRecord, LineFault>>
    ensures { result ≡ answer_by tree_kinds line.now }
{
    first_kind!(line: HEAD => head, SPLIT => split, LEAF => leaf, CLOSE => close, END => end, NONE => none);
    None
}

fn number_record(line: &[u8]) -> Option<Result<ProofRecord, LineFault>>
    ensures { result ≡ answer_by number_kinds line.now }
{
    first_kind!(line: U => train, V => minute, A => first_pair, B => second_pair);
    None
}

fn table_record(line: &[u8]) -> Option<Result<ProofRecord, LineFault>>
    ensures { result ≡ answer_by table_kinds line.now }
{
    first_kind!(line: TABLE => table, TA => first_number, TB => second_number, USE => use_of);
    None
}

/// The numbers of a line of the kind's word, or what is wrong with it. A line of another word gives `None`.
fn numbers_in<const N: usize>(kind: &Kind<N>, line: &[u8]) -> Option<Result<[i128; N], LineFault>>
    requires few { N ≤ 4 }
    requires word { IsTrue (is_word kind.now.word.now) }
    ensures value { result ≡ numbers_in N kind.now.word.now kind.now.fields line.now }
    ensures range { IfSome result (λ read. IfOk read (λ values. IsTrue (are_in_range kind.now.fields values))) }
{
    match read_record(kind, line) {
        Ok(values) => Some(Ok(values)),
        Err(RecordFault::Word) => None,
        Err(RecordFault::Shape) => Some(Err(LineFault::Shape)),
        Err(RecordFault::Number) => Some(Err(LineFault::Number)),
    }
}

fn head(values: [i128; 2]) -> ProofRecord
    requires { IsTrue (are_in_range head_kind.ranges values) }
    ensures { result ≡ head_kind.make values }
{
    ProofRecord::Head(HeadRecord {
        version: values[0] as u8,
        trains: values[1] as u16,
    })
}

fn split(values: [i128; 2]) -> ProofRecord
    requires { IsTrue (are_in_range split_kind.ranges values) }
    ensures { result ≡ split_kind.make values }
{
    ProofRecord::Split(Cut {
        train: values[0] as u16,
        at: values[1] as u16,
    })
}

fn leaf(values: [i128; 1]) -> ProofRecord
    requires { IsTrue (are_in_range leaf_kind.ranges values) }
    ensures { result ≡ leaf_kind.make values }
{
    ProofRecord::Leaf(values[0])
}

fn close(_: [i128; 0]) -> ProofRecord
    ensures { result ≡ ProofRecord.Close }
{
    ProofRecord::Close
}

fn end(values: [i128; 1]) -> ProofRecord
    requires { IsTrue (are_in_range end_kind.ranges values) }
    ensures { result ≡ end_kind.make values }
{
    ProofRecord::End(values[0])
}

fn none(_: [i128; 0]) -> ProofRecord
    ensures { result ≡ ProofRecord.Nothing }
{
    ProofRecord::Nothing
}

fn train(values: [i128; 2]) -> ProofRecord
    requires { IsTrue (are_in_range u_kind.ranges values) }
    ensures { result ≡ u_kind.make values }
{
    ProofRecord::U(TrainValue {
        train: values[0] as u16,
        value: values[1],
    })
}

fn minute(values: [i128; 3]) -> ProofRecord
    requires { IsTrue (are_in_range v_kind.ranges values) }
    ensures { result ≡ v_kind.make values }
{
    ProofRecord::V(MinuteValue {
        platform: values[0] as u16,
        minute: values[1] as i32,
        value: values[2],
    })
}

fn first_pair(values: [i128; 4]) -> ProofRecord
    requires { IsTrue (are_in_range a_kind.ranges values) }
    ensures { result ≡ ProofRecord.A (pair_value_of values) }
{
    ProofRecord::A(pair_value(values))
}

fn second_pair(values: [i128; 4]) -> ProofRecord
    requires { IsTrue (are_in_range a_kind.ranges values) }
    ensures { result ≡ ProofRecord.B (pair_value_of values) }
{
    ProofRecord::B(pair_value(values))
}

fn pair_value(values: [i128; 4]) -> PairValue
    requires { IsTrue (are_in_range a_kind.ranges values) }
    ensures { result ≡ pair_value_of values }
{
    PairValue {
        first: values[0] as u16,
        second: values[1] as u16,
        number: values[2] as u16,
        value: values[3],
    }
}

fn table(values: [i128; 3]) -> ProofRecord
    requires { IsTrue (are_in_range table_kind.ranges values) }
    ensures { result ≡ table_kind.make values }
{
    ProofRecord::Table(TableHead {
        table: values[0] as u32,
        first: values[1] as u16,
        second: values[2] as u16,
    })
}

fn first_number(values: [i128; 2]) -> ProofRecord
    requires { IsTrue (are_in_range ta_kind.ranges values) }
    ensures { result ≡ ProofRecord.Ta (number_value_of values) }
{
    ProofRecord::Ta(number_value(values))
}

fn second_number(values: [i128; 2]) -> ProofRecord
    requires { IsTrue (are_in_range ta_kind.ranges values) }
    ensures { result ≡ ProofRecord.Tb (number_value_of values) }
{
    ProofRecord::Tb(number_value(values))
}

fn number_value(values: [i128; 2]) -> NumberValue
    requires { IsTrue (are_in_range ta_kind.ranges values) }
    ensures { result ≡ number_value_of values }
{
    NumberValue {
        number: values[0] as u16,
        value: values[1],
    }
}

fn use_of(values: [i128; 2]) -> ProofRecord
    requires { IsTrue (are_in_range use_kind.ranges values) }
    ensures { result ≡ use_kind.make values }
{
    ProofRecord::Use(UseOf {
        table: values[0] as u32,
        factor: values[1],
    })
}

/// Adds the line of a record. An `Err` leaves the text as it was.
#[tactic(auto, unfolding(crate::specs::Kind::is_in_range, crate::specs::Kind::line_of))]
pub(crate) fn push_record(
    alloc: Global,
    item: &ProofRecord,
    into: &mut Vec<u8>,
) -> Result<(), AllocError>
    requires { IsTrue (is_in_range item.now) }
    ensures { OnOk result (into.new.items ≡ into.old.items ++ line_of item.now) }
{
    macro_rules! by_kind {
        ($($record:pat => $kind:ident [$($value:expr),*],)*) => {
            match item {
                $($record => write_record(alloc, &$kind, &[$($value),*], into),)*
            }
        };
    }
    by_kind!(
        ProofRecord::Head(x) => HEAD [i128::from(x.version), i128::from(x.trains)],
        ProofRecord::Table(x) => TABLE [i128::from(x.table), i128::from(x.first), i128::from(x.second)],
        ProofRecord::Ta(x) => TA [i128::from(x.number), x.value],
        ProofRecord::Tb(x) => TB [i128::from(x.number), x.value],
        ProofRecord::Split(x) => SPLIT [i128::from(x.train), i128::from(x.at)],
        ProofRecord::Leaf(q) => LEAF [*q],
        ProofRecord::U(x) => U [i128::from(x.train), x.value],
        ProofRecord::V(x) => V [i128::from(x.platform), i128::from(x.minute), x.value],
        ProofRecord::A(x) => A [i128::from(x.first), i128::from(x.second), i128::from(x.number), x.value],
        ProofRecord::B(x) => B [i128::from(x.first), i128::from(x.second), i128::from(x.number), x.value],
        ProofRecord::Use(x) => USE [i128::from(x.table), x.factor],
        ProofRecord::Close => CLOSE [],
        ProofRecord::End(bound) => END [*bound],
        ProofRecord::Nothing => NONE [],
    )
}
