// The records of a plan file, each read from a line and written as one.
ghost use Rattle.plan_cost.specs.PlanLine.{choice_of, choice_ranges, header_of, header_ranges, record_in, values_in};
ghost use Rattle.plan_cost.specs.PlanText.{IsRecord, record_line};
ghost use Rattle.record_table.specs.Line.{are_in_range, is_word};
ghost use Rattle.std.specs.Prelude.{◌≡◌, ◌≤◌, ◌++◌, IsTrue, IfSome, OnOk};

use record_table::{Kind, Range, read_record, write_record};
use std::alloc::{AllocError, Global};

const HEADER: Kind<2> = Kind {
    word: "tpp-plan",
    fields: [VERSION, TRAINS],
};

const CHOICE: Kind<2> = Kind {
    word: "choice",
    fields: [TRAIN, NUMBER],
};

const END: Kind<0> = Kind {
    word: "end",
    fields: [],
};

const VERSION: Range = Range { least: 1, most: 1 };

const TRAINS: Range = Range {
    least: 0,
    most: 200,
};

const TRAIN: Range = Range {
    least: 0,
    most: 199,
};

const NUMBER: Range = Range {
    least: 0,
    most: 4095,
};

/// A record of a plan file.
#[derive(Clone, Copy, PartialEq, Eq, Debug, Drop)]
pub(crate) enum PlanRecord {
    /// The number of trains.
    Header(u16),
    /// A train, and the number of its pattern.
    Choice(u16, u16),
    End,
}

/// The record that a line is, if it is one. The line has no newline.
#[tactic(auto, unfolding(crate::specs::PlanLine::record_in))]
pub(crate) fn record_in(line: &[u8]) -> Option<PlanRecord>
    ensures { result ≡ record_in line.now }
{
    macro_rules! first_kind {
        ($($kind:ident => $record:ident),*) => {
            $(if let Some(values) = values_in(&$kind, line) {
                return Some($record(values));
            })*
        };
    }
    first_kind!(HEADER => header, CHOICE => choice, END => end);
    None
}

fn values_in<const N: usize>(kind: &Kind<N>, line: &[u8]) -> Option<[i128; N]>
    requires few { N ≤ 4 }
    requires word { IsTrue (is_word kind.now.word.now) }
    ensures value { result ≡ values_in N kind.now.word.now kind.now.fields line.now }
    ensures range { IfSome result (λ values. IsTrue (are_in_range kind.now.fields values)) }
{
    read_record(kind, line).ok()
}

fn header(values: [i128; 2]) -> PlanRecord
    requires { IsTrue (are_in_range header_ranges values) }
    ensures { result ≡ header_of values }
{
    PlanRecord::Header(values[1] as u16)
}

fn choice(values: [i128; 2]) -> PlanRecord
    requires { IsTrue (are_in_range choice_ranges values) }
    ensures { result ≡ choice_of values }
{
    PlanRecord::Choice(values[0] as u16, values[1] as u16)
}

fn end(_: [i128; 0]) -> PlanRecord
    ensures { result ≡ PlanRecord.End }
{
    PlanRecord::End
}

/// Adds the line of a record. An `Err` leaves the text as some front of that.
pub(crate) fn push_record(
    alloc: Global,
    item: PlanRecord,
    into: &mut Vec<u8>,
) -> Result<(), AllocError>
    requires { IsRecord item }
    ensures { OnOk result (into.new.items ≡ into.old.items ++ record_line item) }
{
    macro_rules! by_kind {
        ($($record:pat => $kind:ident [$($value:expr),*],)*) => {
            match item {
                $($record => write_record(alloc, &$kind, &[$(i128::from($value)),*], into),)*
            }
        };
    }
    by_kind!(
        PlanRecord::Header(trains) => HEADER [1u8, trains],
        PlanRecord::Choice(train, number) => CHOICE [train, number],
        PlanRecord::End => END [],
    )
}
