//! The words of the records, and the ranges of their numbers.

use record_table::{Kind, Range};

pub(crate) const HEAD: Kind<2> = Kind {
    word: "tpp-proof",
    fields: [VERSION, TRAINS],
};

pub(crate) const TABLE: Kind<3> = Kind {
    word: "table",
    fields: [TABLE_NUMBER, TRAIN, TRAIN],
};

pub(crate) const TA: Kind<2> = Kind {
    word: "ta",
    fields: [PATTERN, SIGNED],
};

pub(crate) const TB: Kind<2> = Kind {
    word: "tb",
    fields: [PATTERN, SIGNED],
};

pub(crate) const SPLIT: Kind<2> = Kind {
    word: "split",
    fields: [TRAIN, PATTERN],
};

pub(crate) const LEAF: Kind<1> = Kind {
    word: "leaf",
    fields: [SCALE],
};

pub(crate) const U: Kind<2> = Kind {
    word: "u",
    fields: [TRAIN, SIGNED],
};

pub(crate) const V: Kind<3> = Kind {
    word: "v",
    fields: [PLATFORM, MINUTE, POSITIVE],
};

pub(crate) const A: Kind<4> = Kind {
    word: "a",
    fields: [TRAIN, TRAIN, PATTERN, SIGNED],
};

pub(crate) const B: Kind<4> = Kind {
    word: "b",
    fields: [TRAIN, TRAIN, PATTERN, SIGNED],
};

pub(crate) const USE: Kind<2> = Kind {
    word: "use",
    fields: [TABLE_NUMBER, SCALE],
};

pub(crate) const CLOSE: Kind<0> = Kind {
    word: "close",
    fields: [],
};

pub(crate) const END: Kind<1> = Kind {
    word: "end",
    fields: [BOUND],
};

pub(crate) const NONE: Kind<0> = Kind {
    word: "none",
    fields: [],
};

const VERSION: Range = Range { least: 1, most: 2 };

/// The number of trains of a station.
const TRAINS: Range = Range {
    least: 0,
    most: 200,
};

const TRAIN: Range = Range {
    least: 0,
    most: 199,
};

/// The number of a pattern, and where a split is.
const PATTERN: Range = Range {
    least: 0,
    most: 4095,
};

const PLATFORM: Range = Range { least: 0, most: 63 };

const MINUTE: Range = Range {
    least: -30,
    most: 2968,
};

const TABLE_NUMBER: Range = Range {
    least: 0,
    most: 65_535,
};

/// The scale of a leaf, and the factor of a use.
const SCALE: Range = Range {
    least: 1,
    most: 1_000_000_000_000_000_000,
};

/// The value of a train, or of a pair at a pattern.
const SIGNED: Range = Range {
    least: -1_000_000_000_000_000_000_000_000_000_000,
    most: 1_000_000_000_000_000_000_000_000_000_000,
};

/// The value of a minute.
const POSITIVE: Range = Range {
    least: 1,
    most: 1_000_000_000_000_000_000_000_000_000_000,
};

const BOUND: Range = Range {
    least: -1_000_000_000_000_000_000_000_000_000_000_000_000,
    most: 10_000_000_000_000,
};
