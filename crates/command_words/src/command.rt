// The commands of the program.
ghost use Rattle.std.specs.Prelude.{◌≤◌};

/// Finds a plan of least cost, and writes plan and proof where files are named.
#[derive(Clone, Copy, Debug, PartialEq, Eq)]
pub struct Solve<'a> {
    /// The file of the station.
    pub instance: &'a str,
    /// How often a train's list may be split, at most 2^40.
    pub splits: u64,
    /// The file that gets the plan.
    pub plan: Option<&'a str>,
    /// The file that gets the proof.
    pub proof: Option<&'a str>,
}

/// Checks a proof, and a plan against its bound.
#[derive(Clone, Copy, Debug, PartialEq, Eq)]
pub struct Check<'a> {
    /// The file of the station.
    pub instance: &'a str,
    /// The file of the proof.
    pub proof: &'a str,
    /// The file of the plan.
    pub plan: Option<&'a str>,
}

/// Judges a plan and prints its cost.
#[derive(Clone, Copy, Debug, PartialEq, Eq)]
pub struct Cost<'a> {
    /// The file of the station.
    pub instance: &'a str,
    /// The file of the plan.
    pub plan: &'a str,
}

/// Prints what is known of all plans without a search.
#[derive(Clone, Copy, Debug, PartialEq, Eq)]
pub struct Bound<'a> {
    /// The file of the station.
    pub instance: &'a str,
}

/// Prints all pattern lists.
#[derive(Clone, Copy, Debug, PartialEq, Eq)]
pub struct Patterns<'a> {
    /// The file of the station.
    pub instance: &'a str,
}

/// Prints a chart of a plan, from one minute up to but without another.
#[derive(Clone, Copy, Debug, PartialEq, Eq)]
pub struct Chart<'a> {
    /// The file of the station.
    pub instance: &'a str,
    /// The file of the plan.
    pub plan: &'a str,
    /// The first minute, at most 9,999.
    pub from: u32,
    /// The minute behind the last one, at most 9,999. It may be any, also one before `from`.
    pub to: u32,
}

/// A station that a number makes.
#[derive(Clone, Copy, Debug, PartialEq, Eq)]
pub struct Generated {
    pub number: u64,
    /// How many trains the station has, at most 200.
    pub trains: u8,
    pub ghost few: { trains ≤ 200 },
}

/// A command with the names and numbers that its words give.
#[derive(Clone, Copy, Debug, PartialEq, Eq)]
pub enum Command<'a> {
    /// `solve INSTANCE [--splits N] [--plan FILE] [--proof FILE]`
    Solve(Solve<'a>),
    /// `check INSTANCE PROOF [PLAN]`
    Check(Check<'a>),
    /// `cost INSTANCE PLAN`
    Cost(Cost<'a>),
    /// `bound INSTANCE`
    Bound(Bound<'a>),
    /// `patterns INSTANCE`
    Patterns(Patterns<'a>),
    /// `platforms INSTANCE PLAN FROM TO`
    Platforms(Chart<'a>),
    /// `paths INSTANCE PLAN FROM TO`
    Paths(Chart<'a>),
    /// `make NUMBER TRAINS`
    Make(Generated),
    /// `trial NUMBER TRAINS`
    Trial(Generated),
}
