// The parts of a station. docs/FORMATS.md has the limits of their numbers, docs/RULES.md what they mean.
use crate::name::Name;
use sequence::Sequence;

/// A platform, a regular one or a dummy.
#[derive(Drop)]
pub struct Platform {
    pub name: Name,
    /// A dummy platform has no paths.
    pub dummy: bool,
    /// What its use by any train costs, at most 10^9.
    pub price: u32,
    /// Minutes for which the platform is still held after a departure, at most 60.
    pub headway: u32,
    /// Minutes that are wished between two trains, and priced where they are missing, at most 60.
    pub buffer: u32,
}

/// Which way trains run on a path.
#[derive(Clone, Copy, PartialEq, Eq, Debug, Drop)]
pub enum PathWay {
    /// From the direction to the platform.
    In,
    /// From the platform to the direction.
    Out,
}

/// A path between a direction and a platform.
#[derive(Drop)]
pub struct Path {
    pub name: Name,
    /// The number of its direction.
    pub direction: u8,
    /// The number of its platform, which is no dummy.
    pub platform: u8,
    pub way: PathWay,
    /// The running time in minutes, 1 to 60.
    pub minutes: u32,
    /// What each use costs, at most 10^9.
    pub price: u32,
}

/// Two paths that can't be used at once, by their numbers, the first below the second.
#[derive(Clone, Copy, PartialEq, Eq, Debug, Drop)]
pub struct PathPair {
    pub first: u16,
    pub second: u16,
}

/// What a train pays on a platform beside the rest.
#[derive(Clone, Copy, PartialEq, Eq, Debug, Drop)]
pub struct Surcharge {
    /// The number of the platform.
    pub platform: u8,
    /// At most 10^9.
    pub price: u32,
}

/// A train of the timetable.
#[derive(Drop)]
pub struct Train {
    pub name: Name,
    /// The number of the direction that it comes from. A train without one begins here.
    pub from: Option<u8>,
    /// The number of the direction that it goes to. A train without one ends here.
    pub to: Option<u8>,
    /// The timetabled minute of arrival, 0 to 2,879.
    pub arrive: i32,
    /// The timetabled minute of departure, 0 to 2,879.
    pub depart: i32,
    /// The least number of minutes from arrival to departure, 1 to 2,879.
    pub dwell: u32,
    /// By how many minutes it may arrive too early, at most 30, and so the next three.
    pub arrive_early: u32,
    pub arrive_late: u32,
    pub depart_early: u32,
    pub depart_late: u32,
    /// The platforms that it may use, by number, ascending.
    pub platforms: Sequence<u8>,
    /// The platforms that it prefers, by number, ascending.
    pub prefer: Sequence<u8>,
    /// What it pays on a platform that it doesn't prefer, at most 10^9.
    pub off_price: u32,
    /// What it pays for each minute of shift, at most 10^6.
    pub shift_price: u32,
    /// Ascending by platform, each platform once.
    pub surcharges: Sequence<Surcharge>,
}

/// A way to serve one train. The list of those that the rules allow a train ("Allowed patterns" in
/// docs/RULES.md) is `allowed_list` of specs/Allowed.antt.
#[derive(Clone, Copy, PartialEq, Eq, Debug, Drop)]
pub struct Pattern {
    /// The number of the platform.
    pub platform: u8,
    /// The number of the arrival path, if there is one.
    pub path_in: Option<u16>,
    /// The number of the departure path, if there is one.
    pub path_out: Option<u16>,
    /// The minute of arrival, -30 to 2,909.
    pub arrive: i32,
    /// The minute of departure, -30 to 2,909.
    pub depart: i32,
}
