ghost use Rattle.std.specs.Prelude.{◌≡◌};
ghost use Rattle.path_conflicts.specs.Meeting.{IsHeld, common_minutes};

/// A span of minutes, from `start` up to `end`, which is left out. Nothing is held before minute -90 or after 2,968.
#[derive(Clone, Copy, PartialEq, Eq, Debug, Drop)]
pub struct Held {
    pub start: i32,
    pub end: i32,
}

/// The number of minutes that lie in both spans: `docs/RULES.md`, "Conflicts". Both lie in -90..=2,969.
///
/// It takes no memory.
pub fn meet_minutes(a: Held, b: Held) -> u32
    requires first { IsHeld a }
    requires second { IsHeld b }
    ensures { result ≡ common_minutes a b }
{
    let start = a.start.max(b.start);
    let end = a.end.min(b.end);
    if start < end { (end - start) as u32 } else { 0 }
}

#[cfg(test)]
mod tests {
    use super::*;

    #[test]
    fn counts_common_minutes(rt: HostRuntime) {
        let early = Held { start: 8, end: 10 };
        let late = Held { start: 9, end: 12 };
        let apart = Held { start: 10, end: 15 };
        assert_eq!(rt; meet_minutes(early, late), 1);
        assert_eq!(rt; meet_minutes(early, early), 2);
        assert_eq!(rt; meet_minutes(early, apart), 0);
    }
}
