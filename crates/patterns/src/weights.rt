use sequence::Sequence;

/// Weights over one scale, aligned with lists of allowed numbers and with the platforms: how much of each pattern a
/// fractional plan takes.
#[derive(Drop)]
pub struct Weights {
    pub scale: i128,
    /// Of each train's allowed patterns.
    pub weight: Sequence<Sequence<i128>>,
    /// Of leaving each train out.
    pub left: Sequence<i128>,
    /// Of each platform.
    pub uses: Sequence<i128>,
}
