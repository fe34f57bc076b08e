/// A platform, and a minute at which the weights of patterns that hold it are more than its use. The row of such a cut says
/// that they are at most the use: `docs/PROOFS.md`, "Fractional plans".
#[derive(Clone, Copy, PartialEq, Eq, Debug, Drop)]
pub struct CliqueCut {
    pub platform: u8,
    pub minute: i32,
}
