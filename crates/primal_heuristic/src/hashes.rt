// Numbers that stand for lists of numbers. Two lists with one such number are taken for equal, which is so rare that it costs at most a
// plan now and then.

/// A number that depends on all bits of both.
pub(crate) fn joined(before: u64, next: u64) -> u64 {
    let sum = before.rotate_left(23) ^ next.wrapping_add(0x9E37_79B9_7F4A_7C15);
    let product = sum.wrapping_mul(0xBF58_476D_1CE4_E5B9);
    product ^ product.rotate_left(32)
}

/// A set that has one platform.
pub(crate) fn bit(platform: usize) -> u64 {
    1u64.wrapping_shl((platform % 64) as u32)
}

/// Whether the set has the platform.
pub(crate) fn has(set: u64, platform: usize) -> bool {
    set & bit(platform) != 0
}
