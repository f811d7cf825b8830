//! Changes of a disk's bytes. What is beyond their end is left as it is.

/// Puts this byte at that place.
pub fn set(bytes: &mut [u8], place: usize, value: u8) {
    if let Some(byte) = bytes.get_mut(place) {
        *byte = value;
    }
}

/// Puts zeros from that place on.
pub fn clear_from(bytes: &mut [u8], place: usize) {
    for byte in bytes.iter_mut().skip(place) {
        *byte = 0;
    }
}

/// Whether these bytes stand at that place.
pub fn stand_at(bytes: &[u8], place: usize, want: &[u8]) -> bool {
    bytes.get(place..).unwrap_or(&[]).starts_with(want)
}
