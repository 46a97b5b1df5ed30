/// The byte that all of these are; none where two differ, and where there are none.
pub fn byte_of(bytes: &[u8]) -> Option<u8> {
    let first = *bytes.first()?;
    bytes.iter().all(|byte| *byte == first).then_some(first)
}
