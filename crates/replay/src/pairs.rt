//! The pairs of a play's scenes (oracle/README.md, "A list of plays"), one scene's after the other.

/// The ids and the values of a scene. There may be more of the one than of the other.
#[derive(Clone, Copy, Debug)]
pub(crate) struct ScenePairs<'a> {
    ids: &'a [u8],
    values: &'a [u8],
}

/// As many items as the first byte says, and what follows them.
fn counted(bytes: &[u8], width: usize) -> Option<(&[u8], &[u8])> {
    let (&count, rest) = bytes.split_first()?;
    rest.split_at_checked(width.checked_mul(usize::from(count))?)
}

/// The next scene's, and what follows them, or nothing where they are used up or cut.
pub(crate) fn next_scene(bytes: &[u8]) -> Option<(ScenePairs<'_>, &[u8])> {
    let (ids, rest) = counted(bytes, 4)?;
    let (values, rest) = counted(rest, 2)?;
    Some((ScenePairs { ids, values }, rest))
}

/// Whether they end with a scene's.
pub(crate) fn are_whole(bytes: &[u8]) -> bool {
    let mut left = bytes;
    // A scene has a byte at least.
    for _ in bytes {
        match next_scene(left) {
            Some((_, rest)) => left = rest,
            None => break,
        }
    }
    left.is_empty()
}

impl ScenePairs<'_> {
    /// In the room that is lent: a count is a byte.
    pub(crate) fn ids<'a>(&self, room: &'a mut [u32; 255]) -> &'a [u32] {
        let (items, _) = self.ids.as_chunks::<4>();
        for (id, bytes) in room.iter_mut().zip(items) {
            *id = u32::from_le_bytes(*bytes);
        }
        room.get(..items.len()).unwrap_or(&[])
    }

    pub(crate) fn values<'a>(&self, room: &'a mut [u16; 255]) -> &'a [u16] {
        let (items, _) = self.values.as_chunks::<2>();
        for (value, bytes) in room.iter_mut().zip(items) {
            *value = u16::from_le_bytes(*bytes);
        }
        room.get(..items.len()).unwrap_or(&[])
    }
}
