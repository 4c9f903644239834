//! A line's bytes, copied without a call: what links the archive needs no `memcpy`.
// A copy of any length is compiled to a call of `memcpy`, and so is a loop over bytes. One of a fixed length is compiled to loads and stores.
ghost use Rattle.std.specs.Prelude.{◌≡◌, ◌*◌, ◌≤◌, length};

/// Copies `text`, of at most 256 bytes, over `out`.
// Not inline: what calls it would call nothing then, and keep bytes below the stack's end on x86-64, where an interrupt may write.
#[inline(never)]
pub(crate) fn copy_in_blocks(out: &mut [u8], text: &[u8])
    requires same { length out.old ≡ length text.now }
    requires upper_bound { length text.now ≤ 256 }
    ensures { out.new ≡ text.now }
{
    match text.len() {
        0 => {}
        1 => copy_ends::<1>(out, text),
        2..=3 => copy_ends::<2>(out, text),
        4..=7 => copy_ends::<4>(out, text),
        8..=15 => copy_ends::<8>(out, text),
        16..=31 => copy_ends::<16>(out, text),
        32..=63 => copy_ends::<32>(out, text),
        64..=127 => copy_ends::<64>(out, text),
        _ => copy_ends::<128>(out, text),
    }
}

/// Copies the first N bytes of `text` and its last N, which are all of it: the two blocks meet or overlap.
#[inline]
#[tactic(auto, using(crate::proofs::CopyLaws::ends_meet))]
fn copy_ends<const N: usize>(out: &mut [u8], text: &[u8])
    requires same { length out.old ≡ length text.now }
    requires lower_bound { N ≤ length text.now }
    requires upper_bound { length text.now ≤ 2 * N }
    ensures { out.new ≡ text.now }
{
    let last = text.len() - N;
    out[..N].copy_from_slice(&text[..N]);
    out[last..].copy_from_slice(&text[last..]);
}
