//! A file that is held in memory.
ghost use Rattle.std.specs.Prelude.{◌≡◌, ◌<◌, ◌+◌, ◌^◌, ◌++◌, min, drop, take, length, slice_index_or, Some, [], None, MatchOption};
ghost use Rattle.ale_base.specs.HeldFiles.{content_of, rest_of};
ghost use Rattle.ale_base.specs.NamedBytes.{all_named};

/// A name, and the bytes of its file.
#[derive(Drop)]
pub(crate) struct HeldFile {
    pub(crate) name: String,
    pub(crate) bytes: Vec<u8>,
}

// The place of the file of this name.
pub(crate) fn place_of(held: &[HeldFile], name: &str) -> Option<usize>
    ensures { let files = all_named held.now in
        MatchOption result (content_of files name.now ≡ None) (λ place. (place < length held.now)
        × (content_of files name.now ≡ Some (slice_index_or files place ([], [])).1)) }
{
    for (place, file) in held.iter().enumerate() {
        if file.name.as_str() == name {
            return Some(place);
        }
    }
    None
}

// What is left of the file at this place, from the byte `at` on.
pub(crate) fn rest_at(held: &[HeldFile], place: Option<usize>, at: usize) -> &[u8]
    ensures rest { result.now ≡ rest_of (all_named held.now) place at }
    ensures fits { 0 < length result.now → at + length result.now < 2 ^ 64 }
{
    match place {
        Some(place) if place < held.len() => {
            let bytes = held[place].bytes.as_slice();
            &bytes[at.min(bytes.len())..]
        }
        _ => &[],
    }
}

// Copies as much of `from` as there is room for to the front of `to`, and answers how much.
pub(crate) fn copy_front(from: &[u8], to: &mut [u8]) -> usize
    ensures count { result ≡ min (length from.now) (length to.old) }
    ensures bytes { to.new ≡ take result from.now ++ drop result to.old }
{
    let count = from.len().min(to.len());
    to[..count].copy_from_slice(&from[..count]);
    count
}
