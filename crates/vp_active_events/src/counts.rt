ghost use Rattle.std.specs.Prelude.{◌≡◌, slice_index_or, slice_set};

/// The count at a place; 0 where there is none.
#[inline(always)]
pub fn count_at(counts: &[usize], place: usize) -> usize
    ensures { result ≡ slice_index_or counts.now place 0 }
{
    match counts.get(place) {
        Some(count) => *count,
        None => 0,
    }
}

/// The count at a place becomes another, if there is one.
#[inline(always)]
pub fn set_count(counts: &mut Vec<usize>, place: usize, count: usize)
    ensures { counts.new.items ≡ slice_set counts.old.items place count }
{
    if let Some(at) = counts.get_mut(place) {
        *at = count;
    }
}
