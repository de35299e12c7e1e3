ghost use Rattle.std.specs.Prelude.{◌≡◌, ◌++◌, nat_eq, take, drop};
ghost use Rattle.std.specs.List.{starts_with};

/// The first so many of these bytes, or all where they are fewer.
pub(crate) fn front(bytes: &[u8], count: usize) -> &[u8]
    ensures { result.now ≡ take count bytes.now }
{
    &bytes[..count.min(bytes.len())]
}

/// What stands behind the first so many of these bytes: nothing where they are fewer.
pub(crate) fn behind(bytes: &[u8], count: usize) -> &[u8]
    ensures { result.now ≡ drop count bytes.now }
{
    &bytes[count.min(bytes.len())..]
}

/// Whether the bytes of these two parts begin with these.
#[tactic(auto, using(crate::proofs::Fronts::begins_both))]
pub(crate) fn begin_with(first: &[u8], second: &[u8], bytes: &[u8]) -> bool
    ensures { result ≡ starts_with nat_eq (first.now ++ second.now) bytes.now }
{
    let (front, rest) = bytes.split_at(bytes.len().min(first.len()));
    first.starts_with(front) && second.starts_with(rest)
}
