// Numbers of a list by their places, and parts of it; what lies past its end is 0, or missing.
ghost use Rattle.std.specs.Prelude.{◌≡◌, get_or, take, drop};

/// The number at a place; 0 past the end.
pub fn number(list: &[u32], at: usize) -> u32
    ensures { result ≡ get_or list.now at 0 }
{
    list.get(at).copied().unwrap_or(0)
}

/// The first numbers, so many; all of them where there are fewer.
pub fn first(list: &[u32], count: usize) -> &[u32]
    ensures { result.now ≡ take count list.now }
{
    &list[..count.min(list.len())]
}

/// The numbers after so many; none past the end.
pub fn after(list: &[u32], count: usize) -> &[u32]
    ensures { result.now ≡ drop count list.now }
{
    list.get(count..).unwrap_or(&[])
}
