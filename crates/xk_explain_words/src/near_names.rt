//! Names that are one slip of the hand apart.

ghost use Rattle.std.specs.Prelude.{◌≡◌, ◌<◌, drop, length};
ghost use Rattle.std.specs.Option.{MatchOption};
ghost use Rattle.std.specs.Str.{bytes_eq, str_eq_ignore_ascii_case};
ghost use Rattle.xk_explain_words.specs.NearNames.{are_long, are_swapped, is_edited, is_near, is_one_edit};

/// Whether two names are spelled alike.
pub fn is_same(a: &[u8], b: &[u8]) -> bool
    ensures { result ≡ bytes_eq a.now b.now }
{
    a == b
}

/// Whether small letters and large ones alone tell them apart.
fn is_same_but_case(a: &[u8], b: &[u8]) -> bool
    ensures { result ≡ str_eq_ignore_ascii_case a.now b.now }
{
    a.eq_ignore_ascii_case(b)
}

/// Whether two signs at the front change places, and the rest is the same.
fn are_swapped(a: &[u8], b: &[u8]) -> bool
    ensures { result ≡ are_swapped a.now b.now }
{
    match a {
        [a1, a2, more @ ..] => match b {
            [b1, b2, rest @ ..] => *a1 == *b2 && *a2 == *b1 && is_same(more, rest),
            _ => false,
        },
        _ => false,
    }
}

/// What stands behind the first sign.
fn behind_first(name: &[u8]) -> &[u8]
    ensures { result.now ≡ drop 1 name.now }
{
    match name {
        [] => name,
        [_, rest @ ..] => rest,
    }
}

/// Whether an edit of the first sign makes the one of the other.
fn is_edited(a: &[u8], b: &[u8]) -> bool
    ensures { result ≡ is_edited a.now b.now }
{
    let (more, rest) = (behind_first(a), behind_first(b));
    (is_same(more, b) || is_same(a, rest)) || (is_same(more, rest) || are_swapped(a, b))
}

/// Both without their first signs, where these are the same.
fn behind_same<'a>(a: &'a [u8], b: &'a [u8]) -> Option<(&'a [u8], &'a [u8])>
    ensures { MatchOption result (is_one_edit a.now b.now ≡ is_edited a.now b.now)
        (λ p. (is_one_edit a.now b.now ≡ is_one_edit p.0.now p.1.now)
        × (length p.0.now < length a.now)) }
{
    match a {
        [] => None,
        [x, more @ ..] => match b {
            [] => None,
            [y, rest @ ..] => { if *x == *y { Some((more, rest)) } else { None } }
        },
    }
}

/// Whether one edit at most makes the one of the other.
fn is_one_edit(a: &[u8], b: &[u8]) -> bool
    ensures { result ≡ is_one_edit a.now b.now }
{
    let mut front = a;
    let mut other = b;
    while let Some((more, rest)) = behind_same(front, other) {
        front = more;
        other = rest;
    }
    is_edited(front, other)
}

/// Whether both are three signs long at least.
fn are_long(a: &[u8], b: &[u8]) -> bool
    ensures { result ≡ are_long a.now b.now }
{
    a.len() >= 3 && b.len() >= 3
}

/// Whether one is likely to be written for the other.
pub fn is_near(a: &[u8], b: &[u8]) -> bool
    ensures { result ≡ is_near a.now b.now }
{
    is_same_but_case(a, b) || are_long(a, b) && is_one_edit(a, b)
}
