//! Places and rectangles in a view, in units of the picture; y grows downwards.

ghost use Rattle.std.specs.Prelude.{◌≡◌};
ghost use Rattle.vcm_svg.specs.Rect.{overlaps, covers, meets, contains, is_same};

/// A place in a view.
#[derive(Clone, Copy)]
pub struct Spot {
    pub x: i64,
    pub y: i64,
}

/// A rectangle in a view, its edges included.
#[derive(Clone, Copy)]
pub struct Rect {
    pub left: i64,
    pub top: i64,
    pub right: i64,
    pub bottom: i64,
}

// Whether two rectangles have a place in common from left to right.
fn overlaps_across(a: Rect, b: Rect) -> bool
    ensures { result ≡ overlaps a.left a.right b.left b.right }
{
    a.left <= b.right && b.left <= a.right
}

// Whether two rectangles have a place in common from top to bottom.
fn overlaps_down(a: Rect, b: Rect) -> bool
    ensures { result ≡ overlaps a.top a.bottom b.top b.bottom }
{
    a.top <= b.bottom && b.top <= a.bottom
}

/// Whether two rectangles have a place in common.
pub fn meets(a: Rect, b: Rect) -> bool
    ensures { result ≡ meets a b }
{
    overlaps_across(a, b) && overlaps_down(a, b)
}

// Whether the first rectangle contains the second from left to right.
fn covers_across(a: Rect, b: Rect) -> bool
    ensures { result ≡ covers a.left a.right b.left b.right }
{
    a.left <= b.left && b.right <= a.right
}

// Whether the first rectangle contains the second from top to bottom.
fn covers_down(a: Rect, b: Rect) -> bool
    ensures { result ≡ covers a.top a.bottom b.top b.bottom }
{
    a.top <= b.top && b.bottom <= a.bottom
}

/// Whether the first rectangle contains the second.
pub fn contains(a: Rect, b: Rect) -> bool
    ensures { result ≡ contains a b }
{
    covers_across(a, b) && covers_down(a, b)
}

/// Whether two rectangles are one: each contains the other.
pub fn is_same(a: Rect, b: Rect) -> bool
    ensures { result ≡ is_same a b }
{
    contains(a, b) && contains(b, a)
}
