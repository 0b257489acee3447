//! Views of a change.

ghost use Rattle.std.specs.Prelude.{IfSome};
ghost use Rattle.nd_view.specs.Kept.{IsFor};

use nd_delta::Delta;
use nd_paths::Paths;
use nd_view::View;
use std::alloc::Allocator;

/// Returns the view with the entries of a change.
pub fn view<A: Allocator + Copy>(alloc: A, paths: &Paths<A>, change: &Delta<A>) -> Option<View<A>>
    ensures { IfSome result (IsFor paths.now) }
{
    let mut view = View::new(alloc);
    view.apply(paths, change).ok()?;
    Some(view)
}
