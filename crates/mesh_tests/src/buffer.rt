//! A drawing buffer: a walk of patches worked by hand.

ghost use Rattle.std.specs.Prelude.{◌≡◌};

use bintree_addr::Tri;
use draw_buffer::DrawBuffer;
use std::alloc::Global;

/// Puts a triangle in, where that may be.
fn put(buffer: &mut DrawBuffer, come: Tri) -> bool
    requires { buffer.old.n ≡ 1 }
    ensures { buffer.new.n ≡ 1 }
{
    let _once = buffer.triangles();
    if come.level() > 2 || buffer.has(come) || buffer.room() == 0 {
        return false;
    }
    buffer.patch(&[], &[come]);
    true
}

/// Puts a triangle in for another, where that may be.
fn change(buffer: &mut DrawBuffer, gone: Tri, come: Tri) -> bool
    requires { buffer.old.n ≡ 1 }
    ensures { buffer.new.n ≡ 1 }
{
    let _once = buffer.triangles();
    if come.level() > 2 || buffer.has(come) || !buffer.has(gone) {
        return false;
    }
    let _few = buffer.room();
    buffer.patch(&[gone], &[come]);
    true
}

/// Takes a triangle out, where it is in.
fn take_out(buffer: &mut DrawBuffer, gone: Tri) -> bool
    requires { buffer.old.n ≡ 1 }
    ensures { buffer.new.n ≡ 1 }
{
    let _once = buffer.triangles();
    let _few = buffer.room();
    if !buffer.has(gone) {
        return false;
    }
    buffer.patch(&[gone], &[]);
    true
}

/// Whether the buffer shows the upper half of the square and the left child of the lower half, after the walk.
fn shows(buffer: &DrawBuffer) -> bool {
    let corners = match buffer.corners() {
        [first, second] => {
            first.apex == 3 && first.v0 == 2 && second.apex == 0 && second.v0 == 4 && second.v1 == 1
        }
        _ => false,
    };
    corners
        && buffer.len() == 2
        && buffer.written() == [1].as_slice()
        && buffer.given() == [0, 4].as_slice()
        && buffer.points() == [4, 8, 0, 2, 6].as_slice()
}

/// Whether the walk goes, and ends as it should.
fn walk_goes(alloc: Global) -> Option<bool> {
    let mut buffer = DrawBuffer::make(alloc, 1, 4).ok()?;
    let left = Tri::new(4)?;
    let right = Tri::new(5)?;
    let went = put(&mut buffer, Tri::LOWER)
        && put(&mut buffer, Tri::UPPER)
        && change(&mut buffer, Tri::LOWER, left)
        && put(&mut buffer, right)
        && take_out(&mut buffer, left)
        && take_out(&mut buffer, right)
        && put(&mut buffer, left);
    Some(went && shows(&buffer))
}

#[test]
fn a_buffer_gives_freed_numbers_out_again(rt: HostRuntime) {
    assert_eq!(rt; walk_goes(rt.alloc()), Some(true));
}
